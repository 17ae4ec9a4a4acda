ghost use Rattle.std.specs.Prelude.{◌≡◌, ◌≤◌, ◌++◌, ◌∷◌, if◌then◌else◌, length, nat_lt, option_map};
ghost use Rattle.bmp_specs.specs.AddressText.{text_in};
ghost use Rattle.bmp_specs.specs.NumberText.{number_text};
ghost use Rattle.ask_specs.specs.TraitText.{administrators, extended_text, worded_text};
ghost use Rattle.wire_io.specs.Writes.{Writes};

use crate::hop::{put_hex, v4_text};
use crate::values::put_u32;
use byteorder::{BigEndian, ByteOrder};
use ip_prefix::{Family, ShortText};
use wire_io::{Failed, Sink, write_all};

// Two numbers with a colon between them, after the word before them.
fn two_numbers(word: &[u8], first: u32, second: u32) -> ShortText
    requires { length word.now ≤ 3 }
    ensures { result ≡ word.now ++ (number_text first ++ (58 ∷ number_text second)) }
{
    let mut text = ShortText::new();
    text.extend(word);
    put_u32(&mut text, first);
    text.push(b':');
    put_u32(&mut text, second);
    text
}

// An IPv4 address and a number with a colon between them, after the word before them.
fn address_and_number(word: &[u8], address: &[u8], number: u32) -> ShortText
    requires word { length word.now ≤ 3 }
    requires address { length address.now ≡ 4 }
    ensures { result ≡ word.now ++ (text_in Family.V4 address.now ++ (58 ∷ number_text number)) }
{
    let mut text = ShortText::new();
    text.extend(word);
    text.extend(v4_text(address).as_slice());
    text.push(b':');
    put_u32(&mut text, number);
    text
}

// An AS of four octets and a number (RFC 5668, section 2), where two octets wouldn't hold the AS, after the word before them.
fn four_octet_as(word: &[u8], asn: u32, number: u32) -> Option<ShortText>
    requires { length word.now ≤ 3 }
    ensures { result ≡ (if nat_lt 65535 asn then Some (word.now ++ (number_text asn ++ (58 ∷ number_text number))) else None) }
{
    if asn > 65535 {
        Some(two_numbers(word, asn, number))
    } else {
        None
    }
}

// "Global Administrator" and "Local Administrator" after the word before them, by the high octet of the type (RFC 4360,
// sections 3.1 and 3.2).
fn administrators(word: &[u8], high: u8, six: &[u8]) -> Option<ShortText>
    requires word { length word.now ≤ 3 }
    requires six { length six.now ≡ 6 }
    ensures { result ≡ option_map (λ text. word.now ++ text) (administrators high six.now) }
{
    let (_, four) = six.split_at(2);
    let (first, last) = six.split_at(4);
    match high {
        0 => Some(two_numbers(
            word,
            BigEndian::read_u16(six) as u32,
            BigEndian::read_u32(four),
        )),
        1 => Some(address_and_number(word, first, BigEndian::read_u16(last) as u32)),
        2 => four_octet_as(
            word,
            BigEndian::read_u32(six),
            BigEndian::read_u16(last) as u32,
        ),
        _ => None,
    }
}

// The text of a "Route Target" or a "Route Origin" (RFC 4360, sections 4 and 5), where it is one in words.
fn worded(octets: &[u8]) -> Option<ShortText>
    requires { length octets.now ≡ 8 }
    ensures { result ≡ worded_text octets.now }
{
    let (_, six) = octets.split_at(2);
    match octets[1] {
        2 => administrators(b"rt:", octets[0], six),
        3 => administrators(b"ro:", octets[0], six),
        _ => None,
    }
}

// Writes an extended community (RFC 4360): in words, where it has some, else in hexadecimal.
pub(crate) fn put_extended<O: Sink>(out: &mut O, octets: &[u8]) -> Result<(), Failed>
    requires { length octets.now ≡ 8 }
    ensures { Writes O.faults O.told O.aside out.old (extended_text octets.now) result out.new }
{
    match worded(octets) {
        Some(text) => write_all(out, text.as_slice()),
        None => put_hex(out, octets),
    }
}
