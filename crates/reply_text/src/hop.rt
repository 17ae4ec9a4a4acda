ghost use Rattle.std.specs.Prelude.{◌≡◌, ◌≤◌, ◌++◌, ◌/◌, ◌%◌, [], ◌∷◌, codes, length, slice_index};
ghost use Rattle.bmp_specs.specs.AddressText.{text_in};
ghost use Rattle.bmp_specs.specs.PeerText.{hex_digits, hex_text};
ghost use Rattle.bmp_specs.specs.RouteLine.{text_or_absent, hop_text};
ghost use Rattle.wire_io.specs.Writes.{Writes};

use ip_prefix::{Addr, Family, ShortText};
use wire_io::{ByteList, Failed, Sink, write_all, write_pieces};

// The sixteen digits, with lower case letters.
const DIGITS: &[u8; 16] = b"0123456789abcdef";

// The text of four bytes as an IPv4 address.
pub(crate) fn v4_text(bytes: &[u8]) -> ShortText
    requires { length bytes.now ≡ 4 }
    ensures whole { result ≡ text_in Family.V4 bytes.now }
    ensures short { length result ≤ 42 }
{
    let mut octets = [0u8; 4];
    octets.copy_from_slice(bytes);
    Addr::v4(octets).text()
}

// The text of sixteen bytes as an IPv6 address.
pub(crate) fn v6_text(bytes: &[u8]) -> ShortText
    requires { length bytes.now ≡ 16 }
    ensures whole { result ≡ text_in Family.V6 bytes.now }
    ensures short { length result ≤ 42 }
{
    let mut octets = [0u8; 16];
    octets.copy_from_slice(bytes);
    Addr::v6(octets).text()
}

// The two digits of a byte.
pub(crate) fn digits_of(byte: u8) -> [u8; 2]
    ensures { result ≡ slice_index hex_digits (byte / 16) ∷ slice_index hex_digits (byte % 16) ∷ [] }
{
    [DIGITS[(byte / 16) as usize], DIGITS[(byte % 16) as usize]]
}

// Writes the bytes in hexadecimal.
pub(crate) fn put_hex<O: Sink>(out: &mut O, bytes: &[u8]) -> Result<(), Failed>
    ensures { Writes O.faults O.told O.aside out.old (hex_text bytes.now) result out.new }
{
    for byte in bytes {
        write_all(out, &digits_of(*byte))?;
    }
    Ok(())
}

// Writes two IPv6 addresses, the global and the link-local one (RFC 2545, section 3).
fn put_two<O: Sink>(out: &mut O, hop: &[u8]) -> Result<(), Failed>
    requires { length hop.now ≡ 32 }
    ensures { Writes O.faults O.told O.aside out.old (codes " next=" ++ hop_text hop.now) result out.new }
{
    let (global, link_local) = hop.split_at(16);
    let global = v6_text(global);
    let link_local = v6_text(link_local);
    write_pieces(
        out,
        &[b" next=", global.as_slice(), b",", link_local.as_slice()],
    )
}

// Writes a next hop that is no address.
fn put_bytes<O: Sink>(out: &mut O, hop: &[u8]) -> Result<(), Failed>
    ensures { Writes O.faults O.told O.aside out.old (codes " next=x" ++ hex_text hop.now) result out.new }
{
    write_all(out, b" next=x")?;
    put_hex(out, hop)
}

// The field of a next hop that is one address, of this text.
fn one_hop(address: &ShortText) -> ShortText
    requires { length address.now ≤ 42 }
    ensures { result ≡ codes " next=" ++ address.now }
{
    let mut text = ShortText::new();
    text.extend(b" next=");
    text.extend(address.as_slice());
    text
}

// Writes a next hop in the form of its number of bytes.
fn put_by_length<O: Sink>(out: &mut O, hop: &[u8]) -> Result<(), Failed>
    ensures { Writes O.faults O.told O.aside out.old (codes " next=" ++ hop_text hop.now) result out.new }
{
    if hop.len() == 4 {
        return write_all(out, one_hop(&v4_text(hop)).as_slice());
    }
    if hop.len() == 16 {
        return write_all(out, one_hop(&v6_text(hop)).as_slice());
    }
    if hop.len() == 32 {
        return put_two(out, hop);
    }
    put_bytes(out, hop)
}

// Writes the field of the next hop (RFC 4271, section 5.1.3; RFC 4760, section 3).
pub(crate) fn put_hop<O: Sink>(out: &mut O, hop: &Option<ByteList>) -> Result<(), Failed>
    ensures { Writes O.faults O.told O.aside out.old (codes " next=" ++ text_or_absent hop_text hop.now) result out.new }
{
    match hop {
        None => write_all(out, b" next=-"),
        Some(hop) => put_by_length(out, hop.as_slice()),
    }
}
