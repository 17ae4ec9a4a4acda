ghost use Rattle.std.specs.Prelude.{◌≡◌, ◌+◌, ◌≤◌, ◌++◌, codes, length};
ghost use Rattle.bmp_specs.specs.NumberText.{number_text};
ghost use Rattle.bmp_specs.specs.RouteLine.{text_or_absent, origin_text, yes_or_no, aggregator_text};
ghost use Rattle.wire_io.specs.Writes.{Writes};

use crate::hop::v4_text;
use ip_prefix::ShortText;
use itoa::Buffer;
use path_attrs::Aggregator;
use wire_io::{Failed, Sink, write_all, write_pieces};

// Appends the digits of a number of four bytes, ten at most.
pub(crate) fn put_u32(text: &mut ShortText, number: u32)
    requires { length text.old + 10 ≤ 64 }
    ensures whole { text.new ≡ text.old ++ number_text number }
    ensures short { length text.new ≤ length text.old + 10 }
{
    text.put_number(number as u64);
}

// Appends the digits of a byte, three at most.
pub(crate) fn put_u8(text: &mut ShortText, number: u8)
    requires { length text.old + 3 ≤ 64 }
    ensures { text.new ≡ text.old ++ number_text number }
{
    text.put_number(number as u64);
}

// Appends the text of ORIGIN (RFC 4271, section 5.1.1).
pub(crate) fn put_origin_word(text: &mut ShortText, origin: Option<u8>)
    requires { length text.old + 10 ≤ 64 }
    ensures { text.new ≡ text.old ++ text_or_absent origin_text origin }
{
    match origin {
        None => text.extend(b"-"),
        Some(0) => text.extend(b"igp"),
        Some(1) => text.extend(b"egp"),
        Some(2) => text.extend(b"incomplete"),
        Some(code) => put_u8(text, code),
    }
}

// Appends the digits of a number that may be absent.
fn put_or_absent(text: &mut ShortText, number: Option<u32>)
    requires { length text.old + 10 ≤ 64 }
    ensures whole { text.new ≡ text.old ++ text_or_absent number_text number }
    ensures short { length text.new ≤ length text.old + 10 }
{
    match number {
        None => text.push(b'-'),
        Some(number) => put_u32(text, number),
    }
}

// The word for a flag.
pub(crate) fn yes_or_no(value: bool) -> &'static [u8]
    ensures { result.now ≡ yes_or_no value }
{
    if value { b"yes" } else { b"no" }
}

// The fields of MULTI_EXIT_DISC, LOCAL_PREF and ATOMIC_AGGREGATE.
pub(crate) fn metrics(med: Option<u32>, pref: Option<u32>, atomic: bool) -> ShortText
    ensures { result ≡ codes " med=" ++ (text_or_absent number_text med ++ (codes " pref=" ++ (text_or_absent number_text pref ++ (codes " atomic=" ++ yes_or_no atomic)))) }
{
    let mut text = ShortText::new();
    text.extend(b" med=");
    put_or_absent(&mut text, med);
    text.extend(b" pref=");
    put_or_absent(&mut text, pref);
    text.extend(b" atomic=");
    text.extend(yes_or_no(atomic));
    text
}

// Writes the field of AGGREGATOR (RFC 4271, section 5.1.7).
pub(crate) fn put_aggregator<O: Sink>(
    out: &mut O,
    aggregator: &Option<Aggregator>,
) -> Result<(), Failed>
    ensures { Writes O.faults O.told O.aside out.old (codes " agg=" ++ text_or_absent aggregator_text aggregator.now) result out.new }
{
    match aggregator {
        None => write_all(out, b" agg=-"),
        Some(aggregator) => {
            let mut buffer = Buffer::new();
            let asn = buffer.format(aggregator.asn).as_bytes();
            let identifier = v4_text(&aggregator.identifier);
            write_pieces(out, &[b" agg=", asn, b":", identifier.as_slice()])
        }
    }
}
