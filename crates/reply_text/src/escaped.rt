ghost use Rattle.std.specs.Prelude.{◌≡◌, ◌++◌};
ghost use Rattle.bmp_specs.specs.EscapedText.{is_plain, escaped_byte, escaped_text};
ghost use Rattle.wire_io.specs.Writes.{Writes};

use wire_io::{Failed, Sink, write_all};

// The sixteen digits, with upper case letters.
const DIGITS: &[u8; 16] = b"0123456789ABCDEF";

// Whether a byte stands as it is: visible ASCII other than `%`.
fn is_plain(byte: u8) -> bool
    ensures { result ≡ is_plain byte }
{
    0x21 <= byte && byte <= 0x7e && byte != b'%'
}

// Writes a byte of a router, as it is or as `%` and two digits.
fn put_escaped_byte<O: Sink>(out: &mut O, byte: u8) -> Result<(), Failed>
    ensures { Writes O.faults O.told O.aside out.old (escaped_byte byte) result out.new }
{
    if is_plain(byte) {
        return write_all(out, &[byte]);
    }
    let high = DIGITS[(byte / 16) as usize];
    let low = DIGITS[(byte % 16) as usize];
    write_all(out, &[b'%', high, low])
}

// Writes the bytes of a router.
fn put_escaped<O: Sink>(out: &mut O, bytes: &[u8]) -> Result<(), Failed>
    ensures { Writes O.faults O.told O.aside out.old (escaped_text bytes.now) result out.new }
{
    for byte in bytes {
        put_escaped_byte(out, *byte)?;
    }
    Ok(())
}

// Writes the bytes of a router after the text before them.
pub(crate) fn put_text<O: Sink>(out: &mut O, before: &[u8], bytes: &[u8]) -> Result<(), Failed>
    ensures { Writes O.faults O.told O.aside out.old (before.now ++ escaped_text bytes.now) result out.new }
{
    write_all(out, before)?;
    put_escaped(out, bytes)
}
