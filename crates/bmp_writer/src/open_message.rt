//! An OPEN message (RFC 4271, section 4.2).
ghost use Rattle.std.specs.Prelude.{◌≡◌, ◌≤◌, OnOk, OnErr};
ghost use Rattle.bmp_writer.specs.Capabilities.{capabilities_size};
ghost use Rattle.bmp_writer.specs.OpenMessage.{AreInOctets, IsOpenOf, front_of, open_size, parameters_size};
ghost use Rattle.bmp_writer.specs.Written.{Appends, Keeps};

use crate::capabilities::{put_capabilities, size_of_capabilities};
use bgp_open::{CAPABILITIES, OPEN_MESSAGE, Open};
use wire_io::{ByteList, NoMemory};

/// The bytes of an OPEN message without optional parameters.
const SHORTEST: u16 = 29;

// "Optional Parameters Length".
fn size_of_parameters(capabilities: u8) -> u8
    requires { capabilities ≤ 253 }
    ensures { result ≡ parameters_size capabilities }
{
    match capabilities {
        0 => 0,
        size => 2 + size,
    }
}

/// How many bytes the message has.
pub(crate) fn size_of_open(message: &Open) -> u32
    requires { capabilities_size message.now ≤ 253 }
    ensures { result ≡ open_size message.now }
{
    SHORTEST as u32 + size_of_parameters(size_of_capabilities(message) as u8) as u32
}

// The message up to its parameters.
fn front(version: u8, my_as: u16, hold: u16, identifier: [u8; 4], parameters: u8) -> [u8; 29]
    ensures bytes { result ≡ front_of version my_as hold identifier parameters }
    ensures octets { AreInOctets my_as hold identifier }
{
    let [l, m] = (SHORTEST + parameters as u16).to_be_bytes();
    let [a, b] = my_as.to_be_bytes();
    let [h, k] = hold.to_be_bytes();
    let [w, x, y, z] = identifier;
    [
        255,
        255,
        255,
        255,
        255,
        255,
        255,
        255,
        255,
        255,
        255,
        255,
        255,
        255,
        255,
        255,
        l,
        m,
        OPEN_MESSAGE,
        version,
        a,
        b,
        h,
        k,
        w,
        x,
        y,
        z,
        parameters,
    ]
}

/// Appends the message. Out of memory, fewer bytes stand after those of before.
pub(crate) fn put_open(out: &mut ByteList, message: &Open) -> Result<(), NoMemory>
    requires { capabilities_size message.now ≤ 253 }
    ensures ok { OnOk result (Appends (IsOpenOf message.now) out.old out.new) }
    ensures err { OnErr result (Keeps out.old out.new) }
{
    let capabilities = size_of_capabilities(message) as u8;
    let Open {
        version,
        my_as,
        hold,
        identifier,
        ..
    } = message;
    let parameters = size_of_parameters(capabilities);
    out.extend(&front(*version, *my_as, *hold, *identifier, parameters))?;
    if capabilities == 0 {
        return Ok(());
    }
    out.extend(&[CAPABILITIES, capabilities])?;
    put_capabilities(out, message)
}
