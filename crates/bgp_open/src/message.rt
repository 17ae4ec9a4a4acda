ghost use Rattle.std.specs.Prelude.{◌≡◌, ◌↔◌, ℕ, IfSome, IfNone, IsTrue};
ghost use Rattle.bmp_specs.specs.BgpMessage.{BeginsWithMessage, marker};

use byteorder::{BigEndian, ByteOrder};

/// The bytes of a BGP message before its body (RFC 4271, section 4.1).
pub const BGP_HEADER: usize = 19;

/// The types of BGP messages that BMP carries (RFC 4271, section 4.1).
pub const OPEN_MESSAGE: u8 = 1;

pub const UPDATE_MESSAGE: u8 = 2;

pub const NOTIFICATION_MESSAGE: u8 = 3;

/// "Marker": all ones (RFC 4271, section 4.1).
const MARKER: [u8; 16] = [255; 16];

/// A BGP message at the front of some bytes.
#[derive(Clone, Copy, Debug, PartialEq, Eq)]
pub struct BgpFrame {
    /// "Type": `OPEN_MESSAGE`, `UPDATE_MESSAGE`, `NOTIFICATION_MESSAGE` or another.
    pub kind: u8,

    /// "Length": the bytes of the whole message, 19 to 65,535.
    pub length: u32,
}

// Whether the bytes are the marker.
fn is_marker(bytes: &[u8]) -> bool
    ensures { IsTrue result ↔ (bytes.now ≡ marker) }
{
    bytes == MARKER.as_slice()
}

/// The BGP message at the front (RFC 4271, section 4.1; RFC 8654 for its length). Its body is
/// `input[BGP_HEADER..length]`. `None` exactly where no whole message stands there.
pub fn bgp_frame(input: &[u8]) -> Option<BgpFrame>
    ensures found { IfSome result (λ frame. BeginsWithMessage input.now frame.kind frame.length) }
    ensures none { IfNone result ((kind size : ℕ) → BeginsWithMessage input.now kind size → ⊥) }
{
    if input.len() < BGP_HEADER {
        return None;
    }
    if !is_marker(&input[..16]) {
        return None;
    }
    let length = BigEndian::read_u16(&input[16..]);
    if (length as usize) < BGP_HEADER {
        return None;
    }
    if input.len() < length as usize {
        return None;
    }
    Some(BgpFrame {
        kind: input[18],
        length: length as u32,
    })
}
