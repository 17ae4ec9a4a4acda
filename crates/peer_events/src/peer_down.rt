ghost use Rattle.std.specs.Prelude.{◌≤◌, ℕ, IfSome, IfNone, length};
ghost use Rattle.peer_events.specs.Body.{most_body};
ghost use Rattle.bmp_specs.specs.PeerDownNotification.{IsDetail, IsNotification, IsPeerDown};
ghost use Rattle.bmp_specs.specs.Values.{DownInfoValue};

use bgp_open::{BGP_HEADER, Detail, DownInfo, NOTIFICATION_MESSAGE, bgp_frame};
use byteorder::{BigEndian, ByteOrder};

/// "Reason 1": the router closed the session with a NOTIFICATION (RFC 7854, section 4.9).
const LOCAL_NOTIFICATION: u8 = 1;

/// "Reason 2": the router closed the session for an FSM event (RFC 7854, section 4.9).
const LOCAL_EVENT: u8 = 2;

/// "Reason 3": the peer closed the session with a NOTIFICATION (RFC 7854, section 4.9).
const REMOTE_NOTIFICATION: u8 = 3;

// The error code and the error subcode, where the bytes are exactly one NOTIFICATION that has them (RFC
// 4271, section 4.5).
fn notification(bytes: &[u8]) -> Option<(u8, u8)>
    ensures found { IfSome result (λ codes. IsNotification bytes.now codes.0 codes.1) }
    ensures none { IfNone result ((code sub : ℕ) → IsNotification bytes.now code sub → ⊥) }
{
    let frame = bgp_frame(bytes)?;
    if frame.kind != NOTIFICATION_MESSAGE {
        return None;
    }
    if frame.length as usize != bytes.len() {
        return None;
    }
    if bytes.len() < BGP_HEADER + 2 {
        return None;
    }
    Some((bytes[BGP_HEADER], bytes[BGP_HEADER + 1]))
}

// What the data says for the reason.
fn detail(reason: u8, bytes: &[u8]) -> Detail
    ensures { IsDetail reason bytes.now result }
{
    match reason {
        LOCAL_NOTIFICATION | REMOTE_NOTIFICATION => match notification(bytes) {
            Some((code, sub)) => Detail::Notified { code, sub },
            None => Detail::Unread,
        },
        LOCAL_EVENT => {
            if bytes.len() == 2 {
                Detail::Event(BigEndian::read_u16(bytes))
            } else {
                Detail::Unread
            }
        }
        _ => Detail::Unread,
    }
}

/// Reads what follows the Per-Peer Header in a Peer Down Notification (RFC 7854, section 4.9). `None`
/// exactly where no reason stands there. Data that isn't what the reason asks for is left unread, and
/// so is all that follows the reason 6 (RFC 9069, section 5.3).
pub fn read_peer_down(rest: &[u8]) -> Option<DownInfo>
    requires { length rest.now ≤ most_body }
    ensures found { IfSome result (λ d. IsPeerDown rest.now d) }
    ensures none { IfNone result ((d : DownInfoValue) → IsPeerDown rest.now d → ⊥) }
{
    let (reason, after) = rest.split_first()?;
    Some(DownInfo {
        reason: *reason,
        detail: detail(*reason, after),
    })
}
