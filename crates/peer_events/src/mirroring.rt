ghost use Rattle.std.specs.Prelude.{◌≤◌, ℕ, IfSome, IfNone, length};
ghost use Rattle.peer_events.specs.Body.{most_body};
ghost use Rattle.bmp_specs.specs.Mirroring.{IsMirroring};

use crate::tlvs::{Carrier, are_tlvs, count_unread};

/// How many TLVs of a Route Mirroring message are passed over (RFC 7854, section 4.7); `rest` follows
/// the Per-Peer Header. `None` exactly where TLVs don't fill the bytes. Mirrored messages aren't read.
pub fn read_mirroring(rest: &[u8]) -> Option<u32>
    requires { length rest.now ≤ most_body }
    ensures found { IfSome result (λ unread. IsMirroring rest.now unread) }
    ensures none { IfNone result ((unread : ℕ) → IsMirroring rest.now unread → ⊥) }
{
    if !are_tlvs(rest) {
        return None;
    }
    Some(count_unread(Carrier::Mirroring, rest))
}
