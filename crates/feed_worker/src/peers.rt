//! What a port is told of the peers of its router.
ghost use Rattle.std.specs.Prelude.{◌≡◌};

use bmp_frames::{PEER_DOWN, PEER_UP};
use rib_model::{Effect, Entry};
use station_doors::{PeerChange, Port};
use wire_tables::{CodeTable, reason_table};

/// Tells the port which peers went up and down by these entries, in their order. Of any other message than a Peer Up and a Peer
/// Down Notification the type alone is looked at.
pub(crate) fn tell_entries<P: Port>(port: &mut P, entries: &[Entry])
    ensures aside { P.aside port.new ≡ P.aside port.old }
    ensures calls { P.calls port.new ≡ P.calls port.old }
    ensures causes { P.causes port.new ≡ P.causes port.old }
    ensures tells { P.tells port.new ≡ P.tells port.old }
{
    for entry in entries {
        tell_entry(port, entry);
    }
}

fn tell_entry<P: Port>(port: &mut P, entry: &Entry)
    ensures aside { P.aside port.new ≡ P.aside port.old }
    ensures calls { P.calls port.new ≡ P.calls port.old }
    ensures causes { P.causes port.new ≡ P.causes port.old }
    ensures tells { P.tells port.new ≡ P.tells port.old }
{
    if let Entry::Message { head, effects } = entry
        && (head.kind == PEER_UP || head.kind == PEER_DOWN)
    {
        tell_effects(port, effects.as_slice());
    }
}

fn tell_effects<P: Port>(port: &mut P, effects: &[Effect])
    ensures aside { P.aside port.new ≡ P.aside port.old }
    ensures calls { P.calls port.new ≡ P.calls port.old }
    ensures causes { P.causes port.new ≡ P.causes port.old }
    ensures tells { P.tells port.new ≡ P.tells port.old }
{
    for effect in effects {
        tell_effect(port, effect);
    }
}

fn tell_effect<P: Port>(port: &mut P, effect: &Effect)
    ensures aside { P.aside port.new ≡ P.aside port.old }
    ensures calls { P.calls port.new ≡ P.calls port.old }
    ensures causes { P.causes port.new ≡ P.causes port.old }
    ensures tells { P.tells port.new ≡ P.tells port.old }
{
    match effect {
        Effect::Up { key, info } => port.peer(&PeerChange::Up {
            key: *key,
            asn: info.asn,
        }),
        Effect::Down { key, info } => {
            let reasons = reason_table();
            port.peer(&PeerChange::Down {
                key: *key,
                code: info.reason,
                reason: reason_name(&reasons, info.reason),
            });
        }
        _ => {}
    }
}

// The name of a reason, as replies have it.
fn reason_name(reasons: &CodeTable<6>, code: u8) -> &str {
    match reasons.name(code as u16) {
        Some(name) => name,
        None => "other",
    }
}
