ghost use Rattle.std.specs.Prelude.{◌≡◌, ◌≤◌, ◌+◌, ◌++◌, ◌↔◌, ℕ, List, length, IsTrue, OnOk, IfSome, IfNone};
ghost use Rattle.bmp_specs.specs.BgpMessage.{IsBgpMessage, update_type};
ghost use Rattle.bmp_specs.specs.MessageBody.{IsRouteMonitoring, id_use as ids_of, side_of as side_in, width_of as width_in};
ghost use Rattle.bmp_specs.specs.MessageEffects.{effects_of};
ghost use Rattle.bmp_specs.specs.Values.{UpdateValue, routes};
ghost use Rattle.bmp_message.specs.State.{opens_of};
ghost use Rattle.rib_model.specs.Effects.{effect_values};

use crate::effects::{add_announcements, add_mark, add_unread, add_withdrawals, one_if};
use bgp_open::{BGP_HEADER, PeerInfo, Side, UPDATE_MESSAGE, bgp_frame, path_ids};
use bgp_update::{IdUse, Update, judge_update};
use bmp_frames::{O_FLAG, PeerHeader, PeerKey};
use bmp_specs::{Family, View, Width};
use rib_model::EffectList;
use wire_io::NoMemory;

// The side of the peer that the header speaks of.
fn side_of(head: &PeerHeader) -> Side
    ensures { result ≡ side_in head.now }
{
    if head.is_loc_rib() {
        Side::Local
    } else if head.has(O_FLAG) {
        Side::Outward
    } else {
        Side::Inward
    }
}

// The width of AS numbers.
pub(crate) fn width_of(head: &PeerHeader) -> Width
    ensures { result ≡ width_in head.now }
{
    if head.two_byte() {
        Width::Two
    } else {
        Width::Four
    }
}

// Which families use path identifiers, by what the peer's OPENs agreed on.
pub(crate) fn id_use(peer: &PeerInfo, head: &PeerHeader) -> IdUse
    ensures { result ≡ ids_of (opens_of peer.now) head.now }
{
    let side = side_of(head);
    IdUse {
        v4: path_ids(&peer.sent, &peer.received, Family::V4, side),
        v6: path_ids(&peer.sent, &peer.received, Family::V6, side),
    }
}

// The body of the UPDATE message that the bytes are, all of them (RFC 4271, section 4.1).
pub(crate) fn update_body(bytes: &[u8]) -> Option<&[u8]>
    ensures found { IfSome result (λ body. IsBgpMessage bytes.now (record { kind = update_type; body = body.now })) }
    ensures none { IfNone result ((body : List ℕ) → IsBgpMessage bytes.now (record { kind = update_type; body = body }) → ⊥) }
{
    let frame = bgp_frame(bytes)?;
    if frame.kind != UPDATE_MESSAGE {
        return None;
    }
    if frame.length as usize != bytes.len() {
        return None;
    }
    Some(&bytes[BGP_HEADER..])
}

// Whether the bytes are the UPDATE of a Route Monitoring message (RFC 7854, section 4.6) of a peer that is up. Takes
// no memory.
pub(crate) fn judge_routes(peer: &PeerInfo, head: &PeerHeader, rest: &[u8]) -> bool
    ensures { IsTrue result ↔ ((u : UpdateValue) × IsRouteMonitoring (opens_of peer.now) head.now rest.now u) }
{
    match update_body(rest) {
        None => false,
        Some(body) => judge_update(body, width_of(head), id_use(peer, head)),
    }
}

// How many items the effects of the UPDATE are.
pub(crate) fn count(update: &Update) -> usize
    ensures { result ≤ 5 }
{
    let withdrawn = one_if(!update.withdrawn.as_slice().is_empty());
    let plain = one_if(!update.plain.as_slice().is_empty());
    let multi = one_if(!update.multi.as_slice().is_empty());
    let mark = one_if(update.mark.is_some());
    let unread = one_if(update.unread > 0);
    withdrawn + plain + multi + mark + unread
}

// Appends the effects of the UPDATE: what is withdrawn, what is announced, and the End-of-RIB marker, in five items at
// most, however many routes it has. Its lists of prefixes are handed on as they are.
pub(crate) fn add_routes(
    effects: &mut EffectList,
    key: &PeerKey,
    view: View,
    update: Update,
) -> Result<(), NoMemory>
    ensures effects { OnOk result (effect_values effects.new ≡ effect_values effects.old ++ effects_of (routes key.now view update)) }
    ensures items { OnOk result (length effects.new ≤ length effects.old + 5) }
{
    add_withdrawals(effects, key, view, update.withdrawn)?;
    add_announcements(effects, key, view, update.plain, update.plain_attrs)?;
    add_announcements(effects, key, view, update.multi, update.multi_attrs)?;
    add_mark(effects, key, view, update.mark)?;
    add_unread(effects, update.unread)
}
