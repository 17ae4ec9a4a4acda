ghost use Rattle.std.specs.Prelude.{◌≡◌, ◌≤◌, ◌+◌, ◌++◌, ℕ, List, Option, nat_lt, length, drop, sum_by, option_to_list};
ghost use Rattle.std.specs.Option.{option_map};
ghost use Rattle.bmp_specs.specs.Counts.{parts_in};
ghost use Rattle.bmp_specs.specs.Frame.{least};
ghost use Rattle.bmp_specs.specs.MessageHead.{AreOthers, HasOthers, HasPeerHead, IsHead, IsPeerHead, other_in, passes_parts};
ghost use Rattle.bmp_specs.specs.PeerHeader.{header_size};
ghost use Rattle.bmp_specs.specs.Values.{FamilyCodeValue, HeadValue, PeerHeadValue};
ghost use Rattle.path_attrs.specs.Judged.{mp_value};
ghost use Rattle.peer_events.specs.Body.{most_body};
ghost use Rattle.rib_model.specs.Effects.{effect_values, item_values};
ghost use Rattle.rib_model.specs.Entries.{head_value};
ghost use Rattle.bmp_message.specs.Heads.{others_value};
ghost use Rattle.bmp_message.specs.Types.{type_in};

use crate::routes::update_body;
use crate::types::{MessageType, PeerMessage};
use bgp_update::{frame_update, unicast_family};
use bmp_frames::{COMMON_HEADER, PeerHeader};
use path_attrs::MpSlice;
use rib_model::{Effect, EffectList, FamilyCode, Head, PeerHead};

// The length of a Per-Peer Header (RFC 7854, section 4.2).
const PEER_HEADER: usize = 42;

// The length of the message with this body.
pub(crate) fn message_length(body: &[u8]) -> u32
    requires { length body.now ≤ most_body }
    ensures { result ≡ least + length body.now }
{
    COMMON_HEADER + body.len() as u32
}

// What the Per-Peer Header at the front of the body tells, where one stands there.
fn peer_head(body: &[u8]) -> Option<PeerHead>
    ensures { (told : Option PeerHeadValue) → HasPeerHead body.now told → result ≡ told }
{
    let Some((front, _)) = body.split_first_chunk() else {
        return None;
    };
    let header = PeerHeader::read(front);
    let identifier = header.identifier;
    Some(PeerHead {
        asn: header.asn,
        identifier,
        seconds: header.seconds,
        micros: header.micros,
    })
}

// The same by the type of the message: of a type without a Per-Peer Header nothing is told.
fn peer_head_of(kind: MessageType, body: &[u8]) -> Option<PeerHead>
    ensures { (told : Option PeerHeadValue) → IsPeerHead (type_in kind) body.now told → result ≡ told }
{
    match kind {
        MessageType::OfPeer(_) => peer_head(body),
        MessageType::Initiation => None,
        MessageType::Termination => None,
        MessageType::Unknown => None,
    }
}

// Whether the item tells of parts that were passed over.
fn is_unread(item: &Effect) -> bool
    ensures { result ≡ nat_lt 0 (sum_by parts_in (item_values item.now)) }
{
    match item {
        Effect::Unread(parts) => *parts > 0,
        _ => false,
    }
}

// Whether the effects tell of parts that were passed over.
fn has_unread(effects: &EffectList) -> bool
    ensures { result ≡ nat_lt 0 (sum_by parts_in (effect_values effects.now)) }
{
    let items = effects.as_slice();
    let mut found = false;
    for item in items {
        found = found || is_unread(item);
    }
    found
}

// The family of the attribute, where it is passed over.
fn other_of(part: &Option<MpSlice<'_>>) -> Option<FamilyCode>
    ensures { option_to_list result ≡ other_in (option_map mp_value part.now) }
{
    let Some(part) = part else {
        return None;
    };
    if unicast_family(part.afi, part.safi).is_some() {
        return None;
    }
    Some(FamilyCode {
        afi: part.afi,
        safi: part.safi,
    })
}

// The families of an UPDATE message that are passed over.
#[derive(Clone, Copy)]
struct Others {
    // That of its MP_REACH_NLRI.
    reach: Option<FamilyCode>,

    // That of its MP_UNREACH_NLRI.
    unreach: Option<FamilyCode>,
}

// No family is passed over.
const NO_OTHERS: Others = Others {
    reach: None,
    unreach: None,
};

// The families of the UPDATE message that the bytes are which are passed over, where they are one.
fn others_in(bytes: &[u8]) -> Others
    ensures { (others : List FamilyCodeValue) → HasOthers bytes.now others → others_value result ≡ others }
{
    let Some(body) = update_body(bytes) else {
        return NO_OTHERS;
    };
    let Some(framed) = frame_update(body) else {
        return NO_OTHERS;
    };
    Others {
        reach: other_of(&framed.reach),
        unreach: other_of(&framed.unreach),
    }
}

// What follows the Per-Peer Header.
fn after_header(body: &[u8]) -> &[u8]
    ensures { result.now ≡ drop header_size body.now }
{
    match body.split_first_chunk::<PEER_HEADER>() {
        Some((_, rest)) => rest,
        None => &[],
    }
}

// The same by the type of the message and its effects: none where no parts of an UPDATE message were passed over.
fn others_of(kind: MessageType, body: &[u8], effects: &EffectList) -> Others
    ensures { (others : List FamilyCodeValue) → AreOthers (passes_parts (type_in kind) (effect_values effects.now)) (drop header_size body.now) others → others_value result ≡ others }
{
    match kind {
        MessageType::OfPeer(PeerMessage::RouteMonitoring) => {
            if has_unread(effects) {
                others_in(after_header(body))
            } else {
                NO_OTHERS
            }
        }
        _ => NO_OTHERS,
    }
}

// The head of the message of this type with this body, where it has one with these effects. The Per-Peer Header is read
// here, and the frame of an UPDATE message is found only where parts of it were passed over. Takes no memory.
pub(crate) fn head_of(kind: u8, body: &[u8], effects: &EffectList) -> Head
    requires { length body.now ≤ most_body }
    ensures { (head : HeadValue) → IsHead kind body.now (effect_values effects.now) head → head_value result ≡ head }
{
    let message = MessageType::of(kind);
    let others = others_of(message, body, effects);
    Head {
        kind,
        length: message_length(body),
        peer: peer_head_of(message, body),
        reach: others.reach,
        unreach: others.unreach,
    }
}
