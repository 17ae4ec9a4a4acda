ghost use Rattle.std.specs.Prelude.{◌≡◌, ◌++◌, true, IfOk, OnOk, IfSome, IfNone, IsErrOf};
ghost use Rattle.std.specs.Arc.{arc_value};
ghost use Rattle.bmp_specs.specs.declared.wire.Family.TheVariants.{V4, V6};
ghost use Rattle.bmp_specs.specs.FramedUpdate.{FitsFamily};
ghost use Rattle.bmp_specs.specs.LenientBody.{IsLenientUpdate};
ghost use Rattle.bmp_specs.specs.TreatAsWithdraw.{IsTreatedAsWithdraw};
ghost use Rattle.bmp_specs.specs.UpdateForms.{FormsValue};
ghost use Rattle.bmp_specs.specs.Values.{UpdateValue};
ghost use Rattle.bgp_update.specs.Framed.{framed_value};
ghost use Rattle.bmp_message.specs.BodyForms.{IsBodyInForms, IsReadAsLast};
ghost use Rattle.bmp_message.specs.Lenient.{up_if};
ghost use Rattle.bmp_message.specs.State.{opens_of};
ghost use Rattle.rib_model.specs.Effects.{effect_values};

use crate::effects::add;
use crate::forms::{Forms, choose_family, choose_width, departs, width_in};
use crate::routes::{id_use, update_body, width_of};
use bgp_open::PeerInfo;
use bgp_update::{
    FramedUpdate, IdUse, Update, UpdateReader, frame_update, judge_update, treat_as_withdraw,
};
use bmp_frames::{PeerHeader, PeerKey};
use bmp_specs::Family;
use rib_model::{Effect, EffectList};
use std::alloc::Global;
use std::sync::Arc;
use wire_io::{BodyFault, NoMemory};

// An UPDATE message that was read, and the forms that were taken.
#[derive(Drop)]
pub(crate) struct InForms {
    pub(crate) update: Update,
    pub(crate) taken: Forms,
}

// Reads the body of an UPDATE message in the forms of the last one, where it has a value in them. With AS numbers in
// two octets it isn't tried, since the AS_PATH is then looked at further.
fn read_as_last(
    reader: &mut UpdateReader,
    peer: &PeerInfo,
    head: &PeerHeader,
    body: &[u8],
    last: &Forms,
) -> Result<Option<Update>, NoMemory>
    ensures { IfOk result (λ found. IfSome found (IsReadAsLast (opens_of peer.now) head.now body.now last.now)) }
{
    if departs(peer, head, last.two_octets) {
        return Ok(None);
    }
    let ids = last.ids(id_use(peer, head));
    match reader.read(body, width_of(head), ids) {
        Ok(update) => Ok(Some(update)),
        Err(BodyFault::Broken) => Ok(None),
        Err(BodyFault::NoMemory) => Err(NoMemory),
    }
}

// Withdraws the routes of an UPDATE message whose path attributes have a value in no width (RFC 7606, section 2).
fn withdraw_taken(
    alloc: Global,
    framed: &FramedUpdate<'_>,
    ids: IdUse,
    taken: Forms,
) -> Result<InForms, BodyFault>
    requires v4 { FitsFamily (framed_value framed.now) V4 ids.v4 }
    requires v6 { FitsFamily (framed_value framed.now) V6 ids.v6 }
    ensures ok { IfOk result (λ r. (r.taken ≡ taken) × IsTreatedAsWithdraw ids (framed_value framed.now) r.update) }
    ensures broken { IsErrOf result BodyFault.Broken → ⊥ }
{
    let update = treat_as_withdraw(alloc, framed, ids)?;
    Ok(InForms { update, taken })
}

// Reads the body of an UPDATE message in the forms that fit: of each aspect the last one, and else the other. Where the
// path attributes have a value in no width, its routes are withdrawn (RFC 7606, section 2).
fn read_fitting(
    alloc: Global,
    reader: &mut UpdateReader,
    peer: &PeerInfo,
    head: &PeerHeader,
    body: &[u8],
    last: &Forms,
) -> Result<InForms, BodyFault>
    ensures ok { IfOk result (λ r. IsBodyInForms (opens_of peer.now) head.now body.now last.now r.taken r.update) }
    ensures broken { IsErrOf result BodyFault.Broken → (taken : FormsValue) (u : UpdateValue) → IsBodyInForms (opens_of peer.now) head.now body.now last.now taken u → ⊥ }
{
    let Some(framed) = frame_update(body) else {
        return Err(BodyFault::Broken);
    };
    let agreed = id_use(peer, head);
    let Some(bare_v4) = choose_family(&framed, Family::V4, agreed.v4, last.bare_v4) else {
        return Err(BodyFault::Broken);
    };
    let Some(bare_v6) = choose_family(&framed, Family::V6, agreed.v6, last.bare_v6) else {
        return Err(BodyFault::Broken);
    };
    match choose_width(peer, head, framed.attributes, last.two_octets) {
        Some(two_octets) => {
            let taken = Forms {
                bare_v4,
                bare_v6,
                two_octets,
            };
            let width = width_in(peer, head, two_octets);
            let update = reader.read(body, width, taken.ids(agreed))?;
            Ok(InForms { update, taken })
        }
        None => {
            let taken = Forms {
                bare_v4,
                bare_v6,
                two_octets: last.two_octets,
            };
            withdraw_taken(alloc, &framed, taken.ids(agreed), taken)
        }
    }
}

// Reads the UPDATE of a Route Monitoring message (RFC 7854, section 4.6) in the forms in which routers send it, after
// one of the same peer and view in the last forms. `Broken` only where it has no value in any. One that has a value in
// the last forms is read once.
pub(crate) fn read_in_forms(
    alloc: Global,
    reader: &mut UpdateReader,
    peer: &PeerInfo,
    head: &PeerHeader,
    rest: &[u8],
    last: &Forms,
) -> Result<InForms, BodyFault>
    ensures ok { IfOk result (λ r. IsLenientUpdate (opens_of peer.now) head.now rest.now last.now r.taken r.update) }
    ensures broken { IsErrOf result BodyFault.Broken → (taken : FormsValue) (u : UpdateValue) → IsLenientUpdate (opens_of peer.now) head.now rest.now last.now taken u → ⊥ }
{
    let Some(body) = update_body(rest) else {
        return Err(BodyFault::Broken);
    };
    match read_as_last(reader, peer, head, body, last)? {
        Some(update) => Ok(InForms {
            update,
            taken: *last,
        }),
        None => read_fitting(alloc, reader, peer, head, body, last),
    }
}

// Appends the Up of a peer, where it is implied.
pub(crate) fn add_up(
    effects: &mut EffectList,
    key: &PeerKey,
    peer: &Arc<PeerInfo>,
    implied: bool,
) -> Result<(), NoMemory>
    ensures { OnOk result (effect_values effects.new ≡ effect_values effects.old ++ up_if implied key.now (arc_value peer.now)) }
{
    if !implied {
        return Ok(());
    }
    let info = Arc::try_clone(peer)?;
    add(effects, Effect::Up { key: *key, info })
}

// Whether the body of an UPDATE message has a value in the forms of the last one.
fn judge_as_last(peer: &PeerInfo, head: &PeerHeader, body: &[u8], last: &Forms) -> bool
    ensures { result ≡ true → (u : UpdateValue) × IsReadAsLast (opens_of peer.now) head.now body.now last.now u }
{
    if departs(peer, head, last.two_octets) {
        return false;
    }
    let ids = last.ids(id_use(peer, head));
    judge_update(body, width_of(head), ids)
}

// The forms that fit the body of an UPDATE message, as `read_fitting` takes them.
fn judge_fitting(peer: &PeerInfo, head: &PeerHeader, body: &[u8], last: &Forms) -> Option<Forms>
    ensures some { IfSome result (λ taken. (u : UpdateValue) × IsBodyInForms (opens_of peer.now) head.now body.now last.now taken u) }
    ensures none { IfNone result ((taken : FormsValue) (u : UpdateValue) → IsBodyInForms (opens_of peer.now) head.now body.now last.now taken u → ⊥) }
{
    let Some(framed) = frame_update(body) else {
        return None;
    };
    let agreed = id_use(peer, head);
    let Some(bare_v4) = choose_family(&framed, Family::V4, agreed.v4, last.bare_v4) else {
        return None;
    };
    let Some(bare_v6) = choose_family(&framed, Family::V6, agreed.v6, last.bare_v6) else {
        return None;
    };
    match choose_width(peer, head, framed.attributes, last.two_octets) {
        Some(two_octets) => {
            let taken = Forms {
                bare_v4,
                bare_v6,
                two_octets,
            };
            if !judge_update(body, width_in(peer, head, two_octets), taken.ids(agreed)) {
                return None;
            }
            Some(taken)
        }
        None => Some(Forms {
            bare_v4,
            bare_v6,
            two_octets: last.two_octets,
        }),
    }
}

// The forms in which `read_in_forms` reads the UPDATE of a Route Monitoring message. `None` exactly where it has no
// value in any. Takes no memory.
pub(crate) fn judge_in_forms(
    peer: &PeerInfo,
    head: &PeerHeader,
    rest: &[u8],
    last: &Forms,
) -> Option<Forms>
    ensures some { IfSome result (λ taken. (u : UpdateValue) × IsLenientUpdate (opens_of peer.now) head.now rest.now last.now taken u) }
    ensures none { IfNone result ((taken : FormsValue) (u : UpdateValue) → IsLenientUpdate (opens_of peer.now) head.now rest.now last.now taken u → ⊥) }
{
    let Some(body) = update_body(rest) else {
        return None;
    };
    if judge_as_last(peer, head, body, last) {
        return Some(*last);
    }
    judge_fitting(peer, head, body, last)
}
