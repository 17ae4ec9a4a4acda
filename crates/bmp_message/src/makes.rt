ghost use Rattle.std.specs.Prelude.{◌≡◌, ⊤, List, [], ◌∷◌, ◌++◌, IfOk, IsErrOf, IsOkAnd, MatchResult, Err};
ghost use Rattle.std.specs.Arc.{arc_value};
ghost use Rattle.bmp_specs.specs.LenientBody.{IsLenientUpdate};
ghost use Rattle.bmp_specs.specs.MessageBody.{IsRouteMonitoring};
ghost use Rattle.bmp_specs.specs.MessageEffects.{effects_of};
ghost use Rattle.bmp_specs.specs.PeerHeader.{view_of};
ghost use Rattle.bmp_specs.specs.UpdateForms.{FormsValue};
ghost use Rattle.bmp_specs.specs.Values.{EffectValue, UpdateValue, orphan as orphan_value, passed as passed_value, routes as routes_of};
ghost use Rattle.bmp_message.specs.Lenient.{up_if};
ghost use Rattle.bmp_message.specs.State.{opens_of};
ghost use Rattle.rib_model.specs.Effects.{effect_values};

use crate::effects::{one_if, only};
use crate::forms::Forms;
use crate::in_forms::{InForms, add_up, judge_in_forms, read_in_forms};
use crate::routes::{add_routes, count, id_use, judge_routes, update_body, width_of};
use bgp_open::PeerInfo;
use bgp_update::{Update, UpdateReader};
use bmp_frames::{PeerHeader, PeerKey};
use bmp_specs::View;
use rib_model::{Effect, EffectList};
use std::alloc::Global;
use std::sync::Arc;
use wire_io::{BodyFault, NoMemory};

// What is made of the effects of a message.
pub(crate) trait Makes {
    // What is made.
    type Made: Drop;

    // It is made of these effects.
    ghost is_of: { Self.Made → List EffectValue → Type 0 };

    // It may want memory where it isn't made of a list.
    ghost wants: { Type 0 };

    // Makes it of a message of a peer that isn't up.
    fn orphan(alloc: Global) -> Result<Self::Made, BodyFault>
        ensures ok { IfOk result (λ made. is_of made (orphan_value ∷ [])) }
        ensures broken { IsErrOf result BodyFault.Broken → ⊥ }
        ensures wants { IsErrOf result BodyFault.NoMemory → wants };

    // Makes it of a message that is passed over.
    fn passed(alloc: Global) -> Result<Self::Made, BodyFault>
        ensures ok { IfOk result (λ made. is_of made (passed_value ∷ [])) }
        ensures broken { IsErrOf result BodyFault.Broken → ⊥ }
        ensures wants { IsErrOf result BodyFault.NoMemory → wants };

    // Makes it of the list of the effects.
    fn of(effects: EffectList) -> Self::Made
        ensures { is_of result (effect_values effects) };

    // Makes it of a Route Monitoring message (RFC 7854, section 4.6) of a peer that is up.
    fn routes(
        alloc: Global,
        reader: &mut UpdateReader,
        peer: &PeerInfo,
        head: &PeerHeader,
        key: &PeerKey,
        rest: &[u8],
    ) -> Result<Self::Made, BodyFault>
        ensures ok { IfOk result (λ made. (u : UpdateValue) × IsRouteMonitoring (opens_of peer.now) head.now rest.now u × is_of made (effects_of (routes_of key.now (view_of head.now) u))) }
        ensures broken { IsErrOf result BodyFault.Broken → (u : UpdateValue) → IsRouteMonitoring (opens_of peer.now) head.now rest.now u → ⊥ }
        ensures wants { IsErrOf result BodyFault.NoMemory → wants };

    // Makes it of a Route Monitoring message that is read in the forms in which routers send it, after one of the same
    // peer and view in the last forms, with the Up of the peer before it where that is implied; and tells the forms.
    fn in_forms(
        alloc: Global,
        reader: &mut UpdateReader,
        peer: &Arc<PeerInfo>,
        implied: bool,
        head: &PeerHeader,
        key: &PeerKey,
        rest: &[u8],
        last: &Forms,
    ) -> Result<(Self::Made, Forms), BodyFault>
        ensures ok { IfOk result (λ r. (u : UpdateValue) × IsLenientUpdate (opens_of (arc_value peer.now)) head.now rest.now last.now r.1 u
            × is_of r.0 (up_if implied key.now (arc_value peer.now) ++ effects_of (routes_of key.now (view_of head.now) u))) }
        ensures broken { IsErrOf result BodyFault.Broken → (taken : FormsValue) (u : UpdateValue) → IsLenientUpdate (opens_of (arc_value peer.now)) head.now rest.now last.now taken u → ⊥ };
}

// Makes it of the list of the effects, if there is one.
pub(crate) fn made_of<M: Makes>(
    effects: Result<EffectList, BodyFault>,
) -> Result<M::Made, BodyFault>
    ensures { MatchResult effects (λ list. IsOkAnd result (λ made. M.is_of made (effect_values list))) (λ fault. result ≡ Err fault) }
{
    match effects {
        Ok(effects) => Ok(M::of(effects)),
        Err(fault) => Err(fault),
    }
}

// The effects of an UPDATE in their list, with the Up of the peer before them where it is implied.
fn listed(
    alloc: Global,
    key: &PeerKey,
    view: View,
    peer: &Arc<PeerInfo>,
    implied: bool,
    update: Update,
) -> Result<EffectList, NoMemory>
    ensures { IfOk result (λ effects. effect_values effects ≡ up_if implied key.now (arc_value peer.now) ++ effects_of (routes_of key.now view update)) }
{
    let mut effects = EffectList::with_capacity(alloc, one_if(implied) + count(&update))?;
    add_up(&mut effects, key, peer, implied)?;
    add_routes(&mut effects, key, view, update)?;
    Ok(effects)
}

// The effects are made, in their list.
pub(crate) struct WithEffects;

impl Makes for WithEffects {
    type Made = EffectList;

    ghost is_of = { λ made effects. effects ≡ effect_values made };

    ghost wants = { ⊤ };

    fn orphan(alloc: Global) -> Result<EffectList, BodyFault> {
        Ok(only(alloc, Effect::Orphan)?)
    }

    fn passed(alloc: Global) -> Result<EffectList, BodyFault> {
        Ok(only(alloc, Effect::Passed)?)
    }

    fn of(effects: EffectList) -> EffectList {
        effects
    }

    // In five items at most.
    fn routes(
        alloc: Global,
        reader: &mut UpdateReader,
        peer: &PeerInfo,
        head: &PeerHeader,
        key: &PeerKey,
        rest: &[u8],
    ) -> Result<EffectList, BodyFault> {
        let Some(body) = update_body(rest) else {
            return Err(BodyFault::Broken);
        };
        let update = reader.read(body, width_of(head), id_use(peer, head))?;
        let mut effects = EffectList::with_capacity(alloc, count(&update))?;
        add_routes(&mut effects, key, head.view(), update)?;
        Ok(effects)
    }

    // In six items at most; the Up of the peer stands first, where it is implied.
    fn in_forms(
        alloc: Global,
        reader: &mut UpdateReader,
        peer: &Arc<PeerInfo>,
        implied: bool,
        head: &PeerHeader,
        key: &PeerKey,
        rest: &[u8],
        last: &Forms,
    ) -> Result<(EffectList, Forms), BodyFault> {
        let InForms { update, taken } = read_in_forms(alloc, reader, peer, head, rest, last)?;
        let effects = listed(alloc, key, head.view(), peer, implied, update)?;
        Ok((effects, taken))
    }
}

// Nothing is made: the message is judged alone.
pub(crate) struct WithoutEffects;

impl Makes for WithoutEffects {
    type Made = ();

    ghost is_of = { λ _ _. ⊤ };

    ghost wants = { ⊥ };

    fn orphan(_alloc: Global) -> Result<(), BodyFault> {
        Ok(())
    }

    fn passed(_alloc: Global) -> Result<(), BodyFault> {
        Ok(())
    }

    fn of(_effects: EffectList) {}

    fn routes(
        _alloc: Global,
        _reader: &mut UpdateReader,
        peer: &PeerInfo,
        head: &PeerHeader,
        _key: &PeerKey,
        rest: &[u8],
    ) -> Result<(), BodyFault> {
        if judge_routes(peer, head, rest) {
            Ok(())
        } else {
            Err(BodyFault::Broken)
        }
    }

    fn in_forms(
        _alloc: Global,
        _reader: &mut UpdateReader,
        peer: &Arc<PeerInfo>,
        _implied: bool,
        head: &PeerHeader,
        _key: &PeerKey,
        rest: &[u8],
        last: &Forms,
    ) -> Result<((), Forms), BodyFault> {
        match judge_in_forms(peer, head, rest, last) {
            Some(taken) => Ok(((), taken)),
            None => Err(BodyFault::Broken),
        }
    }
}
