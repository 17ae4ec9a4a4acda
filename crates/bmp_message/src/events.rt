ghost use Rattle.std.specs.Prelude.{◌≡◌, ◌≤◌, ℕ, [], ◌∷◌, ◌++◌, length, IfOk, OnOk, IsErrOf};
ghost use Rattle.std.specs.Arc.{arc_value};
ghost use Rattle.bmp_specs.specs.Initiation.{IsInitiation};
ghost use Rattle.bmp_specs.specs.MessageEffects.{effect_of, effects_of, unread_effect};
ghost use Rattle.bmp_specs.specs.Mirroring.{IsMirroring};
ghost use Rattle.bmp_specs.specs.PeerDownNotification.{IsPeerDown};
ghost use Rattle.bmp_specs.specs.Statistics.{IsStatistics};
ghost use Rattle.bmp_specs.specs.Termination.{IsTermination};
ghost use Rattle.bmp_specs.specs.Values.{DownInfoValue, InitiationValue, StatisticsValue, mirrored_routes, named, described, up};
ghost use Rattle.bmp_specs.specs.Values.{initiation as told, termination as ended, peer_down as went_down, statistics as counted};
ghost use Rattle.peer_events.specs.Body.{most_body};
ghost use Rattle.rib_model.specs.Effects.{effect_values};

use crate::effects::{add, add_statistics, add_unread, one_if, only};
use bgp_open::PeerInfo;
use bmp_frames::PeerKey;
use peer_events::{
    Initiation, read_initiation, read_mirroring, read_peer_down, read_statistics, read_termination,
};
use rib_model::{Effect, EffectList};
use std::alloc::Global;
use std::sync::Arc;
use wire_io::{BodyFault, ByteList, NoMemory};

// Appends the sysName, where there is one.
fn add_name(effects: &mut EffectList, name: Option<ByteList>) -> Result<(), NoMemory>
    ensures { OnOk result (effect_values effects.new ≡ effect_values effects.old ++ effect_of named name) }
{
    if let Some(name) = name {
        add(effects, Effect::Name(name))?;
    }
    Ok(())
}

// Appends the sysDescr, where there is one.
fn add_description(effects: &mut EffectList, descr: Option<ByteList>) -> Result<(), NoMemory>
    ensures { OnOk result (effect_values effects.new ≡ effect_values effects.old ++ effect_of described descr) }
{
    if let Some(descr) = descr {
        add(effects, Effect::Descr(descr))?;
    }
    Ok(())
}

// The effects of an Initiation Message (RFC 7854, section 4.3).
pub(crate) fn initiation(alloc: Global, body: &[u8]) -> Result<EffectList, BodyFault>
    requires { length body.now ≤ most_body }
    ensures ok { IfOk result (λ effects. (i : InitiationValue) × IsInitiation body.now i × (effect_values effects ≡ effects_of (told i))) }
    ensures broken { IsErrOf result BodyFault.Broken → (i : InitiationValue) → IsInitiation body.now i → ⊥ }
{
    let Initiation {
        name,
        descr,
        unread,
    } = read_initiation(alloc, body)?;
    let count = one_if(name.is_some()) + one_if(descr.is_some()) + one_if(unread > 0);
    let mut effects = EffectList::with_capacity(alloc, count)?;
    add_name(&mut effects, name)?;
    add_description(&mut effects, descr)?;
    add_unread(&mut effects, unread)?;
    Ok(effects)
}

// The effects of a Termination Message (RFC 7854, section 4.5).
pub(crate) fn termination(alloc: Global, body: &[u8]) -> Result<EffectList, BodyFault>
    requires { length body.now ≤ most_body }
    ensures ok { IfOk result (λ effects. IsTermination body.now × (effect_values effects ≡ effects_of ended)) }
    ensures broken { IsErrOf result BodyFault.Broken → IsTermination body.now → ⊥ }
{
    if !read_termination(body) {
        return Err(BodyFault::Broken);
    }
    Ok(EffectList::new(alloc))
}

// The effects of a Peer Down Notification (RFC 7854, section 4.9).
pub(crate) fn peer_down(alloc: Global, key: &PeerKey, rest: &[u8]) -> Result<EffectList, BodyFault>
    requires { length rest.now ≤ most_body }
    ensures ok { IfOk result (λ effects. (d : DownInfoValue) × IsPeerDown rest.now d × (effect_values effects ≡ effects_of (went_down key.now d))) }
    ensures broken { IsErrOf result BodyFault.Broken → (d : DownInfoValue) → IsPeerDown rest.now d → ⊥ }
{
    let Some(info) = read_peer_down(rest) else {
        return Err(BodyFault::Broken);
    };
    let effects = only(alloc, Effect::Down { key: *key, info })?;
    Ok(effects)
}

// The effects of a peer that comes up, and of the parts that its Peer Up passed over.
pub(crate) fn peer_up(
    alloc: Global,
    key: &PeerKey,
    info: &Arc<PeerInfo>,
    unread: u32,
) -> Result<EffectList, NoMemory>
    ensures { IfOk result (λ effects. effect_values effects ≡ up key.now (arc_value info.now) ∷ unread_effect unread) }
{
    let mut effects = EffectList::with_capacity(alloc, 1 + one_if(unread > 0))?;
    let info = Arc::try_clone(info)?;
    add(&mut effects, Effect::Up { key: *key, info })?;
    add_unread(&mut effects, unread)?;
    Ok(effects)
}

// The effects of a Statistics Report (RFC 7854, section 4.8) of a peer that is up.
pub(crate) fn statistics(alloc: Global, key: &PeerKey, rest: &[u8]) -> Result<EffectList, BodyFault>
    requires { length rest.now ≤ most_body }
    ensures ok { IfOk result (λ effects. (s : StatisticsValue) × IsStatistics rest.now s × (effect_values effects ≡ effects_of (counted key.now s))) }
    ensures broken { IsErrOf result BodyFault.Broken → (s : StatisticsValue) → IsStatistics rest.now s → ⊥ }
{
    let report = read_statistics(alloc, rest)?;
    let stats = report.stats.as_slice();
    let count = stats.len().saturating_add(one_if(report.unread > 0));
    let mut effects = EffectList::with_capacity(alloc, count)?;
    add_statistics(&mut effects, key, stats)?;
    add_unread(&mut effects, report.unread)?;
    Ok(effects)
}

// The effects of a Route Mirroring message (RFC 7854, section 4.7).
pub(crate) fn mirroring(alloc: Global, rest: &[u8]) -> Result<EffectList, BodyFault>
    requires { length rest.now ≤ most_body }
    ensures ok { IfOk result (λ effects. (n : ℕ) × IsMirroring rest.now n × (effect_values effects ≡ effects_of (mirrored_routes n))) }
    ensures broken { IsErrOf result BodyFault.Broken → (n : ℕ) → IsMirroring rest.now n → ⊥ }
{
    let Some(unread) = read_mirroring(rest) else {
        return Err(BodyFault::Broken);
    };
    let mut effects = EffectList::with_capacity(alloc, 1 + one_if(unread > 0))?;
    add(&mut effects, Effect::Mirrored)?;
    add_unread(&mut effects, unread)?;
    Ok(effects)
}
