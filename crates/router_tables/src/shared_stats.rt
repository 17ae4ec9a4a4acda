ghost use Rattle.std.specs.Prelude.{◌≡◌, ◌++◌, ◌∷◌, [], List, OnOk};
ghost use Rattle.std.specs.Arc.{arc_value};
ghost use Rattle.bmp_specs.specs.PeerUp.{IsUp, Names};
ghost use Rattle.bmp_specs.specs.Values.{EffectValue, statistic};
ghost use Rattle.stats_book.specs.Standing.{StandsForStats};

use crate::owned::own;
use bmp_frames::PeerKey;
use stats_book::StatsBook;
use std::alloc::Global;
use std::sync::Arc;
use wire_io::NoMemory;
use wire_tables::Stat;

// The statistic of a peer that is up (RFC 7854, section 4.8).
pub(crate) fn set_statistic(
    stats: &mut Arc<StatsBook>,
    alloc: Global,
    key: PeerKey,
    stat: Stat,
) -> Result<(), NoMemory>
    ensures { OnOk result ((effects : List EffectValue) → IsUp effects key → StandsForStats (arc_value stats.old) effects
        → StandsForStats (arc_value stats.new) (effects ++ statistic key stat ∷ [])) }
{
    own(stats, alloc)?;
    match Arc::get_mut(stats) {
        Some(book) => book.set(key, stat),
        None => Err(NoMemory),
    }
}

// The peer comes up or goes down, without statistics.
pub(crate) fn forget(
    stats: &mut Arc<StatsBook>,
    alloc: Global,
    key: &PeerKey,
) -> Result<(), NoMemory>
    ensures { OnOk result ((effects : List EffectValue) (effect : EffectValue) → Names key.now effect → StandsForStats (arc_value stats.old) effects
        → StandsForStats (arc_value stats.new) (effects ++ effect ∷ [])) }
{
    own(stats, alloc)?;
    match Arc::get_mut(stats) {
        Some(book) => {
            book.forget(key);
            Ok(())
        }
        None => Err(NoMemory),
    }
}
