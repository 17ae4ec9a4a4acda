ghost use Rattle.std.specs.Prelude.{◌≡◌, [], ◌∷◌, ◌++◌, List, IfOk, OnOk, OnErr, slice_get};
ghost use Rattle.std.specs.List.Sorted.{IsStrictlySortedBy};
ghost use Rattle.std.specs.Map.{keys_of};
ghost use Rattle.std.specs.Option.{option_map};
ghost use Rattle.bmp_specs.specs.PeerUp.{IsUp, Names};
ghost use Rattle.bmp_specs.specs.Values.{EffectValue, statistic};
ghost use Rattle.bmp_specs.specs.StatKind.{kind_cmp};
ghost use Rattle.stats_book.specs.Standing.{StandsForStats};
ghost use Rattle.stats_book.specs.Stats.{with_stat, without_peer, stats_at, after_place, kind_and_value};

use crate::peer::PeerStats;
use bmp_frames::PeerKey;
use std::alloc::Global;
use std::collections::BTreeMap;
use std::marker::Model;
use wire_io::NoMemory;
use wire_tables::Stat;

/// The last value of each statistic of each peer.
#[derive(Drop)]
pub struct StatsBook {
    peers: BTreeMap<PeerKey, PeerStats>,
    alloc: Global,
}

impl Model for StatsBook {
    ghost use Rattle.stats_book.specs.Stats.{Stats};

    ghost Value = { Stats };

    ghost view = { λ b. b.peers.entries };
}

impl StatsBook {
    /// The book with no statistic. It takes no memory.
    pub fn new(alloc: Global) -> StatsBook
        ensures empty { result ≡ [] }
        ensures stands { StandsForStats result [] }
    {
        StatsBook {
            peers: BTreeMap::new(alloc),
            alloc,
        }
    }

    /// Sets a peer's statistic, in the place of the one of the same code, AFI and SAFI. Out of
    /// memory, the book is as before.
    pub fn set(&mut self, key: PeerKey, stat: Stat) -> Result<(), NoMemory>
        ensures ok { OnOk result (self.new ≡ with_stat self.old key stat) }
        ensures err { OnErr result (self.new ≡ self.old) }
        // the statistic of a peer that is up
        ensures stands { OnOk result ((effects : List EffectValue) → IsUp effects key → StandsForStats self.old effects
            → StandsForStats self.new (effects ++ statistic key stat ∷ [])) }
    {
        if let Some(stats) = self.peers.get_mut(&key) {
            return stats.set(&stat);
        }
        let mut stats = PeerStats::new(self.alloc);
        stats.set(&stat)?;
        self.peers.insert(key, stats)?;
        Ok(())
    }

    /// Drops a peer's statistics. It takes no memory.
    pub fn forget(&mut self, key: &PeerKey)
        ensures peers { self.new ≡ without_peer self.old key.now }
        // a Peer Up or a Peer Down of the peer
        ensures stands { (effects : List EffectValue) (effect : EffectValue) → Names key.now effect → StandsForStats self.old effects
            → StandsForStats self.new (effects ++ effect ∷ []) }
    {
        self.peers.remove(key);
    }

    /// The peer's first statistic after that of a place's code, AFI and SAFI, or the first of all. The
    /// place's value does not matter. Two searches.
    pub fn after(&self, key: &PeerKey, place: Option<&Stat>) -> Option<Stat>
        ensures first { option_map kind_and_value result ≡ slice_get (after_place place.entry (stats_at self.now key.now)) 0 }
        ensures ordered { IsStrictlySortedBy kind_cmp (keys_of (stats_at self.now key.now)) }
    {
        match self.peers.get(key) {
            Some(stats) => stats.after(place),
            None => None,
        }
    }

    /// An equal book.
    pub fn copy(&self) -> Result<StatsBook, NoMemory>
        ensures { IfOk result (λ copy. copy ≡ self.now) }
    {
        Ok(StatsBook {
            peers: self.peers.clone()?,
            alloc: self.alloc,
        })
    }
}
