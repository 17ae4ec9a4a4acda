ghost use Rattle.std.specs.Prelude.{◌≡◌, [], IfOk, OnOk, OnErr, slice_get};
ghost use Rattle.std.specs.List.Sorted.{IsStrictlySortedBy};
ghost use Rattle.std.specs.Map.{keys_of};
ghost use Rattle.std.specs.Map.Iter.{deref_pair};
ghost use Rattle.std.specs.Option.{option_map};
ghost use Rattle.bmp_specs.specs.StatKind.{kind_cmp};
ghost use Rattle.stats_book.specs.Stats.{with_value, after_place, kind_and_value};

use crate::kind::Kind;
use std::alloc::{AllocError, Global};
use std::collections::BTreeMap;
use std::marker::Model;
use std::ops::Bound;
use wire_io::NoMemory;
use wire_tables::Stat;

// The statistics of one peer.
#[derive(Drop)]
pub(crate) struct PeerStats {
    values: BTreeMap<Kind, u64>,
}

impl Model for PeerStats {
    ghost use Rattle.stats_book.specs.Stats.{PeerStats};

    ghost Value = { PeerStats };

    ghost view = { λ s. s.values.entries };
}

impl PeerStats {
    pub(crate) fn new(alloc: Global) -> PeerStats
        ensures { result ≡ [] }
    {
        PeerStats {
            values: BTreeMap::new(alloc),
        }
    }

    pub(crate) fn set(&mut self, stat: &Stat) -> Result<(), NoMemory>
        ensures ok { OnOk result (self.new ≡ with_value self.old stat.now) }
        ensures err { OnErr result (self.new ≡ self.old) }
    {
        self.values.insert(Kind::of(stat), stat.value)?;
        Ok(())
    }

    pub(crate) fn after(&self, place: Option<&Stat>) -> Option<Stat>
        ensures first { option_map kind_and_value result ≡ slice_get (after_place place.entry self.now) 0 }
        ensures ordered { IsStrictlySortedBy kind_cmp (keys_of self.now) }
    {
        match place {
            None => stat_in(self.values.iter().next()),
            Some(place) => {
                let kind = Kind::of(place);
                stat_in(
                    self.values
                        .range((Bound::Excluded(kind), Bound::Unbounded))
                        .next(),
                )
            }
        }
    }
}

// A pair of the map as a statistic.
fn stat_in(found: Option<(&Kind, &u64)>) -> Option<Stat>
    ensures { option_map kind_and_value result ≡ option_map deref_pair found.entry }
{
    match found {
        Some((kind, value)) => Some(kind.with(*value)),
        None => None,
    }
}

impl Clone for PeerStats {
    ghost is_clone = { λ x y. y ≡ x };

    fn clone(&self) -> Result<PeerStats, AllocError> {
        Ok(PeerStats {
            values: self.values.clone()?,
        })
    }
}
