ghost use Rattle.std.specs.Prelude.{◌≡◌, slice_get};
ghost use Rattle.std.specs.List.Sorted.{IsStrictlySortedBy};
ghost use Rattle.std.specs.Map.{keys_of};
ghost use Rattle.std.specs.Map.Iter.{deref_pair};
ghost use Rattle.std.specs.Option.{option_map};
ghost use Rattle.bmp_specs.specs.Orders.{key_cmp};
ghost use Rattle.peer_book.specs.Peers.{after_place, keyed_state};
ghost use Rattle.peer_book.specs.Line.{line_value};

use crate::book::PeerBook;
use crate::peer::{Peer, PeerState};
use bmp_frames::PeerKey;
use std::ops::Bound;

/// A peer and its state.
#[derive(Clone, Copy)]
pub struct PeerLine<'a> {
    pub key: PeerKey,
    pub state: &'a PeerState,
}

impl PeerBook {
    /// The first peer after a place, or the first of all. One search.
    pub fn after<'a>(&'a self, place: Option<&PeerKey>) -> Option<PeerLine<'a>>
        ensures first { option_map line_value result ≡ option_map keyed_state (slice_get (after_place place.entry self.now) 0) }
        ensures ordered { IsStrictlySortedBy key_cmp (keys_of self.now) }
    {
        match place {
            None => line_of(self.peers.iter().next()),
            Some(place) => line_of(
                self.peers
                    .range((Bound::Excluded(*place), Bound::Unbounded))
                    .next(),
            ),
        }
    }
}

// A pair of the map as a line.
fn line_of<'a>(found: Option<(&'a PeerKey, &'a Peer)>) -> Option<PeerLine<'a>>
    ensures { option_map line_value result ≡ option_map keyed_state (option_map deref_pair found.entry) }
{
    match found {
        Some((key, peer)) => Some(PeerLine {
            key: *key,
            state: peer.state(),
        }),
        None => None,
    }
}
