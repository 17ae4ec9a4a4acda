ghost use Rattle.std.specs.Prelude.{◌≡◌, ◌++◌, ◌∷◌, [], List, OnOk};
ghost use Rattle.std.specs.Arc.{arc_value};
ghost use Rattle.bmp_specs.specs.Values.{EffectValue, up, down, mark};
ghost use Rattle.peer_book.specs.Standing.{StandsForPeers};

use crate::owned::own;
use bgp_open::{DownInfo, PeerInfo};
use bmp_frames::PeerKey;
use bmp_specs::{Family, View};
use peer_book::PeerBook;
use std::alloc::Global;
use std::sync::Arc;
use wire_io::NoMemory;

// The peer comes up (RFC 7854, section 4.10).
pub(crate) fn bring_up(
    peers: &mut Arc<PeerBook>,
    alloc: Global,
    key: PeerKey,
    info: &Arc<PeerInfo>,
) -> Result<(), NoMemory>
    ensures { OnOk result ((effects : List EffectValue) → StandsForPeers (arc_value peers.old) effects → StandsForPeers (arc_value peers.new) (effects ++ up key (arc_value info.now) ∷ [])) }
{
    let info = Arc::try_clone(info)?;
    own(peers, alloc)?;
    match Arc::get_mut(peers) {
        Some(book) => book.up(key, info),
        None => Err(NoMemory),
    }
}

// The peer goes down (RFC 7854, section 4.9).
pub(crate) fn take_down(
    peers: &mut Arc<PeerBook>,
    alloc: Global,
    key: PeerKey,
    info: DownInfo,
) -> Result<(), NoMemory>
    ensures { OnOk result ((effects : List EffectValue) → StandsForPeers (arc_value peers.old) effects → StandsForPeers (arc_value peers.new) (effects ++ down key info ∷ [])) }
{
    own(peers, alloc)?;
    match Arc::get_mut(peers) {
        Some(book) => book.down(key, info),
        None => Err(NoMemory),
    }
}

// The peer's table is complete (RFC 4724, section 2), where the peer is up.
pub(crate) fn set_mark(
    peers: &mut Arc<PeerBook>,
    alloc: Global,
    key: &PeerKey,
    view: View,
    family: Family,
) -> Result<(), NoMemory>
    ensures { OnOk result ((effects : List EffectValue) → StandsForPeers (arc_value peers.old) effects → StandsForPeers (arc_value peers.new) (effects ++ mark key.now view family ∷ [])) }
{
    own(peers, alloc)?;
    match Arc::get_mut(peers) {
        Some(book) => {
            book.mark(key, view, family);
            Ok(())
        }
        None => Err(NoMemory),
    }
}
