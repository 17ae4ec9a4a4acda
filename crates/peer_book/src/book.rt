ghost use Rattle.std.specs.Prelude.{◌≡◌, ◌↔◌, [], ◌∷◌, ◌++◌, List, length, IsTrue, IfOk, OnOk, OnErr};
ghost use Rattle.std.specs.Bool.{OnFalse};
ghost use Rattle.std.specs.Arc.{arc_value};
ghost use Rattle.std.specs.Option.{option_map};
ghost use Rattle.bmp_specs.specs.Complete.{IsComplete};
ghost use Rattle.bmp_specs.specs.PeerUp.{IsUp};
ghost use Rattle.bmp_specs.specs.Reply.{told_count};
ghost use Rattle.bmp_specs.specs.Values.{EffectValue, up, down, mark};
ghost use Rattle.peer_book.specs.Marks.{no_marks};
ghost use Rattle.peer_book.specs.Peers.{up_peer, down_peer, is_up_at, info_at, is_complete_at, up_keys, with_peer, with_mark};
ghost use Rattle.peer_book.specs.Standing.{AreUp, StandsForPeers};

use crate::peer::{Peer, PeerState};
use bgp_open::{DownInfo, PeerInfo};
use bmp_frames::PeerKey;
use bmp_specs::{Family, View};
use std::alloc::Global;
use std::collections::BTreeMap;
use std::marker::Model;
use std::sync::Arc;
use wire_io::NoMemory;

/// The peers that a session named, in the order of `PeerKey`.
#[derive(Drop)]
pub struct PeerBook {
    pub(crate) peers: BTreeMap<PeerKey, Peer>,
}

impl Model for PeerBook {
    ghost use Rattle.peer_book.specs.Peers.{Peers};

    ghost Value = { Peers };

    ghost view = { λ b. b.peers.entries };
}

impl PeerBook {
    /// The book with no peer. It takes no memory.
    pub fn new(alloc: Global) -> PeerBook
        ensures empty { result ≡ [] }
        ensures stands { StandsForPeers result [] }
    {
        PeerBook {
            peers: BTreeMap::new(alloc),
        }
    }

    /// Sets a peer up, without marks. Out of memory, the book is as before.
    pub fn up(&mut self, key: PeerKey, info: Arc<PeerInfo>) -> Result<(), NoMemory>
        ensures ok { OnOk result (self.new ≡ with_peer self.old key (up_peer (arc_value info) no_marks)) }
        ensures err { OnErr result (self.new ≡ self.old) }
        ensures stands { OnOk result ((effects : List EffectValue) → StandsForPeers self.old effects
            → StandsForPeers self.new (effects ++ up key (arc_value info) ∷ [])) }
    {
        self.peers.insert(key, Peer::new(PeerState::Up(info)))?;
        Ok(())
    }

    /// Sets a peer down. Out of memory, the book is as before.
    pub fn down(&mut self, key: PeerKey, info: DownInfo) -> Result<(), NoMemory>
        ensures ok { OnOk result (self.new ≡ with_peer self.old key (down_peer info)) }
        ensures err { OnErr result (self.new ≡ self.old) }
        ensures stands { OnOk result ((effects : List EffectValue) → StandsForPeers self.old effects
            → StandsForPeers self.new (effects ++ down key info ∷ [])) }
    {
        self.peers.insert(key, Peer::new(PeerState::Down(info)))?;
        Ok(())
    }

    /// Marks a table of a peer as complete. It answers false, and changes nothing, exactly where the peer
    /// isn't up.
    pub fn mark(&mut self, key: &PeerKey, view: View, family: Family) -> bool
        ensures up { result ≡ is_up_at self.old key.now }
        ensures unchanged { OnFalse result (self.new ≡ self.old) }
        ensures marks { self.new ≡ with_mark self.old key.now view family }
        ensures stands { (effects : List EffectValue) → StandsForPeers self.old effects
            → StandsForPeers self.new (effects ++ mark key.now view family ∷ []) }
    {
        match self.peers.get_mut(key) {
            Some(peer) => peer.mark(view, family),
            None => false,
        }
    }

    /// Whether a peer is up.
    pub fn is_up(&self, key: &PeerKey) -> bool
        ensures up { result ≡ is_up_at self.now key.now }
        ensures stands { (effects : List EffectValue) → StandsForPeers self.now effects → (IsTrue result ↔ IsUp effects key.now) }
    {
        match self.peers.get(key) {
            Some(peer) => peer.is_up(),
            None => false,
        }
    }

    /// What the last Peer Up of a peer told (RFC 7854, section 4.10). None exactly where the peer isn't up.
    pub fn info(&self, key: &PeerKey) -> Option<&PeerInfo>
        ensures { option_map (λ i. i.now) result ≡ info_at self.now key.now }
    {
        match self.peers.get(key) {
            Some(peer) => peer.info(),
            None => None,
        }
    }

    /// Whether a table of a peer is complete: the peer is up, and the mark came since its last Peer Up.
    pub fn is_complete(&self, key: &PeerKey, view: View, family: Family) -> bool
        ensures complete { result ≡ is_complete_at self.now key.now view family }
        ensures stands { (effects : List EffectValue) → StandsForPeers self.now effects
            → (IsTrue result ↔ IsComplete effects key.now view family) }
    {
        match self.peers.get(key) {
            Some(peer) => peer.is_complete(view, family),
            None => false,
        }
    }

    /// How many peers are up, at most 2^64 - 1.
    pub fn count_up(&self) -> u64
        ensures count { result ≡ told_count (length (up_keys self.now)) }
        ensures stands { (effects : List EffectValue) → StandsForPeers self.now effects → AreUp result effects }
    {
        self.peers.values().filter(|peer| peer.is_up()).count() as u64
    }

    /// An equal book.
    pub fn copy(&self) -> Result<PeerBook, NoMemory>
        ensures { IfOk result (λ copy. copy ≡ self.now) }
    {
        Ok(PeerBook {
            peers: self.peers.clone()?,
        })
    }
}
