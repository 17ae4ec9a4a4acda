ghost use Rattle.std.specs.Prelude.{◌≡◌, IfOk};
ghost use Rattle.std.specs.Option.{option_map};
ghost use Rattle.peer_book.specs.Marks.{no_marks};
ghost use Rattle.peer_book.specs.Peers.{peer_value, state_value, state_of, is_up_peer, info_of, is_complete_peer, marked_peer};

use crate::marks::Marks;
use bgp_open::{DownInfo, PeerInfo};
use bmp_specs::{Family, View};
use std::alloc::AllocError;
use std::marker::Model;
use std::sync::Arc;

/// Whether a peer is up, and what it told last.
#[derive(Drop)]
pub enum PeerState {
    /// What its last Peer Up told (RFC 7854, section 4.10).
    Up(Arc<PeerInfo>),

    /// What its last Peer Down told (RFC 7854, section 4.9).
    Down(DownInfo),
}

// A peer of the book. The marks of one that is down say nothing.
#[derive(Drop)]
pub(crate) struct Peer {
    state: PeerState,
    marks: Marks,
}

impl Model for Peer {
    ghost use Rattle.peer_book.specs.Peers.{PeerValue, peer_value};

    ghost Value = { PeerValue };

    ghost view = { λ p. peer_value p.state p.marks };
}

impl Peer {
    pub(crate) fn new(state: PeerState) -> Peer
        ensures { result ≡ peer_value state no_marks }
    {
        Peer {
            state,
            marks: Marks::none(),
        }
    }

    pub(crate) fn state(&self) -> &PeerState
        ensures { state_value result.now ≡ state_of self.now }
    {
        &self.state
    }

    pub(crate) fn is_up(&self) -> bool
        ensures { result ≡ is_up_peer self.now }
    {
        match &self.state {
            PeerState::Up(_) => true,
            PeerState::Down(_) => false,
        }
    }

    // What its last Peer Up told, where it is up.
    pub(crate) fn info(&self) -> Option<&PeerInfo>
        ensures { option_map (λ i. i.now) result ≡ info_of self.now }
    {
        match &self.state {
            PeerState::Up(info) => Some(info),
            PeerState::Down(_) => None,
        }
    }

    pub(crate) fn is_complete(&self, view: View, family: Family) -> bool
        ensures { result ≡ is_complete_peer self.now view family }
    {
        match &self.state {
            PeerState::Up(_) => self.marks.has(view, family),
            PeerState::Down(_) => false,
        }
    }

    // Sets a mark, and tells whether the peer is up.
    pub(crate) fn mark(&mut self, view: View, family: Family) -> bool
        ensures up { result ≡ is_up_peer self.old }
        ensures marks { self.new ≡ marked_peer self.old view family }
    {
        let is_up = self.is_up();
        if is_up {
            self.marks = self.marks.with(view, family);
        }
        is_up
    }
}

// An equal state.
fn copy_of(state: &PeerState) -> Result<PeerState, AllocError>
    ensures { IfOk result (λ copy. (marks : _) → peer_value copy marks ≡ peer_value state.now marks) }
{
    match state {
        PeerState::Up(info) => Ok(PeerState::Up(Arc::try_clone(info)?)),
        PeerState::Down(info) => Ok(PeerState::Down(*info)),
    }
}

impl Clone for Peer {
    ghost is_clone = { λ x y. y ≡ x };

    fn clone(&self) -> Result<Peer, AllocError> {
        Ok(Peer {
            state: copy_of(&self.state)?,
            marks: self.marks,
        })
    }
}
