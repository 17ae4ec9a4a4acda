ghost use Rattle.std.specs.Prelude.{◌≡◌, ◌≤◌, ◌==◌, ◌&&◌, not, length, is_some, None, Some, IfOk, OnErr, IsErrOf};
ghost use Rattle.std.specs.List.{All};
ghost use Rattle.bmp_specs.specs.LenientBody.{IsLenientEntry, OfPeerLeniently};
ghost use Rattle.bmp_specs.specs.LenientState.{nothing_known, with_shown};
ghost use Rattle.bmp_specs.specs.MessageBody.{route_monitoring};
ghost use Rattle.bmp_specs.specs.MessageEffects.{HasViewOfKey};
ghost use Rattle.bmp_specs.specs.PeerHeader.{loc_rib};
ghost use Rattle.bmp_specs.specs.Session.{effects_in};
ghost use Rattle.bmp_specs.specs.Values.{OpensValue};
ghost use Rattle.bmp_message.specs.Effects.{IsMade, MeansNoEntry, ReadsNothing};
ghost use Rattle.bmp_message.specs.Lenient.{known_at, lenient_state};
ghost use Rattle.peer_events.specs.Body.{most_body};
ghost use Rattle.rib_model.specs.Entries.{entry_value};

mod bodies;
mod implied;
mod judge;
mod known;

use crate::dispatch::PeerReading;
use crate::forms::Forms;
use crate::makes::{Makes, WithEffects};
use crate::{BodyReading, events};
use bgp_update::UpdateReader;
use bmp_frames::{LOC_RIB, PeerHeader, PeerKey, View};
use implied::implied_info;
use known::{UpPeer, show_in};
use peer_events::read_peer_up;
use rib_model::{EffectList, Entry};
use std::alloc::Global;
use std::collections::BTreeMap;
use std::marker::Model;
use std::sync::Arc;
use wire_io::BodyFault;

/// What has been read of a stream so far where messages are read as routers send them: the peers that are up, of which
/// Loc-RIBs a Peer Up or a Peer Down told, and in which forms the last UPDATE message of each peer and view was.
///
/// Beside what `Reading` reads it reads prefixes without path identifiers though they were agreed on (RFC 7911, section
/// 3), AS numbers of two octets though the header says four (RFC 7854, section 4.2), and a Loc-RIB of which no Peer Up
/// told (RFC 9069, section 5.2); and it withdraws the routes of an UPDATE message whose attributes are malformed (RFC
/// 7606, section 2). A contract sees what is known of each peer, in the order of keys, and as a state by
/// `lenient_state`. `Effect::Up` shares what is kept here; no OPEN is copied.
#[derive(Drop)]
pub struct LenientReading {
    peers: BTreeMap<PeerKey, Option<UpPeer>>,
    reader: UpdateReader,
    alloc: Global,
}

impl Model for LenientReading {
    ghost use Rattle.bmp_message.specs.Lenient.{KnownPeers};

    ghost Value = { KnownPeers };

    ghost view = { λ r. r.peers.entries };
}

// Whether the key is that of a Loc-RIB Instance Peer (RFC 9069, section 4.1).
fn is_loc_rib(key: &PeerKey) -> bool
    ensures { result ≡ (key.now.kind == loc_rib) }
{
    key.kind == LOC_RIB
}

// Whether the peer that is up is a Loc-RIB of which no Peer Up told.
fn is_untold(key: &PeerKey, peer: &UpPeer) -> bool
    ensures { result ≡ (not peer.now.told && key.now.kind == loc_rib) }
{
    !peer.told() && is_loc_rib(key)
}

impl LenientReading {
    /// Knows no peer, as at the start of a connection.
    pub fn new(alloc: Global) -> LenientReading
        ensures { lenient_state result ≡ nothing_known }
    {
        LenientReading {
            peers: BTreeMap::new(alloc),
            reader: UpdateReader::new(alloc),
            alloc,
        }
    }

    /// Whether the peer is up: the last Peer Up or Peer Down of the key was a Peer Up; or the key is that of a Loc-RIB
    /// of which none told, and routes of it were read.
    pub fn is_up(&self, key: &PeerKey) -> bool
        ensures { result ≡ is_some ((lenient_state self.now).opens key.now) }
    {
        match self.peers.get(key) {
            Some(peer) => peer.is_some(),
            None => false,
        }
    }

    // An UPDATE message of a peer that is up was read in these forms.
    fn show(&mut self, key: &PeerKey, view: View, taken: &Forms)
        ensures { (opens : OpensValue) → (lenient_state self.old).opens key.now ≡ Some opens → lenient_state self.new ≡ with_shown (lenient_state self.old) key.now view opens taken.now }
    {
        match self.peers.get_mut(key) {
            Some(peer) => show_in(peer, view, taken),
            None => (),
        }
    }

    // Route Monitoring (RFC 7854, section 4.6) of a peer of which nothing is known. Where it is a Loc-RIB its routes
    // imply that it is up; what can't be read, and what is of another peer, is an orphan.
    fn first_routes<M: Makes>(
        &mut self,
        head: &PeerHeader,
        key: &PeerKey,
        rest: &[u8],
    ) -> Result<M::Made, BodyFault>
        requires { known_at self.old key.now ≡ None }
        ensures ok { IfOk result (λ made. IsMade M.is_of (OfPeerLeniently route_monitoring (lenient_state self.old) head.now key.now rest.now) made (lenient_state self.new)) }
        ensures broken { IsErrOf result BodyFault.Broken → ReadsNothing (OfPeerLeniently route_monitoring (lenient_state self.old) head.now key.now rest.now) }
        ensures unchanged { OnErr result (self.new ≡ self.old) }
    {
        if !is_loc_rib(key) {
            return M::orphan(self.alloc);
        }
        let info = Arc::new(self.alloc, implied_info(self.alloc, head))?;
        let last = Forms::as_agreed();
        match M::in_forms(
            self.alloc,
            &mut self.reader,
            &info,
            true,
            head,
            key,
            rest,
            &last,
        ) {
            Ok((made, taken)) => {
                let mut peer = UpPeer::new(info, false);
                peer.show(head.view(), &taken);
                self.peers.insert(*key, Some(peer))?;
                Ok(made)
            }
            Err(BodyFault::Broken) => M::orphan(self.alloc),
            Err(BodyFault::NoMemory) => Err(BodyFault::NoMemory),
        }
    }

    /// The entry of the message of this "Message Type" with this body, which follows the common header (RFC 7854,
    /// section 4.1), where messages are read as routers send them: its type, its whole length and its effects in
    /// order, each on a RIB that its peer has (RFC 8671; RFC 9069).
    ///
    /// `BodyFault::Broken` only where the body has no such entry after the messages before it. A refusal leaves the
    /// reading as it was. A Route Monitoring message that has a value in the forms of the last one of its peer and view
    /// is read once, unless AS numbers of two octets were read there where the header says four. Of any other one at
    /// most two forms of each family's prefixes and of the attributes are judged where they stand, before it is made.
    /// Time and memory are linear in the body and the effects.
    pub fn entry(&mut self, kind: u8, body: &[u8]) -> Result<Entry, BodyFault>
        requires { length body.now ≤ most_body }
        ensures ok { IfOk result (λ entry. IsLenientEntry (lenient_state self.old) kind body.now (entry_value entry) (lenient_state self.new)) }
        ensures broken { IsErrOf result BodyFault.Broken → MeansNoEntry (IsLenientEntry (lenient_state self.old) kind body.now) }
        ensures unchanged { OnErr result (self.new ≡ self.old) }
        ensures views { IfOk result (λ entry. All HasViewOfKey (effects_in (entry_value entry))) }
    {
        BodyReading::entry(self, kind, body)
    }
}

// As routers send them.
impl PeerReading for LenientReading {
    ghost use Rattle.bmp_message.specs.PeerMeaning.{lenient_peers};

    ghost meaning = { lenient_peers };

    ghost state = { lenient_state };

    ghost spares = { ⊥ };

    ghost mirrors = { λ state next h key rest effects. (
      λ p. ((p.0, p.1, p.2), p.3),
      λ q. (q.0.0, q.0.1, q.0.2, q.1),
    ) };

    fn alloc(&self) -> Global {
        self.alloc
    }

    // Of a peer that is down nothing is read.
    fn routes<M: Makes>(
        &mut self,
        head: &PeerHeader,
        key: &PeerKey,
        rest: &[u8],
    ) -> Result<M::Made, BodyFault> {
        let Some(known) = self.peers.get(key) else {
            return self.first_routes::<M>(head, key, rest);
        };
        let Some(peer) = known else {
            return M::orphan(self.alloc);
        };
        let view = head.view();
        let last = peer.shown(view);
        match M::in_forms(
            self.alloc,
            &mut self.reader,
            peer.info(),
            false,
            head,
            key,
            rest,
            &last,
        ) {
            Ok((made, taken)) => {
                self.show(key, view, &taken);
                Ok(made)
            }
            Err(BodyFault::Broken) => {
                if is_untold(key, peer) {
                    return M::orphan(self.alloc);
                }
                Err(BodyFault::Broken)
            }
            Err(BodyFault::NoMemory) => Err(BodyFault::NoMemory),
        }
    }

    // Of a peer that isn't up nothing is read, and what is none of a Loc-RIB that no Peer Up told of is an orphan.
    fn statistics(&self, key: &PeerKey, rest: &[u8]) -> Result<EffectList, BodyFault> {
        let Some(known) = self.peers.get(key) else {
            return WithEffects::orphan(self.alloc);
        };
        let Some(peer) = known else {
            return WithEffects::orphan(self.alloc);
        };
        match events::statistics(self.alloc, key, rest) {
            Ok(effects) => Ok(effects),
            Err(BodyFault::Broken) => {
                if is_untold(key, peer) {
                    return WithEffects::orphan(self.alloc);
                }
                Err(BodyFault::Broken)
            }
            Err(BodyFault::NoMemory) => Err(BodyFault::NoMemory),
        }
    }

    // That a Loc-RIB went down is kept.
    fn peer_down(&mut self, key: &PeerKey, rest: &[u8]) -> Result<EffectList, BodyFault> {
        let effects = events::peer_down(self.alloc, key, rest)?;
        if !is_loc_rib(key) {
            self.peers.remove(key);
            return Ok(effects);
        }
        self.peers.insert(*key, None)?;
        Ok(effects)
    }

    fn peer_up(
        &mut self,
        head: &PeerHeader,
        key: &PeerKey,
        rest: &[u8],
    ) -> Result<EffectList, BodyFault> {
        let up = read_peer_up(self.alloc, head, rest)?;
        let info = Arc::new(self.alloc, up.info)?;
        let effects = events::peer_up(self.alloc, key, &info, up.unread)?;
        let peer = UpPeer::new(info, is_loc_rib(key));
        self.peers.insert(*key, Some(peer))?;
        Ok(effects)
    }
}
