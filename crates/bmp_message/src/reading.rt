ghost use Rattle.std.specs.Prelude.{◌≡◌, ◌≤◌, length, is_some, IfOk, OnErr, IsErrOf};
ghost use Rattle.std.specs.List.{All};
ghost use Rattle.bmp_specs.specs.MessageBody.{no_peers};
ghost use Rattle.bmp_specs.specs.MessageEffects.{HasViewOfKey, IsMessageEntry};
ghost use Rattle.bmp_specs.specs.Session.{effects_in};
ghost use Rattle.bmp_message.specs.State.{reading_state};
ghost use Rattle.bmp_message.specs.Effects.{MeansNoEntry};
ghost use Rattle.peer_events.specs.Body.{most_body};
ghost use Rattle.rib_model.specs.Entries.{entry_value};

mod judge;

use crate::dispatch::{PeerReading, of_type};
use crate::head::head_of;
use crate::makes::{Makes, WithEffects};
use crate::types::MessageType;
use crate::{BodyReading, events};
use bgp_open::PeerInfo;
use bgp_update::UpdateReader;
use bmp_frames::{PeerHeader, PeerKey};
use peer_events::read_peer_up;
use rib_model::{EffectList, Entry};
use std::alloc::Global;
use std::collections::BTreeMap;
use std::marker::Model;
use std::sync::Arc;
use wire_io::BodyFault;

/// What has been read of a stream so far: which peers are up, and what their Peer Ups told.
///
/// A contract sees the peers that are up with their OPEN messages, in the order of keys, and as a reading
/// state by `reading_state`. `Effect::Up` shares what is kept here; no OPEN is copied.
#[derive(Drop)]
pub struct Reading {
    peers: BTreeMap<PeerKey, Arc<PeerInfo>>,
    reader: UpdateReader,
    alloc: Global,
}

impl Model for Reading {
    ghost use Rattle.bmp_message.specs.State.{UpPeers, up_peers};

    ghost Value = { UpPeers };

    ghost view = { λ r. up_peers r.peers.entries };
}

impl Reading {
    /// Knows no peer, as at the start of a connection.
    pub fn new(alloc: Global) -> Reading
        ensures { reading_state result ≡ no_peers }
    {
        Reading {
            peers: BTreeMap::new(alloc),
            reader: UpdateReader::new(alloc),
            alloc,
        }
    }

    /// Whether the last Peer Up or Peer Down of the key was a Peer Up.
    pub fn is_up(&self, key: &PeerKey) -> bool
        ensures { result ≡ is_some (reading_state self.now key.now) }
    {
        self.peers.contains_key(key)
    }

    /// The entry of the message of this "Message Type" with this body, which follows the common header
    /// (RFC 7854, section 4.1): its type, its whole length and its effects in order, each on a RIB that
    /// its peer has (RFC 8671; RFC 9069).
    ///
    /// `BodyFault::Broken` only where the body is none of its type while these peers are up. After a
    /// refusal the same peers are up. Time and memory are linear in the body and the effects. Nothing
    /// after the Per-Peer Header is read of a peer type that isn't known, nor of routes and statistics of
    /// a peer that isn't up; of a type that isn't known nothing is read.
    pub fn entry(&mut self, kind: u8, body: &[u8]) -> Result<Entry, BodyFault>
        requires { length body.now ≤ most_body }
        ensures ok { IfOk result (λ entry. IsMessageEntry (reading_state self.old) kind body.now (entry_value entry) (reading_state self.new)) }
        ensures broken { IsErrOf result BodyFault.Broken → MeansNoEntry (IsMessageEntry (reading_state self.old) kind body.now) }
        ensures unchanged { OnErr result (self.new ≡ self.old) }
        ensures views { IfOk result (λ entry. All HasViewOfKey (effects_in (entry_value entry))) }
    {
        BodyReading::entry(self, kind, body)
    }
}

// By the RFCs alone.
impl PeerReading for Reading {
    ghost use Rattle.std.specs.Prelude.{⊤, refl};
    ghost use Rattle.std.proofs.Common.{ap, ◌∙◌};
    ghost use Rattle.bmp_specs.specs.MessageEffects.{effects_of};
    ghost use Rattle.bmp_specs.specs.Values.{mirrored_routes};
    ghost use Rattle.bmp_message.specs.PeerMeaning.{strict_peers};

    ghost meaning = { strict_peers };

    ghost state = { reading_state };

    ghost spares = { ⊤ };

    ghost mirrors = { λ state next h key rest effects. (
      λ p. ((p.means.0, p.means.1, p.effects_are ∙ ap effects_of p.means.2), p.means.3),
      λ q. record { value = mirrored_routes q.0.0; means = (q.0.0, q.0.1, refl, q.1); effects_are = q.0.2 },
    ) };

    fn alloc(&self) -> Global {
        self.alloc
    }

    // Where the peer isn't up nothing of it is read.
    fn routes<M: Makes>(
        &mut self,
        head: &PeerHeader,
        key: &PeerKey,
        rest: &[u8],
    ) -> Result<M::Made, BodyFault> {
        match self.peers.get(key) {
            Some(peer) => M::routes(self.alloc, &mut self.reader, peer, head, key, rest),
            None => M::orphan(self.alloc),
        }
    }

    // Where the peer isn't up nothing of it is read.
    fn statistics(&self, key: &PeerKey, rest: &[u8]) -> Result<EffectList, BodyFault> {
        if !self.is_up(key) {
            return WithEffects::orphan(self.alloc);
        }
        events::statistics(self.alloc, key, rest)
    }

    fn peer_down(&mut self, key: &PeerKey, rest: &[u8]) -> Result<EffectList, BodyFault> {
        let effects = events::peer_down(self.alloc, key, rest)?;
        self.peers.remove(key);
        Ok(effects)
    }

    fn peer_up(
        &mut self,
        head: &PeerHeader,
        key: &PeerKey,
        rest: &[u8],
    ) -> Result<EffectList, BodyFault> {
        let up = read_peer_up(self.alloc, head, rest)?;
        let info = Arc::new(self.alloc, up.info)?;
        let effects = events::peer_up(self.alloc, key, &info, up.unread)?;
        self.peers.insert(*key, info)?;
        Ok(effects)
    }
}

/// The meaning by the RFCs alone.
impl BodyReading for Reading {
    ghost use Rattle.std.specs.Prelude.{◌≢◌};
    ghost use Rattle.bmp_specs.specs.MessageEffects.{effects_of, strict};

    ghost meaning = { strict };

    ghost state = { reading_state };

    ghost judge_wants = { λ kind. kind ≢ 0 };

    ghost gives_messages = { λ _ _ _ _ _ means. record {
      head = means.head;
      effects = effects_of means.value;
      kind_is = means.is_head.kind_is;
      size_is = means.is_head.size_is;
      entry_is = means.entry_is;
    } };

    #[inline]
    fn new(alloc: Global) -> Reading {
        Reading::new(alloc)
    }

    fn entry(&mut self, kind: u8, body: &[u8]) -> Result<Entry, BodyFault> {
        let effects = of_type::<Reading, WithEffects>(self, MessageType::of(kind), body)?;
        let head = head_of(kind, body, &effects);
        Ok(Entry::Message { head, effects })
    }

    #[inline]
    fn judge(&mut self, kind: u8, body: &[u8]) -> Result<(), BodyFault> {
        self.judge(kind, body)
    }
}
