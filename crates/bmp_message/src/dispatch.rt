ghost use Rattle.std.specs.Prelude.{◌≡◌, ◌≤◌, length, IfOk, OnErr, IsErrOf};
ghost use Rattle.bmp_specs.specs.MessageBody.{peer_down_notification, peer_up_notification, route_monitoring, statistics_report};
ghost use Rattle.bmp_specs.specs.PeerHeader.{HeaderValue};
ghost use Rattle.bmp_message.specs.Effects.{IsMade, ReadsNothing};
ghost use Rattle.bmp_message.specs.PeerMeaning.{MirrorsRoutes, OfTypeBy, PeerMeaning};
ghost use Rattle.bmp_message.specs.Types.{message_type_of, type_in};
ghost use Rattle.peer_events.specs.Body.{most_body};
ghost use Rattle.rib_model.specs.Effects.{effect_values};

use crate::events;
use crate::makes::{Makes, made_of};
use crate::types::{MessageType, PeerMessage};
use bmp_frames::{PeerHeader, PeerKey};
use rib_model::EffectList;
use std::alloc::Global;
use wire_io::BodyFault;

// What a reading does with the messages of one peer. A refusal leaves it as it was.
pub(crate) trait PeerReading {
    // What they mean.
    ghost meaning: { PeerMeaning };

    // What is known of the stream from its messages so far.
    ghost state: { Self → meaning.State };

    // Routes take no memory beside what is made of them.
    ghost spares: { Type 0 };

    fn alloc(&self) -> Global;

    // Route Monitoring (RFC 7854, section 4.6).
    fn routes<M: Makes>(
        &mut self,
        head: &PeerHeader,
        key: &PeerKey,
        rest: &[u8],
    ) -> Result<M::Made, BodyFault>
        ensures ok { IfOk result (λ made. IsMade M.is_of (meaning.Means route_monitoring (state self.old) head.now key.now rest.now) made (state self.new)) }
        ensures broken { IsErrOf result BodyFault.Broken → ReadsNothing (meaning.Means route_monitoring (state self.old) head.now key.now rest.now) }
        ensures unchanged { OnErr result (self.new ≡ self.old) }
        ensures wants { spares → IsErrOf result BodyFault.NoMemory → M.wants };

    // A Statistics Report (RFC 7854, section 4.8).
    fn statistics(&self, key: &PeerKey, rest: &[u8]) -> Result<EffectList, BodyFault>
        requires { length rest.now ≤ most_body }
        ensures ok { (h : HeaderValue) → IfOk result (λ effects. meaning.Means statistics_report (state self.now) h key.now rest.now (effect_values effects) (state self.now)) }
        ensures broken { (h : HeaderValue) → IsErrOf result BodyFault.Broken → ReadsNothing (meaning.Means statistics_report (state self.now) h key.now rest.now) };

    // A Peer Down Notification (RFC 7854, section 4.9), after which the peer isn't up.
    fn peer_down(&mut self, key: &PeerKey, rest: &[u8]) -> Result<EffectList, BodyFault>
        requires { length rest.now ≤ most_body }
        ensures ok { (h : HeaderValue) → IfOk result (λ effects. meaning.Means peer_down_notification (state self.old) h key.now rest.now (effect_values effects) (state self.new)) }
        ensures broken { (h : HeaderValue) → IsErrOf result BodyFault.Broken → ReadsNothing (meaning.Means peer_down_notification (state self.old) h key.now rest.now) }
        ensures unchanged { OnErr result (self.new ≡ self.old) };

    // A Peer Up Notification (RFC 7854, section 4.10), after which the peer is up with its OPENs.
    fn peer_up(
        &mut self,
        head: &PeerHeader,
        key: &PeerKey,
        rest: &[u8],
    ) -> Result<EffectList, BodyFault>
        requires { length rest.now ≤ most_body }
        ensures ok { IfOk result (λ effects. meaning.Means peer_up_notification (state self.old) head.now key.now rest.now (effect_values effects) (state self.new)) }
        ensures broken { IsErrOf result BodyFault.Broken → ReadsNothing (meaning.Means peer_up_notification (state self.old) head.now key.now rest.now) }
        ensures unchanged { OnErr result (self.new ≡ self.old) };

    // Route Mirroring is read the same by each.
    ghost mirrors: { MirrorsRoutes meaning };
}

// A message of a peer, from what follows its Per-Peer Header.
fn of_peer<R: PeerReading, M: Makes>(
    reading: &mut R,
    kind: PeerMessage,
    head: &PeerHeader,
    key: &PeerKey,
    rest: &[u8],
) -> Result<M::Made, BodyFault>
    requires { length rest.now ≤ most_body }
    ensures ok { IfOk result (λ made. IsMade M.is_of (R.meaning.Means (message_type_of kind) (R.state reading.old) head.now key.now rest.now) made (R.state reading.new)) }
    ensures broken { IsErrOf result BodyFault.Broken → ReadsNothing (R.meaning.Means (message_type_of kind) (R.state reading.old) head.now key.now rest.now) }
    ensures unchanged { OnErr result (reading.new ≡ reading.old) }
    ensures wants { R.spares → message_type_of kind ≡ route_monitoring → IsErrOf result BodyFault.NoMemory → M.wants }
{
    match kind {
        PeerMessage::RouteMonitoring => reading.routes::<M>(head, key, rest),
        PeerMessage::StatisticsReport => made_of::<M>(reading.statistics(key, rest)),
        PeerMessage::PeerDown => made_of::<M>(reading.peer_down(key, rest)),
        PeerMessage::PeerUp => made_of::<M>(reading.peer_up(head, key, rest)),
        PeerMessage::RouteMirroring => made_of::<M>(events::mirroring(reading.alloc(), rest)),
    }
}

// Makes it of a message of this type, by what the reading does with those of a peer, whose Per-Peer Header stands first
// (RFC 7854, section 4.2). Of a peer type that isn't known nothing else is read.
pub(crate) fn of_type<R: PeerReading, M: Makes>(
    reading: &mut R,
    kind: MessageType,
    body: &[u8],
) -> Result<M::Made, BodyFault>
    requires { length body.now ≤ most_body }
    ensures ok { IfOk result (λ made. IsMade M.is_of (OfTypeBy R.meaning kind (R.state reading.old) body.now) made (R.state reading.new)) }
    ensures broken { IsErrOf result BodyFault.Broken → ReadsNothing (OfTypeBy R.meaning kind (R.state reading.old) body.now) }
    ensures unchanged { OnErr result (reading.new ≡ reading.old) }
    ensures wants { R.spares → type_in kind ≡ route_monitoring → IsErrOf result BodyFault.NoMemory → M.wants }
{
    match kind {
        MessageType::OfPeer(kind) => {
            let Some((front, rest)) = body.split_first_chunk() else {
                return Err(BodyFault::Broken);
            };
            let head = PeerHeader::read(front);
            match head.key() {
                Some(key) => of_peer::<R, M>(reading, kind, &head, &key, rest),
                None => M::passed(reading.alloc()),
            }
        }
        MessageType::Initiation => made_of::<M>(events::initiation(reading.alloc(), body)),
        MessageType::Termination => made_of::<M>(events::termination(reading.alloc(), body)),
        MessageType::Unknown => M::passed(reading.alloc()),
    }
}
