ghost use Rattle.std.specs.Prelude.{◌≡◌, ◌≤◌, length, OnOk, OnErr, IsErrOf};
ghost use Rattle.bmp_specs.specs.MessageEffects.{IsMessageEntry};
ghost use Rattle.bmp_specs.specs.Values.{EntryValue};
ghost use Rattle.bmp_message.specs.State.{reading_state};
ghost use Rattle.bmp_message.specs.Effects.{MeansNoEntry};
ghost use Rattle.peer_events.specs.Body.{most_body};

use crate::dispatch::of_type;
use crate::makes::WithoutEffects;
use crate::reading::Reading;
use crate::types::MessageType;
use wire_io::BodyFault;

impl Reading {
    /// Judges the message of this "Message Type" with this body, which follows the common header (RFC 7854,
    /// section 4.1): `Ok` exactly where `entry` gives its entry, out of memory aside, and then the same peers
    /// are up as after that.
    ///
    /// `BodyFault::Broken` only where the body is none of its type while these peers are up. After a refusal
    /// the same peers are up. Of a Route Monitoring message nothing is made, and it takes no memory; a message
    /// of another type costs what its entry does.
    pub fn judge(&mut self, kind: u8, body: &[u8]) -> Result<(), BodyFault>
        requires { length body.now ≤ most_body }
        ensures ok { OnOk result ((entry : EntryValue) × IsMessageEntry (reading_state self.old) kind body.now entry (reading_state self.new)) }
        ensures broken { IsErrOf result BodyFault.Broken → MeansNoEntry (IsMessageEntry (reading_state self.old) kind body.now) }
        ensures unchanged { OnErr result (self.new ≡ self.old) }
        ensures routes { kind ≡ 0 → IsErrOf result BodyFault.NoMemory → ⊥ }
    {
        of_type::<Reading, WithoutEffects>(self, MessageType::of(kind), body)
    }
}
