ghost use Rattle.std.specs.Prelude.{◌≡◌, ◌≤◌, length, OnOk, OnErr, IsErrOf};
ghost use Rattle.bmp_specs.specs.LenientBody.{IsLenientEntry};
ghost use Rattle.bmp_specs.specs.Values.{EntryValue};
ghost use Rattle.bmp_message.specs.Effects.{MeansNoEntry};
ghost use Rattle.bmp_message.specs.Lenient.{lenient_state};
ghost use Rattle.peer_events.specs.Body.{most_body};

use crate::dispatch::of_type;
use crate::lenient::LenientReading;
use crate::makes::WithoutEffects;
use crate::types::MessageType;
use wire_io::BodyFault;

impl LenientReading {
    /// Judges the message of this "Message Type" with this body, which follows the common header (RFC 7854, section
    /// 4.1): `Ok` exactly where `entry` gives its entry, out of memory aside, and then the reading is as after that.
    ///
    /// `BodyFault::Broken` only where the body has no such entry after the messages before it. A refusal leaves the
    /// reading as it was. Of a Route Monitoring message nothing is made, and it takes no memory but for the first
    /// routes of a Loc-RIB of which no Peer Up told.
    pub fn judge(&mut self, kind: u8, body: &[u8]) -> Result<(), BodyFault>
        requires { length body.now ≤ most_body }
        ensures ok { OnOk result ((entry : EntryValue) × IsLenientEntry (lenient_state self.old) kind body.now entry (lenient_state self.new)) }
        ensures broken { IsErrOf result BodyFault.Broken → MeansNoEntry (IsLenientEntry (lenient_state self.old) kind body.now) }
        ensures unchanged { OnErr result (self.new ≡ self.old) }
    {
        of_type::<LenientReading, WithoutEffects>(self, MessageType::of(kind), body)
    }
}
