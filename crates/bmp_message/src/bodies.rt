ghost use Rattle.std.specs.Prelude.{◌≡◌, ◌≤◌, ℕ, length, IfOk, OnOk, OnErr, IsErrOf};
ghost use Rattle.bmp_specs.specs.Meaning.{Meaning};
ghost use Rattle.bmp_specs.specs.Values.{EntryValue};
ghost use Rattle.peer_events.specs.Body.{most_body};
ghost use Rattle.rib_model.specs.Entries.{entry_value};
ghost use Rattle.bmp_message.specs.Effects.{GivesMessages, MeansNoEntry};

use rib_model::Entry;
use std::alloc::Global;
use wire_io::BodyFault;

/// A reading of bodies: what they mean, and what has been read of a stream so far.
pub trait BodyReading {
    /// What bodies mean.
    ghost meaning: { Meaning };

    /// What is known of the stream from its messages so far.
    ghost state: { Self → meaning.State };

    /// To judge a message of this type may take memory.
    ghost judge_wants: { ℕ → Type 0 };

    /// Has read nothing, as at the start of a connection.
    fn new(alloc: Global) -> Self
    where
        Self: Sized,
        ensures { state result ≡ meaning.start };

    /// The entry of the message of this "Message Type" with this body, which follows the common header
    /// (RFC 7854, section 4.1). `BodyFault::Broken` only where it has none. A refusal leaves what was read as it was.
    fn entry(&mut self, kind: u8, body: &[u8]) -> Result<Entry, BodyFault>
        requires { length body.now ≤ most_body }
        ensures ok { IfOk result (λ entry. meaning.Means (state self.old) kind body.now (entry_value entry) (state self.new)) }
        ensures broken { IsErrOf result BodyFault.Broken → MeansNoEntry (meaning.Means (state self.old) kind body.now) }
        ensures unchanged { OnErr result (self.new ≡ self.old) };

    /// Judges the message: `Ok` exactly where `entry` gives its entry, out of memory aside, and then the same is known
    /// as after that. A refusal leaves what was read as it was.
    fn judge(&mut self, kind: u8, body: &[u8]) -> Result<(), BodyFault>
        requires { length body.now ≤ most_body }
        ensures ok { OnOk result ((entry : EntryValue) × meaning.Means (state self.old) kind body.now entry (state self.new)) }
        ensures broken { IsErrOf result BodyFault.Broken → MeansNoEntry (meaning.Means (state self.old) kind body.now) }
        ensures unchanged { OnErr result (self.new ≡ self.old) }
        ensures wants { IsErrOf result BodyFault.NoMemory → judge_wants kind };

    /// An entry has the type and the length of its message.
    ghost gives_messages: { GivesMessages meaning };
}
