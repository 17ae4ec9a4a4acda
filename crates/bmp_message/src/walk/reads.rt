ghost use Rattle.std.specs.Prelude.{◌≡◌, ◌≤◌, ⊤, ℕ, length, IfOk, OnErr, IsErrOf};
ghost use Rattle.bmp_specs.specs.Values.{EntryValue};
ghost use Rattle.peer_events.specs.Body.{most_body};
ghost use Rattle.rib_model.specs.Entries.{entry_value};
ghost use Rattle.bmp_message.specs.Effects.{HasTypeAndLength, MeansNoEntry};

use crate::BodyReading;
use crate::head::message_length;
use rib_model::Entry;
use wire_io::BodyFault;

/// What is wanted of a message that was cut.
pub trait Reads {
    /// What is made of it.
    type Item;

    /// It is made of the message with this entry.
    ghost is_of: { Self.Item → EntryValue → Type 0 };

    /// A message of this type may want memory, where to judge one of these types does.
    ghost wants: { (ℕ → Type 0) → ℕ → Type 0 };

    /// Makes it of the message of this type with this body. A refusal leaves the reading as it was.
    fn read<R: BodyReading>(reading: &mut R, kind: u8, body: &[u8]) -> Result<Self::Item, BodyFault>
        requires { length body.now ≤ most_body }
        ensures ok { IfOk result (λ item. (entry : EntryValue) × is_of item entry × R.meaning.Means (R.state reading.old) kind body.now entry (R.state reading.new)) }
        ensures broken { IsErrOf result BodyFault.Broken → MeansNoEntry (R.meaning.Means (R.state reading.old) kind body.now) }
        ensures unchanged { OnErr result (reading.new ≡ reading.old) }
        ensures wants { IsErrOf result BodyFault.NoMemory → wants R.judge_wants kind };
}

/// Entries are wanted.
pub struct Entries;

impl Reads for Entries {
    type Item = Entry;

    ghost is_of = { λ item entry. entry ≡ entry_value item };

    ghost wants = { λ _ _. ⊤ };

    fn read<R: BodyReading>(reading: &mut R, kind: u8, body: &[u8]) -> Result<Entry, BodyFault> {
        reading.entry(kind, body)
    }
}

/// The type and the length alone are wanted, and a judgement. A Route Monitoring message then costs its bytes
/// and takes no memory.
pub struct Judgements;

/// A message that has an entry, with this "Message Type" and this "Message Length" (RFC 7854, section 4.1).
#[derive(Clone, Copy, Debug, PartialEq, Eq)]
pub struct Judged {
    pub kind: u8,
    pub length: u32,
}

impl Reads for Judgements {
    type Item = Judged;

    ghost is_of = { λ item entry. HasTypeAndLength item.kind item.length entry };

    ghost wants = { λ judge_wants kind. judge_wants kind };

    fn read<R: BodyReading>(reading: &mut R, kind: u8, body: &[u8]) -> Result<Judged, BodyFault> {
        match reading.judge(kind, body) {
            Ok(()) => Ok(Judged {
                kind,
                length: message_length(body),
            }),
            Err(fault) => Err(fault),
        }
    }
}
