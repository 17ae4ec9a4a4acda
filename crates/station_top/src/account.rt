ghost use Rattle.std.specs.Prelude.{◌≡◌, ℕ, ◌∷◌, [], ◌++◌, ◌<◌, ◌≤◌, ◌^◌, List, IfOk, OnOk, length, sum_by};
ghost use Rattle.bmp_specs.specs.Check.{length_of};
ghost use Rattle.bmp_specs.specs.Openings.{nothing_told};
ghost use Rattle.bmp_specs.specs.Values.{EntryValue, opened};
ghost use Rattle.query_eval.specs.Replies.{PutsReply};

use bmp_message::Reads;
use std::alloc::Global;
use wire_io::{Failed, NoMemory, Sink};

/// What a command replies from, once the input was taken.
pub trait Replies {
    /// What a reply is asked for with.
    type Ask;

    /// It tells of these entries.
    ghost tells: { Self → List EntryValue → Type 0 };

    /// The bytes are the reply on these entries, so asked for.
    ghost replies: { Self.Ask → List EntryValue → List ℕ → Type 0 };

    /// It may be asked so.
    ghost may_ask: { Self.Ask → Type 0 };

    /// Writes the reply.
    fn put_reply<O: Sink>(&self, out: &mut O, ask: &Self::Ask) -> Result<(), Failed>
        requires { may_ask ask.now }
        ensures { (entries : List EntryValue) → tells self.now entries → PutsReply O.faults O.told O.aside (replies ask.now entries) out.old result out.new };
}

/// An account of the entries of the input, which takes them one after another.
pub trait Account {
    /// What it wants of each message.
    type Wants: Reads;

    /// What it comes to.
    type Told: Replies + Drop;

    /// It stands for these entries.
    ghost stands: { Self → List EntryValue → Type 0 };

    /// The account of an opening of which nothing is told.
    fn begin(alloc: Global) -> Result<Self, NoMemory>
    where
        Self: Sized,
        ensures { IfOk result (λ account. stands account (opened nothing_told ∷ [])) };

    /// Notes what was made of the next message. Out of memory the account may only be dropped.
    fn note(&mut self, item: <Self::Wants as Reads>::Item) -> Result<(), NoMemory>
        ensures { OnOk result ((entry : EntryValue) → Self.Wants.is_of item entry → (entries : List EntryValue) → stands self.old entries → stands self.new (entries ++ entry ∷ [])) };

    /// What the account comes to. The revision is the number of entries.
    fn ready(self, alloc: Global, revision: u64) -> Result<Self::Told, NoMemory>
    where
        Self: Sized,
        requires { revision ≤ 2 ^ 57 }
        ensures { IfOk result (λ told. (entries : List EntryValue) → stands self entries → revision ≡ length entries → sum_by length_of entries < 2 ^ 64 → Self.Told.tells told entries) };
}
