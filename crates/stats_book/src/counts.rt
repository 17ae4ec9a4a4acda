ghost use Rattle.std.specs.Prelude.{◌≡◌, [], ◌∷◌, ◌++◌, List};
ghost use Rattle.bmp_specs.specs.Counts.{counts_of};
ghost use Rattle.bmp_specs.specs.Session.{live, state_of};
ghost use Rattle.bmp_specs.specs.Sums.{no_counts, sum_of, message_counts};
ghost use Rattle.bmp_specs.specs.Values.{EffectValue, EntryValue, HeadValue, message};

use std::marker::Model;

/// What a session counts: its messages, their bytes, and the parts of them that fill no table. Each
/// count ends at 2^64 - 1.
#[derive(Clone, Copy, Debug, PartialEq, Eq)]
pub struct Counts {
    /// The messages.
    pub messages: u64,

    /// The sum of the lengths of the messages.
    pub bytes: u64,

    /// The messages of a peer that isn't up.
    pub orphans: u64,

    /// The parts of messages that were passed over.
    pub unread: u64,

    /// The Route Mirroring messages.
    pub mirrored: u64,

    /// The messages of unknown types.
    pub passed: u64,
}

impl Model for Counts {
    ghost use Rattle.bmp_specs.specs.Counts.{CountsValue};

    ghost Value = { CountsValue };

    ghost view = { λ c. record { messages = c.messages; bytes = c.bytes; orphans = c.orphans; unread = c.unread; mirrored = c.mirrored; passed = c.passed } };

    ghost inverse = { λ v. record { messages = v.messages; bytes = v.bytes; orphans = v.orphans; unread = v.unread; mirrored = v.mirrored; passed = v.passed } };
}

impl Counts {
    /// The counts of a session without messages.
    pub fn none() -> Counts
        ensures { result ≡ no_counts }
    {
        Counts {
            messages: 0,
            bytes: 0,
            orphans: 0,
            unread: 0,
            mirrored: 0,
            passed: 0,
        }
    }

    /// Adds what others counted.
    pub fn add(&mut self, more: &Counts)
        ensures sums { self.new ≡ sum_of self.old more.now }
        // one more message of a session
        ensures stands { (entries : List EntryValue) (head : HeadValue) (effects : List EffectValue) → state_of entries ≡ live
            → self.old ≡ counts_of entries → more.now ≡ message_counts head.size effects
            → self.new ≡ counts_of (entries ++ message head effects ∷ []) }
    {
        self.messages = self.messages.saturating_add(more.messages);
        self.bytes = self.bytes.saturating_add(more.bytes);
        self.orphans = self.orphans.saturating_add(more.orphans);
        self.unread = self.unread.saturating_add(more.unread);
        self.mirrored = self.mirrored.saturating_add(more.mirrored);
        self.passed = self.passed.saturating_add(more.passed);
    }
}
