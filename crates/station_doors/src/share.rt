ghost use Rattle.std.specs.Prelude.{◌≡◌, ◌<◌, ◌≤◌, ◌+◌, MatchBool};
ghost use Rattle.station_doors.specs.Doors.{one_more};

/// How many lines on its peers one place has in a second, at most.
pub(crate) const MOST_A_SECOND: u32 = 64;

// What one place has said on its peers in the present second, and what it hasn't said.
#[derive(Drop)]
pub(crate) struct Share {
    pub(crate) said: u32,
    pub(crate) unsaid: u64,
    ghost bound: { said ≤ 64 },
}

impl Share {
    // Nothing was to be said.
    pub(crate) fn new() -> Share
        ensures { (result.said ≡ 0) × (result.unsaid ≡ 0) }
    {
        Share { said: 0, unsaid: 0 }
    }

    // Whether one more line is said: up to 64 are. A further one is counted.
    pub(crate) fn takes(&mut self) -> bool
        ensures { MatchBool result
            ((self.old.said < 64) × (self.new.said ≡ self.old.said + 1) × (self.new.unsaid ≡ self.old.unsaid))
            ((self.old.said ≡ 64) × (self.new.said ≡ 64) × (self.new.unsaid ≡ one_more self.old.unsaid)) }
    {
        if self.said < MOST_A_SECOND {
            self.said += 1;
            true
        } else {
            self.unsaid = self.unsaid.saturating_add(1);
            false
        }
    }

    // The next second begins.
    pub(crate) fn begin(&mut self)
        ensures { (self.new.said ≡ 0) × (self.new.unsaid ≡ self.old.unsaid) }
    {
        self.said = 0;
    }

    // How many lines weren't said; they are told now.
    pub(crate) fn take_unsaid(&mut self) -> u64
        ensures told { result ≡ self.old.unsaid }
        ensures none { (self.new.unsaid ≡ 0) × (self.new.said ≡ self.old.said) }
    {
        let count = self.unsaid;
        self.unsaid = 0;
        count
    }
}
