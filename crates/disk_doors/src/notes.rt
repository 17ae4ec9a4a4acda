//! A list of calls that only contracts read. It takes no memory.
ghost use Rattle.std.specs.Prelude.{◌≡◌, List, [], ◌∷◌};
ghost use Rattle.std.specs.Borrow.{ftrue};
ghost use Rattle.disk_doors.specs.Note.{Event, event_of};

use std::marker::{Model, PhantomData};

/// The calls that were noted so far, the last first. They are a ghost field: a list that grows has no place in a
/// `Snapshot`, and as data it would take memory for each call.
#[derive(Drop)]
pub struct Notes {
    marker: PhantomData<u8>,
    pub ghost events: { List Event },
}

impl Model for Notes {
    ghost also_owns = { λ _. ftrue };
}

impl Notes {
    /// No call was noted.
    pub fn new() -> Notes
        ensures { result.events ≡ [] }
    {
        Notes {
            marker: PhantomData,
        }
    }

    /// Notes one more: what was called and a place, by these numbers, and bytes. What each number means says who notes.
    pub fn note(&mut self, _numbers: &[u64], _bytes: &[u8])
        ensures { self.new.events ≡ event_of _numbers.now _bytes.now ∷ self.old.events }
    {}
}
