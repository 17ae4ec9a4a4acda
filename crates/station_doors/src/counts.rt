ghost use Rattle.std.specs.Prelude.{◌≡◌, false, ℕ, ◌-◌, List, None, Some, Ok, Err, IfOk};
ghost use Rattle.station_doors.specs.Doors.{Opens, Reads, Closes, noted_writes};
ghost use Rattle.station_doors.specs.Counts.{untold};

use std::marker::Model;
use wire_io::Failed;

// What is told of the connections of a real object: counts, and nothing of content.
#[derive(Drop)]
pub(crate) struct Counts {
    opened: u64,
    closed: u64,
    taken: u64,
    open_faults: u64,
    read_faults: u64,
    is_open: bool,
    refused: bool,
}

impl Model for Counts {
    ghost use Rattle.wire_io.specs.Aside.{Aside};
    ghost use Rattle.station_doors.specs.Counts.{untold};

    ghost Value = { Aside };

    ghost view = { λ c. untold c.opened c.closed c.is_open c.taken c.refused c.open_faults c.read_faults };
}

impl Counts {
    // No call was made.
    pub(crate) fn new() -> Counts
        ensures { result ≡ untold 0 0 false 0 false 0 0 }
    {
        Counts {
            opened: 0,
            closed: 0,
            taken: 0,
            open_faults: 0,
            read_faults: 0,
            is_open: false,
            refused: false,
        }
    }

    // Counts what came of opening the next connection: true with one, false where there is none, None where it failed.
    pub(crate) fn open(&mut self, came: Option<bool>) -> Result<bool, Failed>
        ensures opens { Opens self.old self.new result }
        ensures plan { self.old.plan ≡ None }
        ensures coming { self.old.coming ≡ None }
        ensures writes { (faults : ℕ) → self.new.write_faults ≡ noted_writes faults self.old.write_faults result }
    {
        self.refused = false;
        match came {
            Some(true) => {
                self.opened = self.opened.saturating_add(1);
                self.is_open = true;
                self.taken = 0;
                Ok(true)
            }
            Some(false) => {
                self.refused = true;
                Ok(false)
            }
            None => {
                self.open_faults = self.open_faults.saturating_add(1);
                Err(Failed)
            }
        }
    }

    // Counts what came of a read, and hands it on.
    pub(crate) fn read(&mut self, came: Result<usize, Failed>) -> Result<usize, Failed>
        ensures reads { (buf : List ℕ) → Reads self.old self.new result buf }
        ensures plan { self.old.plan ≡ None }
        ensures same { result ≡ came }
    {
        match came {
            Ok(count) => self.taken = self.taken.saturating_add(count as u64),
            Err(_) => self.read_faults = self.read_faults.saturating_add(1),
        }
        came
    }

    // Counts a closing.
    pub(crate) fn close(&mut self)
        ensures { Closes self.old self.new }
    {
        self.closed = self.closed.saturating_add(1);
        self.is_open = false;
    }

    // How many bytes the present connection gave.
    pub(crate) fn taken(&self) -> u64 {
        self.taken
    }

    // Whether no connection was opened yet.
    pub(crate) fn is_unused(&self) -> bool {
        self.opened == 0
    }
}
