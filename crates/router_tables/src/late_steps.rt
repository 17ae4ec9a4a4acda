ghost use Rattle.std.specs.Prelude.{◌≡◌, [], ◌++◌, List, IfOk, OnOk};
ghost use Rattle.bmp_specs.specs.Steps.{steps_of};
ghost use Rattle.bmp_specs.specs.Values.{EntryValue};
ghost use Rattle.recent_ring.specs.Recent.{recent};
ghost use Rattle.rib_model.specs.Entries.{entry_values};
ghost use Rattle.router_tables.specs.Building.{AreLate};
ghost use Rattle.router_tables.specs.Tables.{steps_told};

use crate::last_steps::{KEPT, count_entries, steps_past};
use recent_ring::Recent;
use rib_model::{Entry, Step};
use std::alloc::Global;
use std::marker::Model;
use wire_io::{List, NoMemory};

// The last steps of entries, which are made at the end: of entries that many more come after none is ever made. Contracts
// see the steps that are made, how many after them are passed over, and the entries whose steps come last.
#[derive(Drop)]
pub(crate) struct LateSteps {
    alloc: Global,
    made: Recent<Step>,
    passed: u64,
    last: List<Entry>,
}

impl Model for LateSteps {
    ghost use Rattle.rib_model.specs.Entries.{entry_values};
    ghost use Rattle.router_tables.specs.Building.{LateValue};
    ghost use Rattle.router_tables.specs.Tables.{steps_told};

    ghost Value = { LateValue };

    ghost view = { λ s. record { made = steps_told s.made; passed = s.passed; last = entry_values s.last } };
}

impl LateSteps {
    // Those of no entries.
    pub(crate) fn new(alloc: Global) -> Result<LateSteps, NoMemory>
        ensures { IfOk result (λ steps. AreLate steps []) }
    {
        Ok(LateSteps {
            alloc,
            made: Recent::new(alloc)?,
            passed: 0,
            last: List::new(alloc),
        })
    }

    // Those of these entries too. Where they have 1,024 steps, none of those before is among the last.
    pub(crate) fn take(&mut self, entries: List<Entry>) -> Result<(), NoMemory>
        ensures { OnOk result ((so_far : List EntryValue) → AreLate self.old so_far → AreLate self.new (so_far ++ entry_values entries)) }
    {
        if count_entries(entries.as_slice()) < KEPT {
            self.made = steps_past(self.alloc, &self.made, self.passed, self.last.as_slice())?;
            self.passed = 0;
            self.last = entries;
            return Ok(());
        }
        let count = count_entries(self.last.as_slice());
        self.passed = self.passed.saturating_add(count as u64);
        self.last = entries;
        Ok(())
    }

    // The last steps.
    pub(crate) fn into_steps(self) -> Result<Recent<Step>, NoMemory>
        ensures { IfOk result (λ steps. (entries : List EntryValue) → AreLate self entries → steps_told steps ≡ recent (steps_of entries)) }
    {
        steps_past(self.alloc, &self.made, self.passed, self.last.as_slice())
    }
}
