ghost use Rattle.std.specs.Prelude.{[], ◌++◌, List, IfOk, OnOk};
ghost use Rattle.bmp_specs.specs.Values.{EntryValue};
ghost use Rattle.rib_model.specs.Entries.{entry_values};
ghost use Rattle.router_tables.specs.Building.{Builds};
ghost use Rattle.router_tables.specs.Tables.{StandsFor};

use crate::indexing::Indexing;
use crate::last_steps::count_entries;
use crate::late_steps::LateSteps;
use crate::rows::Rows;
use crate::session::Session;
use crate::tables::RouterTables;
use crate::taken::take_entries;
use rib_model::Entry;
use std::alloc::Global;
use std::collections::BTreeMap;
use std::marker::Model;
use wire_io::{List, NoMemory};

// How many changes of routes are gathered, about, before the tables take them. Fewer make more runs, which are merged
// more often; more are out of the processor's caches when they are sorted.
const GATHERED: usize = 16_384;

/// The tables of one router in the making, for whoever reads them only once all entries are taken. What entries change of
/// the routes is gathered over many calls, so tables take fewer runs than by `RouterTables::extend`, and merge them less
/// often. Contracts see what they will stand for (`Builds`).
#[derive(Drop)]
pub struct TablesBuilder {
    alloc: Global,
    session: Session,
    rows: Rows,
    steps: LateSteps,
    // how many steps were taken since the tables took what was gathered
    gathered: usize,
}

impl Model for TablesBuilder {
    ghost use Rattle.router_tables.specs.Building.{BuilderValue};

    ghost Value = { BuilderValue };

    ghost view = { λ b. record { session = b.session; rows = b.rows; steps = b.steps } };
}

impl TablesBuilder {
    /// Has taken no entries. Its tables get an index by origin AS, or none.
    pub fn new(alloc: Global, indexing: Indexing) -> Result<TablesBuilder, NoMemory>
        ensures { IfOk result (λ builder. Builds builder []) }
    {
        Ok(TablesBuilder {
            alloc,
            session: Session::new(alloc)?,
            rows: Rows::new(alloc, indexing, BTreeMap::new(alloc)),
            steps: LateSteps::new(alloc)?,
            gathered: 0,
        })
    }

    /// Takes entries, in order. Out of memory, the builder may only be dropped.
    pub fn take(&mut self, entries: List<Entry>) -> Result<(), NoMemory>
        ensures { OnOk result ((so_far : List EntryValue) → Builds self.old so_far → Builds self.new (so_far ++ entry_values entries)) }
    {
        let given = entries.as_slice();
        take_entries(self.alloc, &mut self.session, &mut self.rows, given)?;
        self.gathered = self.gathered.saturating_add(count_entries(given));
        self.steps.take(entries)?;
        if self.gathered < GATHERED {
            return Ok(());
        }
        self.gathered = 0;
        self.rows.settle()
    }

    /// The tables, which stand for all entries that were taken.
    pub fn into_tables(self) -> Result<RouterTables, NoMemory>
        ensures { IfOk result (λ tables. (entries : List EntryValue) → Builds self entries → StandsFor tables entries) }
    {
        let TablesBuilder {
            alloc,
            session,
            rows,
            steps,
            ..
        } = self;
        let tables = rows.into_tables()?;
        let steps = steps.into_steps()?;
        Ok(RouterTables {
            alloc,
            session,
            tables,
            steps,
        })
    }
}
