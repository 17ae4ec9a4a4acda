ghost use Rattle.std.specs.Prelude.{◌≡◌, [], ◌∷◌, ◌++◌, List, None, IfOk, IsNone, OnErr, OnOk};
ghost use Rattle.std.specs.Option.{option_copied};
ghost use Rattle.ask_specs.specs.FullRouters.{IsLastConnection};
ghost use Rattle.bmp_specs.specs.Values.{EntryValue, NlriValue};
ghost use Rattle.rib_model.specs.Entries.{entry_value, entry_values};
ghost use Rattle.router_tables.specs.State.{state_value};
ghost use Rattle.router_tables.specs.Tables.{StandsFor, table_at, route_at, steps_told};

use crate::indexing::Indexing;
use crate::last_steps::steps_with;
use crate::rows::Rows;
use crate::session::Session;
use crate::state::LaneState;
use crate::taken::take_entries;
use crate::views::Views;
use bmp_frames::PeerKey;
use bmp_specs::View;
use peer_book::PeerBook;
use recent_ring::Recent;
use rib_model::{Entry, Step};
use route_runs::RouteTable;
use stats_book::{Connection, Counts, StatsBook};
use std::alloc::Global;
use std::collections::BTreeMap;
use std::marker::Model;
use std::slice;
use wire_io::NoMemory;

/// The tables of one router, which stand for the entries of its lane (`StandsFor`).
#[derive(Drop)]
pub struct RouterTables {
    pub(crate) alloc: Global,
    pub(crate) session: Session,
    pub(crate) tables: BTreeMap<PeerKey, Views>,
    pub(crate) steps: Recent<Step>,
}

impl Model for RouterTables {
    ghost use Rattle.router_tables.specs.Tables.{TablesValue, steps_told};

    ghost Value = { TablesValue };

    ghost view = { λ t. record { session = t.session; tables = t.tables.entries; steps = steps_told t.steps } };
}

impl RouterTables {
    /// The tables of no entries. They take the memory for the steps that they will keep.
    pub fn new(alloc: Global) -> Result<RouterTables, NoMemory>
        ensures { IfOk result (λ tables. StandsFor tables []) }
    {
        Ok(RouterTables {
            alloc,
            session: Session::new(alloc)?,
            tables: BTreeMap::new(alloc),
            steps: Recent::new(alloc)?,
        })
    }

    /// The tables with these entries taken, in order. Each table whose routes change takes one run for all of
    /// them. They cost what `share` costs, and these tables stay as they are; of many steps only the last 1,024 are
    /// made. Where the lane has no connection, a
    /// message only adds to the last steps; routes of a peer that isn't up (RFC 7854, section 4.10) aren't taken.
    pub fn with(&self, entries: &[Entry]) -> Result<RouterTables, NoMemory>
        ensures { IfOk result (λ tables. (so_far : List EntryValue) → StandsFor self.now so_far → StandsFor tables (so_far ++ entry_values entries.now)) }
    {
        let mut session = self.session.share()?;
        let mut rows = Rows::new(self.alloc, Indexing::ByOrigin, self.tables.clone()?);
        let steps = steps_with(self.alloc, &self.steps, entries)?;
        take_entries(self.alloc, &mut session, &mut rows, entries)?;
        let tables = rows.into_tables()?;
        Ok(RouterTables {
            alloc: self.alloc,
            session,
            tables,
            steps,
        })
    }

    /// Takes entries, in order, as `with` does. Out of memory, the tables are as before.
    pub fn extend(&mut self, entries: &[Entry]) -> Result<(), NoMemory>
        ensures ok { OnOk result ((so_far : List EntryValue) → StandsFor self.old so_far → StandsFor self.new (so_far ++ entry_values entries.now)) }
        ensures err { OnErr result (self.new ≡ self.old) }
    {
        *self = self.with(entries)?;
        Ok(())
    }

    /// Takes one entry. Out of memory, the tables are as before.
    pub fn apply(&mut self, entry: &Entry) -> Result<(), NoMemory>
        ensures ok { OnOk result ((so_far : List EntryValue) → StandsFor self.old so_far → StandsFor self.new (so_far ++ entry_value entry.now ∷ [])) }
        ensures err { OnErr result (self.new ≡ self.old) }
    {
        self.extend(slice::from_ref(entry))
    }

    /// Equal tables. The map of peers is copied, at the price of an entry for each peer that has tables and of a
    /// counter for each of its tables, and so is the list of the last steps, as `Recent::copy` says, and that of the
    /// families that were passed over, as `Passed::copy` says. All else is shared, and a book is copied once it changes.
    pub fn share(&self) -> Result<RouterTables, NoMemory>
        ensures { IfOk result (λ copy. copy ≡ self.now) }
    {
        Ok(RouterTables {
            alloc: self.alloc,
            session: self.session.share()?,
            tables: self.tables.clone()?,
            steps: self.steps.copy()?,
        })
    }

    /// The state of the lane.
    pub fn state(&self) -> LaneState
        ensures { state_value result ≡ self.now.session.state }
    {
        self.session.state()
    }

    /// What the present session counts, nothing where there is none.
    pub fn counts(&self) -> Counts
        ensures { result ≡ self.now.session.counts }
    {
        self.session.counts()
    }

    /// The last sysName of the present session (RFC 7854, section 4.4), empty where there is none.
    pub fn name(&self) -> &[u8]
        ensures { result.now ≡ self.now.session.books.name }
    {
        self.session.books().name()
    }

    /// The last sysDescr of the present session (RFC 7854, section 4.4), empty where there is none.
    pub fn descr(&self) -> &[u8]
        ensures { result.now ≡ self.now.session.books.description }
    {
        self.session.books().description()
    }

    /// The last connection of the lane, open or closed: from where it came and when, what its session counted and told, and
    /// which parts of its messages were passed over. All of it stays after the close until another connection is opened; of
    /// a lane that never had one all is nothing.
    pub fn connection(&self) -> Connection<'_>
        ensures { (entries : List EntryValue) → StandsFor self.now entries → IsLastConnection entries result }
    {
        self.session.connection()
    }

    /// The peers of the present session (RFC 7854, sections 4.9 and 4.10).
    pub fn peers(&self) -> &PeerBook
        ensures { result.now ≡ self.now.session.books.peers }
    {
        self.session.books().peers()
    }

    /// The statistics of the present session's peers (RFC 7854, section 4.8).
    pub fn stats(&self) -> &StatsBook
        ensures { result.now ≡ self.now.session.books.stats }
    {
        self.session.books().stats()
    }

    /// The routes of a peer in a view. `None` only where that table has no row.
    pub fn table(&self, key: &PeerKey, view: View) -> Option<&RouteTable>
        ensures table { option_copied result ≡ table_at self.now.tables key.now view }
        ensures none { IsNone result → (nlri : NlriValue)
            → route_at self.now.tables (record { key = key.now; view = view; nlri = nlri }) ≡ None }
    {
        match self.tables.get(key) {
            Some(views) => views.of_view(view),
            None => None,
        }
    }

    /// The last steps of all entries, oldest first, those of earlier sessions too.
    pub fn recent(&self) -> &Recent<Step>
        ensures { steps_told result.now ≡ self.now.steps }
    {
        &self.steps
    }
}
