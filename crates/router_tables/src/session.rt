ghost use Rattle.std.specs.Prelude.{◌≡◌, [], ◌∷◌, ◌++◌, List, IfOk, OnOk};
ghost use Rattle.ask_specs.specs.FullRouters.{IsLastConnection};
ghost use Rattle.bmp_specs.specs.Session.{session_effects};
ghost use Rattle.bmp_specs.specs.Sums.{no_counts};
ghost use Rattle.bmp_specs.specs.Values.{EntryValue};
ghost use Rattle.rib_model.specs.Entries.{entry_value};
ghost use Rattle.router_tables.specs.Books.{StandsForBooks};
ghost use Rattle.router_tables.specs.Pending.{StandsForRows};
ghost use Rattle.router_tables.specs.Session.{StandsForSession};
ghost use Rattle.router_tables.specs.State.{state_value};

use crate::books::Books;
use crate::counting::count_message;
use crate::effects::take_effects;
use crate::last::LastConnection;
use crate::rows::Rows;
use crate::state::LaneState;
use rib_model::Entry;
use stats_book::{Connection, Counts};
use std::alloc::Global;
use std::marker::Model;
use wire_io::NoMemory;

// The present session of a lane, without its routes, and the lane's last connection.
#[derive(Drop)]
pub(crate) struct Session {
    state: LaneState,
    counts: Counts,
    books: Books,
    last: LastConnection,
}

impl Model for Session {
    ghost use Rattle.router_tables.specs.Session.{SessionValue};
    ghost use Rattle.router_tables.specs.State.{state_value};

    ghost Value = { SessionValue };

    ghost view = { λ s. record { state = state_value s.state; counts = s.counts; books = s.books; last = s.last } };
}

impl Session {
    // The session of no entries.
    pub(crate) fn new(alloc: Global) -> Result<Session, NoMemory>
        ensures { IfOk result (λ session. StandsForSession session []) }
    {
        Ok(Session {
            state: LaneState::Idle,
            counts: Counts::none(),
            books: Books::new(alloc)?,
            last: LastConnection::none(alloc),
        })
    }

    // An equal session.
    pub(crate) fn share(&self) -> Result<Session, NoMemory>
        ensures { IfOk result (λ copy. copy ≡ self.now) }
    {
        Ok(Session {
            state: self.state,
            counts: self.counts,
            books: self.books.share()?,
            last: self.last.share()?,
        })
    }

    pub(crate) fn state(&self) -> LaneState
        ensures { state_value result ≡ self.now.state }
    {
        self.state
    }

    pub(crate) fn counts(&self) -> Counts
        ensures { result ≡ self.now.counts }
    {
        self.counts
    }

    pub(crate) fn books(&self) -> &Books
        ensures { result.now ≡ self.now.books }
    {
        &self.books
    }

    pub(crate) fn connection(&self) -> Connection<'_>
        ensures { (entries : List EntryValue) → StandsForSession self.now entries → IsLastConnection entries result }
    {
        self.last.connection(self.counts, &self.books)
    }

    // Takes one entry. Out of memory, the session and its rows may only be dropped.
    pub(crate) fn take(
        &mut self,
        alloc: Global,
        rows: &mut Rows,
        entry: &Entry,
    ) -> Result<(), NoMemory>
        ensures session { OnOk result ((entries : List EntryValue) → StandsForSession self.old entries → StandsForSession self.new (entries ++ entry_value entry.now ∷ [])) }
        ensures rows { OnOk result ((entries : List EntryValue) → StandsForSession self.old entries → StandsForRows rows.old (session_effects entries)
            → StandsForRows rows.new (session_effects (entries ++ entry_value entry.now ∷ []))) }
    {
        match entry {
            Entry::Opened(came) => {
                rows.clear();
                self.last.open(*came);
                self.start_over(alloc, LaneState::Live)
            }
            Entry::Message { head, effects } => {
                if !self.state.is_live() {
                    return Ok(());
                }
                let effects = effects.as_slice();
                count_message(&mut self.counts, head, effects);
                self.last.take(head, effects)?;
                take_effects(&mut self.books, rows, effects)
            }
            Entry::Closed(closing) => {
                rows.clear();
                self.last
                    .close(self.state, closing, self.counts, &self.books)?;
                let state = self.state.after_closing(closing.cause);
                self.start_over(alloc, state)
            }
        }
    }

    // Nothing is told and counted, and the lane is in this state. Its last connection stays.
    fn start_over(&mut self, alloc: Global, state: LaneState) -> Result<(), NoMemory>
        ensures state { OnOk result (self.new.state ≡ state_value state) }
        ensures counts { OnOk result (self.new.counts ≡ no_counts) }
        ensures books { OnOk result (StandsForBooks self.new.books []) }
        ensures last { OnOk result (self.new.last ≡ self.old.last) }
    {
        self.books = Books::new(alloc)?;
        self.counts = Counts::none();
        self.state = state;
        Ok(())
    }
}
