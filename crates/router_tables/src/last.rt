ghost use Rattle.std.specs.Prelude.{◌≡◌, [], ◌∷◌, ◌++◌, List, IfOk, OnOk};
ghost use Rattle.std.specs.Arc.{arc_value};
ghost use Rattle.std.specs.Option.{option_map};
ghost use Rattle.ask_specs.specs.FullRouters.{IsLastConnection};
ghost use Rattle.bmp_specs.specs.Counts.{counts_of};
ghost use Rattle.bmp_specs.specs.Session.{live, state_of, session_effects};
ghost use Rattle.bmp_specs.specs.Values.{EntryValue, opened, message, closed};
ghost use Rattle.rib_model.specs.Effects.{effect_values};
ghost use Rattle.rib_model.specs.Entries.{head_value};
ghost use Rattle.router_tables.specs.Books.{StandsForBooks};
ghost use Rattle.router_tables.specs.Last.{StandsForLast};
ghost use Rattle.router_tables.specs.State.{state_value};

use crate::books::Books;
use crate::left::Left;
use crate::state::LaneState;
use rib_model::{Closing, Effect, Head, Opening};
use stats_book::{Connection, Counts, Passed};
use std::alloc::Global;
use std::marker::Model;
use std::sync::Arc;
use wire_io::NoMemory;

// The last connection of a lane, open or closed.
#[derive(Drop)]
pub(crate) struct LastConnection {
    alloc: Global,
    came: Opening,
    until: Option<u64>,
    passed: Passed,
    // What its session left, where it is closed. It is shared by all tables until another connection is opened.
    left: Option<Arc<Left>>,
}

impl Model for LastConnection {
    ghost use Rattle.std.specs.Arc.{arc_value};
    ghost use Rattle.std.specs.Option.{option_map};
    ghost use Rattle.router_tables.specs.Last.{LastValue};

    ghost Value = { LastValue };

    ghost view = { λ l. record { came = l.came; until = l.until; passed = l.passed; left = option_map arc_value l.left } };
}

impl LastConnection {
    // That of no entries: there was none.
    pub(crate) fn none(alloc: Global) -> LastConnection
        ensures { StandsForLast result [] }
    {
        LastConnection {
            alloc,
            came: Opening::untold(),
            until: None,
            passed: Passed::none(alloc),
            left: None,
        }
    }

    // An equal one.
    pub(crate) fn share(&self) -> Result<LastConnection, NoMemory>
        ensures { IfOk result (λ copy. copy ≡ self.now) }
    {
        Ok(LastConnection {
            alloc: self.alloc,
            came: self.came,
            until: self.until,
            passed: self.passed.copy()?,
            left: shared(&self.left)?,
        })
    }

    // Another connection is opened.
    pub(crate) fn open(&mut self, came: Opening)
        ensures { (entries : List EntryValue) → StandsForLast self.new (entries ++ opened came ∷ []) }
    {
        self.came = came;
        self.until = None;
        self.passed = Passed::none(self.alloc);
        self.left = None;
    }

    // Takes a message of it. Out of memory, it may only be dropped.
    pub(crate) fn take(&mut self, head: &Head, effects: &[Effect]) -> Result<(), NoMemory>
        ensures { OnOk result ((entries : List EntryValue) → state_of entries ≡ live → StandsForLast self.old entries
            → StandsForLast self.new (entries ++ message (head_value head.now) (effect_values effects.now) ∷ [])) }
    {
        self.passed.take(head, effects)
    }

    // It is closed in a lane with this state, whose session counted this and told that; or it was closed before.
    pub(crate) fn close(
        &mut self,
        state: LaneState,
        closing: &Closing,
        counts: Counts,
        books: &Books,
    ) -> Result<(), NoMemory>
        ensures { OnOk result ((entries : List EntryValue) → state_value state ≡ state_of entries → counts ≡ counts_of entries
            → StandsForBooks books.now (session_effects entries) → StandsForLast self.old entries → StandsForLast self.new (entries ++ closed closing.now ∷ [])) }
    {
        match state {
            LaneState::Idle => Ok(()),
            LaneState::Live => {
                let left = books.left(counts)?;
                self.left = Some(Arc::new(self.alloc, left)?);
                self.until = closing.until;
                Ok(())
            }
            LaneState::Closed(_) => {
                self.until = closing.until;
                Ok(())
            }
        }
    }

    // It with all that it counted and told, in a lane whose session counts this and told that.
    pub(crate) fn connection<'a>(&'a self, counts: Counts, books: &'a Books) -> Connection<'a>
        ensures { (entries : List EntryValue) → counts ≡ counts_of entries → StandsForBooks books.now (session_effects entries)
            → StandsForLast self.now entries → IsLastConnection entries result }
    {
        match &self.left {
            Some(left) => Connection {
                came: self.came,
                until: self.until,
                peers: left.peers,
                counts: left.counts,
                name: left.name.as_slice(),
                descr: left.description.as_slice(),
                passed: &self.passed,
            },
            None => Connection {
                came: self.came,
                until: self.until,
                peers: books.peers().count_up(),
                counts,
                name: books.name(),
                descr: books.description(),
                passed: &self.passed,
            },
        }
    }
}

// Shares what is left.
fn shared(left: &Option<Arc<Left>>) -> Result<Option<Arc<Left>>, NoMemory>
    ensures { IfOk result (λ copy. option_map arc_value copy ≡ option_map arc_value left.now) }
{
    match left {
        Some(left) => Ok(Some(Arc::try_clone(left)?)),
        None => Ok(None),
    }
}
