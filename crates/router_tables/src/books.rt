ghost use Rattle.std.specs.Prelude.{◌≡◌, [], ◌++◌, List, IfOk, OnOk};
ghost use Rattle.ask_specs.specs.Connection.{last_messages};
ghost use Rattle.bmp_specs.specs.Counts.{counts_of};
ghost use Rattle.bmp_specs.specs.Session.{session_effects, session_messages};
ghost use Rattle.bmp_specs.specs.Values.{EffectValue, EntryValue};
ghost use Rattle.rib_model.specs.Effects.{item_values};
ghost use Rattle.router_tables.specs.Books.{StandsForBooks};
ghost use Rattle.router_tables.specs.Last.{StandsForLeft};

use crate::left::Left;
use crate::shared_peers::{bring_up, set_mark, take_down};
use crate::shared_stats::{forget, set_statistic};
use peer_book::PeerBook;
use rib_model::Effect;
use stats_book::{Counts, StatsBook};
use std::alloc::Global;
use std::marker::Model;
use std::sync::Arc;
use wire_io::{ByteList, NoMemory};

// What a session told, without its routes. Each part stands behind an `Arc` of its own, since it seldom changes.
#[derive(Drop)]
pub(crate) struct Books {
    alloc: Global,
    name: Arc<ByteList>,
    description: Arc<ByteList>,
    peers: Arc<PeerBook>,
    stats: Arc<StatsBook>,
}

impl Model for Books {
    ghost use Rattle.std.specs.Arc.{arc_value};
    ghost use Rattle.router_tables.specs.Books.{BooksValue};

    ghost Value = { BooksValue };

    ghost view = { λ b. record { name = arc_value b.name; description = arc_value b.description; peers = arc_value b.peers; stats = arc_value b.stats } };
}

impl Books {
    // Those of a session without effects.
    pub(crate) fn new(alloc: Global) -> Result<Books, NoMemory>
        ensures { IfOk result (λ books. StandsForBooks books []) }
    {
        Ok(Books {
            alloc,
            name: Arc::new(alloc, ByteList::new(alloc))?,
            description: Arc::new(alloc, ByteList::new(alloc))?,
            peers: Arc::new(alloc, PeerBook::new(alloc))?,
            stats: Arc::new(alloc, StatsBook::new(alloc))?,
        })
    }

    // Equal ones.
    pub(crate) fn share(&self) -> Result<Books, NoMemory>
        ensures { IfOk result (λ copy. copy ≡ self.now) }
    {
        Ok(Books {
            alloc: self.alloc,
            name: Arc::try_clone(&self.name)?,
            description: Arc::try_clone(&self.description)?,
            peers: Arc::try_clone(&self.peers)?,
            stats: Arc::try_clone(&self.stats)?,
        })
    }

    pub(crate) fn name(&self) -> &[u8]
        ensures { result.now ≡ self.now.name }
    {
        self.name.as_slice()
    }

    pub(crate) fn description(&self) -> &[u8]
        ensures { result.now ≡ self.now.description }
    {
        self.description.as_slice()
    }

    pub(crate) fn peers(&self) -> &PeerBook
        ensures { result.now ≡ self.now.peers }
    {
        &self.peers
    }

    pub(crate) fn stats(&self) -> &StatsBook
        ensures { result.now ≡ self.now.stats }
    {
        &self.stats
    }

    // What the session leaves where it ends, which counted this: its connection is the last one.
    pub(crate) fn left(&self, counts: Counts) -> Result<Left, NoMemory>
        ensures { IfOk result (λ left. (entries : List EntryValue) → last_messages entries ≡ session_messages entries → counts ≡ counts_of entries
            → StandsForBooks self.now (session_effects entries) → StandsForLeft left entries) }
    {
        Ok(Left {
            peers: self.peers.count_up(),
            counts,
            name: Arc::try_clone(&self.name)?,
            description: Arc::try_clone(&self.description)?,
        })
    }

    // Takes one effect, or those on many routes. Out of memory, the books may only be dropped.
    pub(crate) fn take(&mut self, effect: &Effect) -> Result<(), NoMemory>
        ensures { OnOk result ((effects : List EffectValue) → StandsForBooks self.old effects → StandsForBooks self.new (effects ++ item_values effect.now)) }
    {
        match effect {
            Effect::Up { key, info } => {
                bring_up(&mut self.peers, self.alloc, *key, info)?;
                forget(&mut self.stats, self.alloc, key)
            }
            Effect::Down { key, info } => {
                take_down(&mut self.peers, self.alloc, *key, *info)?;
                forget(&mut self.stats, self.alloc, key)
            }
            Effect::Mark { key, view, family } => {
                set_mark(&mut self.peers, self.alloc, key, *view, *family)
            }
            Effect::Statistic { key, stat } => {
                if self.peers.is_up(key) {
                    set_statistic(&mut self.stats, self.alloc, *key, *stat)
                } else {
                    Ok(())
                }
            }
            Effect::Name(bytes) => {
                let copy = bytes.copy()?;
                self.name = Arc::new(self.alloc, copy)?;
                Ok(())
            }
            Effect::Descr(bytes) => {
                let copy = bytes.copy()?;
                self.description = Arc::new(self.alloc, copy)?;
                Ok(())
            }
            _ => Ok(()),
        }
    }
}
