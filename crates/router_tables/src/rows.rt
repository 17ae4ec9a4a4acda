ghost use Rattle.std.specs.Prelude.{◌++◌, [], List, map, IfOk, OnOk};
ghost use Rattle.std.specs.Option.{option_map};
ghost use Rattle.bmp_specs.specs.Values.{EffectValue};
ghost use Rattle.peer_book.specs.Standing.{StandsForPeers};
ghost use Rattle.rib_model.specs.Effects.{item_values};
ghost use Rattle.route_runs.specs.Runs.{shared};
ghost use Rattle.router_tables.specs.Pending.{route_effect, StandsForRows};
ghost use Rattle.router_tables.specs.Tables.{AreRowsOf};

use crate::changed::make_changes;
use crate::indexing::Indexing;
use crate::pending::{Pending, drop_gathered, gather};
use crate::views::Views;
use bmp_frames::PeerKey;
use bmp_specs::View;
use ip_prefix::Nlri;
use peer_book::PeerBook;
use rib_model::{Effect, Route};
use std::alloc::Global;
use std::collections::BTreeMap;
use std::marker::Model;
use wire_io::NoMemory;

// The routes of a session while entries are taken: the tables, and changes that are gathered for them.
#[derive(Drop)]
pub(crate) struct Rows {
    alloc: Global,
    // whether a peer's first tables get an index by origin
    indexing: Indexing,
    tables: BTreeMap<PeerKey, Views>,
    pending: BTreeMap<PeerKey, Pending>,
}

impl Model for Rows {
    ghost use Rattle.router_tables.specs.Pending.{RowsValue};

    ghost Value = { RowsValue };

    ghost view = { λ r. record { tables = r.tables.entries; pending = r.pending.entries } };
}

impl Rows {
    // These tables, with no change.
    pub(crate) fn new(alloc: Global, indexing: Indexing, tables: BTreeMap<PeerKey, Views>) -> Rows
        ensures { (effects : List EffectValue) → AreRowsOf tables.entries effects → StandsForRows result effects }
    {
        Rows {
            alloc,
            indexing,
            tables,
            pending: BTreeMap::new(alloc),
        }
    }

    // Makes all changes that are gathered. Out of memory, the rows may only be dropped.
    pub(crate) fn settle(&mut self) -> Result<(), NoMemory>
        ensures { OnOk result ((effects : List EffectValue) → StandsForRows self.old effects → StandsForRows self.new effects) }
    {
        let pending = std::mem::replace(&mut self.pending, BTreeMap::new(self.alloc));
        make_changes(self.alloc, self.indexing, pending, &mut self.tables)
    }

    // The tables with all changes made. Out of memory, nothing is left.
    pub(crate) fn into_tables(self) -> Result<BTreeMap<PeerKey, Views>, NoMemory>
        ensures { IfOk result (λ tables. (effects : List EffectValue) → StandsForRows self effects → AreRowsOf tables.entries effects) }
    {
        let mut tables = self.tables;
        make_changes(self.alloc, self.indexing, self.pending, &mut tables)?;
        Ok(tables)
    }

    // No row, as where a session begins or ends.
    pub(crate) fn clear(&mut self)
        ensures { StandsForRows self.new [] }
    {
        self.tables = BTreeMap::new(self.alloc);
        self.pending = BTreeMap::new(self.alloc);
    }

    // Takes one effect, or those on many routes, of a session with these peers. Out of memory, the rows may
    // only be dropped.
    pub(crate) fn take(&mut self, peers: &PeerBook, effect: &Effect) -> Result<(), NoMemory>
        ensures { OnOk result ((effects : List EffectValue) → StandsForPeers peers.now effects → StandsForRows self.old effects
            → StandsForRows self.new (effects ++ item_values effect.now)) }
    {
        match effect {
            Effect::Up { key, .. } => {
                drop_gathered(&mut self.pending, &mut self.tables, key);
                Ok(())
            }
            Effect::Down { key, .. } => {
                drop_gathered(&mut self.pending, &mut self.tables, key);
                Ok(())
            }
            Effect::Announce {
                key,
                view,
                nlris,
                route,
            } => self.change(peers, key, *view, nlris.as_slice(), Some(route)),
            Effect::Withdraw { key, view, nlris } => {
                self.change(peers, key, *view, nlris.as_slice(), None)
            }
            _ => Ok(()),
        }
    }

    // Announces a route for these NLRI of a peer, or withdraws theirs, where the peer is up.
    fn change(
        &mut self,
        peers: &PeerBook,
        key: &PeerKey,
        view: View,
        nlris: &[Nlri],
        to: Option<&Route>,
    ) -> Result<(), NoMemory>
        ensures { OnOk result ((effects : List EffectValue) → StandsForPeers peers.now effects → StandsForRows self.old effects
            → StandsForRows self.new (effects ++ map (route_effect key.now view (option_map shared to.entry)) nlris.now)) }
    {
        if nlris.is_empty() {
            return Ok(());
        }
        if !peers.is_up(key) {
            return Ok(());
        }
        gather(self.alloc, &mut self.pending, key, view, nlris, to)
    }
}
