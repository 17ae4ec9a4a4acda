ghost use Rattle.std.specs.Prelude.{◌≡◌, [], ◌∷◌, ◌++◌, List, IfOk, OnOk, sum_by};
ghost use Rattle.ask_specs.specs.Connection.{malformed_of, passed_of};
ghost use Rattle.bmp_specs.specs.Counts.{parts_in};
ghost use Rattle.bmp_specs.specs.Reply.{told_count};
ghost use Rattle.bmp_specs.specs.Values.{EntryValue, message};
ghost use Rattle.rib_model.specs.Effects.{effect_values, item_values};
ghost use Rattle.rib_model.specs.Entries.{head_value};

use crate::others::{FamilyCount, Others};
use bmp_frames::{ROUTE_MONITORING, STATISTICS_REPORT};
use rib_model::{Effect, Head};
use std::alloc::Global;
use std::marker::Model;
use wire_io::NoMemory;

/// The parts of a connection's messages that were passed over, by cause. Each count ends at 2^64 - 1.
#[derive(Drop)]
pub struct Passed {
    tlvs: u64,
    stats: u64,
    routes: u64,
    others: Others,
}

impl Model for Passed {
    ghost use Rattle.ask_specs.specs.Connection.{PassedValue};

    ghost Value = { PassedValue };

    ghost view = { λ p. record { tlvs = p.tlvs; stats = p.stats; routes = p.routes; families = p.others.families; others = p.others.named; more = p.others.more } };
}

// How many parts an effect passes over.
fn parts_of(effect: &Effect) -> u64
    ensures { result ≡ sum_by parts_in (item_values effect.now) }
{
    match effect {
        Effect::Unread(parts) => *parts as u64,
        _ => 0,
    }
}

// How many parts of a message were passed over, at most 2^64 - 1.
fn count_parts(effects: &[Effect]) -> u64
    ensures { result ≡ told_count (sum_by parts_in (effect_values effects.now)) }
{
    let mut parts: u64 = 0;
    for effect in effects {
        parts = parts.saturating_add(parts_of(effect));
    }
    parts
}

impl Passed {
    /// What a connection without messages has: nothing. It takes no memory.
    pub fn none(alloc: Global) -> Passed
        ensures { result ≡ passed_of [] }
    {
        Passed {
            tlvs: 0,
            stats: 0,
            routes: 0,
            others: Others::none(alloc),
        }
    }

    /// An equal one. It takes memory only where a family was passed over.
    pub fn copy(&self) -> Result<Passed, NoMemory>
        ensures { IfOk result (λ copy. copy ≡ self.now) }
    {
        Ok(Passed {
            tlvs: self.tlvs,
            stats: self.stats,
            routes: self.routes,
            others: self.others.copy()?,
        })
    }

    /// Counts one message more. Out of memory, it may only be dropped.
    pub fn take(&mut self, head: &Head, effects: &[Effect]) -> Result<(), NoMemory>
        ensures { OnOk result ((messages : List EntryValue) → self.old ≡ passed_of messages
            → self.new ≡ passed_of (messages ++ message (head_value head.now) (effect_values effects.now) ∷ [])) }
    {
        let parts = count_parts(effects);
        match head.kind {
            ROUTE_MONITORING => self.routes = self.routes.saturating_add(parts),
            STATISTICS_REPORT => self.stats = self.stats.saturating_add(parts),
            _ => self.tlvs = self.tlvs.saturating_add(parts),
        }
        self.others.take(head)
    }

    /// How many TLVs of Initiation, Peer Up and Route Mirroring messages (RFC 7854, sections 4.3, 4.7 and 4.10).
    pub fn tlvs(&self) -> u64
        ensures { result ≡ self.now.tlvs }
    {
        self.tlvs
    }

    /// How many statistics of Statistics Reports (RFC 7854, section 4.8).
    pub fn stats(&self) -> u64
        ensures { result ≡ self.now.stats }
    {
        self.stats
    }

    /// How many UPDATE messages withdrew their routes for a malformed attribute (RFC 7606, section 2).
    pub fn malformed(&self) -> u64
        ensures { result ≡ malformed_of self.now }
    {
        self.routes.saturating_sub(self.others.families)
    }

    /// The address families of multiprotocol attributes that were passed over (RFC 4760, sections 3 and 4), in the order
    /// in which they came first: at most 16.
    pub fn others(&self) -> &[FamilyCount]
        ensures { result.now ≡ self.now.others }
    {
        self.others.named.as_slice()
    }

    /// How often there was a family that isn't among those.
    pub fn more(&self) -> u64
        ensures { result ≡ self.now.more }
    {
        self.others.more
    }
}
