ghost use Rattle.std.specs.Prelude.{◌≡◌, [], ◌∷◌, ◌++◌, List, IfOk, OnOk, option_to_list, position};
ghost use Rattle.ask_specs.specs.Connection.{same_family};
ghost use Rattle.bmp_specs.specs.Values.{FamilyCodeValue};
ghost use Rattle.stats_book.specs.Others.{counted, head_others, is_named, others_of};

use rib_model::{FamilyCode, Head};
use std::alloc::Global;
use std::marker::Model;
use wire_io::NoMemory;

/// An address family that was passed over, and how often.
#[derive(Clone, Copy, Debug, PartialEq, Eq)]
pub struct FamilyCount {
    /// The family.
    pub family: FamilyCode,

    /// How often, at most 2^64 - 1.
    pub count: u64,
}

impl Model for FamilyCount {
    ghost use Rattle.ask_specs.specs.Connection.{FamilyCountValue};

    ghost Value = { FamilyCountValue };

    ghost view = { λ f. record { family = f.family; count = f.count } };

    ghost inverse = { λ v. record { family = v.family; count = v.count } };
}

// The most families that are told by name.
const MOST_NAMED: usize = 16;

// The address families that were passed over.
#[derive(Drop)]
pub(crate) struct Others {
    // How often there was one.
    pub(crate) families: u64,

    // The first ones, in the order in which they came first.
    pub(crate) named: Vec<FamilyCount>,

    // How often there was one that isn't among those.
    pub(crate) more: u64,
}

impl Model for Others {
    ghost use Rattle.stats_book.specs.Others.{OthersValue};

    ghost Value = { OthersValue };

    ghost view = { λ o. record { families = o.families; named = o.named.items; more = o.more } };
}

impl Others {
    pub(crate) fn none(alloc: Global) -> Others
        ensures { result ≡ others_of [] }
    {
        Others {
            families: 0,
            named: Vec::new(alloc),
            more: 0,
        }
    }

    pub(crate) fn copy(&self) -> Result<Others, NoMemory>
        ensures { IfOk result (λ copy. copy ≡ self.now) }
    {
        Ok(Others {
            families: self.families,
            named: self.named.clone()?,
            more: self.more,
        })
    }

    fn take_family(&mut self, family: FamilyCode) -> Result<(), NoMemory>
        ensures { OnOk result ((all : List FamilyCodeValue) → self.old ≡ others_of all
            → self.new ≡ others_of (all ++ family ∷ [])) }
    {
        self.families = self.families.saturating_add(1);
        if count_named(&mut self.named, family) {
            return Ok(());
        }
        if self.named.len() < MOST_NAMED {
            self.named.push(FamilyCount { family, count: 1 })?;
        } else {
            self.more = self.more.saturating_add(1);
        }
        Ok(())
    }

    fn take_some(&mut self, family: Option<FamilyCode>) -> Result<(), NoMemory>
        ensures { OnOk result ((all : List FamilyCodeValue) → self.old ≡ others_of all
            → self.new ≡ others_of (all ++ option_to_list family)) }
    {
        match family {
            None => Ok(()),
            Some(family) => self.take_family(family),
        }
    }

    // Takes the families that a message names.
    pub(crate) fn take(&mut self, head: &Head) -> Result<(), NoMemory>
        ensures { OnOk result ((all : List FamilyCodeValue) → self.old ≡ others_of all
            → self.new ≡ others_of (all ++ head_others head.now)) }
    {
        self.take_some(head.reach)?;
        self.take_some(head.unreach)
    }
}

// The place of a family among those that are told by name.
fn place_of(named: &[FamilyCount], family: FamilyCode) -> Option<usize>
    ensures { result ≡ position (λ o. same_family family o.family) named.now }
{
    named.iter().position(|other| family == other.family)
}

// Counts a family that is told by name, and answers whether it is.
fn count_named(named: &mut [FamilyCount], family: FamilyCode) -> bool
    ensures found { result ≡ is_named family named.old }
    ensures counted { named.new ≡ counted family named.old }
{
    match place_of(named, family) {
        None => false,
        Some(at) => {
            let known = &mut named[at];
            known.count = known.count.saturating_add(1);
            true
        }
    }
}
