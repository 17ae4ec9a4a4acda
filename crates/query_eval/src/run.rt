ghost use Rattle.std.specs.Prelude.{◌≡◌, IsTrue};
ghost use Rattle.bmp_specs.specs.Address.{IsAddressPrefix};
ghost use Rattle.route_runs.specs.declared.walk.Place.TheVariants.{From as FromNlri};
ghost use Rattle.std.specs.Prelude.{None as NoId};
ghost use Rattle.query_eval.specs.RowRuns.{IsPart, begin_of, begin_of_family, first_of_v6, in_part, in_run};

use crate::selection::is_family_named;
use bmp_specs::Family;
use ip_prefix::{Addr, Nlri, Prefix};
use route_runs::Place;

/// What is asked of a prefix.
#[derive(Clone, Copy)]
pub(crate) enum Part {
    /// Nothing: every prefix is asked for.
    Whole,

    /// It is this one.
    Exact(Prefix),

    /// It is contained in this one.
    Within(Prefix),
}

/// NLRI that stand one after the other in their order: those of a family, where one is named, and of a part.
#[derive(Clone, Copy)]
pub(crate) struct Run {
    pub(crate) family: Option<Family>,
    pub(crate) part: Part,
}

/// Every NLRI is in it.
pub(crate) const ALL: Run = Run {
    family: None,
    part: Part::Whole,
};

// Whether the prefix is what is asked for.
fn is_in_part(part: &Part, prefix: &Prefix) -> bool
    ensures { result ≡ in_part part.now prefix.now }
{
    match part {
        Part::Whole => true,
        Part::Exact(asked) => asked.cmp(prefix).is_eq(),
        Part::Within(asked) => asked.contains(prefix),
    }
}

// The first NLRI of IPv6.
fn first_v6() -> Nlri
    ensures { result ≡ first_of_v6 }
{
    Nlri {
        prefix: Prefix::new(Addr::v6([0; 16]), 0).unwrap(),
        id: None,
    }
}

// Where the NLRI of a family begin.
fn begin_family(family: Option<Family>) -> Place
    ensures { result ≡ begin_of_family family }
{
    match family {
        Some(Family::V6) => Place::From(first_v6()),
        _ => Place::First,
    }
}

// Where the NLRI of a prefix begin.
fn begin_prefix(prefix: &Prefix) -> Place
    ensures place { result ≡ FromNlri (record { prefix = prefix.now; id = NoId }) }
    ensures valid { IsAddressPrefix prefix.now }
{
    // for the proof: no bit past its length is set
    let _bits = prefix.bits();
    Place::From(Nlri {
        prefix: *prefix,
        id: None,
    })
}

impl Run {
    /// Whether the NLRI is in the run.
    pub(crate) fn holds(&self, nlri: &Nlri) -> bool
        ensures { result ≡ in_run self.now nlri.now }
    {
        is_family_named(self.family, nlri.prefix.addr().family())
            && is_in_part(&self.part, &nlri.prefix)
    }

    /// Whether every prefix is asked for.
    pub(crate) fn is_whole(&self) -> bool
        ensures { IsTrue result → self.now.part ≡ Part.Whole }
    {
        match self.part {
            Part::Whole => true,
            _ => false,
        }
    }

    /// The place where the run begins.
    pub(crate) fn begin(&self) -> Place
        ensures place { result ≡ begin_of self.now }
        ensures valid { IsPart self.now.part }
    {
        match &self.part {
            Part::Whole => begin_family(self.family),
            Part::Exact(prefix) => begin_prefix(prefix),
            Part::Within(prefix) => begin_prefix(prefix),
        }
    }
}
