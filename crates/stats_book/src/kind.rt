ghost use Rattle.std.specs.Prelude.{◌≡◌};
ghost use Rattle.std.proofs.Common.{rules};
ghost use Rattle.std.specs.Cmp.{partial_order_from_own_ties};
ghost use Rattle.std.specs.Cmp.Rules.{comparing};
ghost use Rattle.std.specs.Ordering.{as_partial_cmp};
ghost use Rattle.bmp_specs.specs.StatKind.{kind_cmp, kind_of, stat_of};

use std::cmp::Ordering;
use std::marker::Model;
use wire_tables::Stat;

// Which statistic it is, without its value.
#[derive(Clone, Copy, PartialEq, Eq)]
pub(crate) struct Kind {
    code: u16,
    afi: u16,
    safi: u8,
}

impl Model for Kind {
    ghost use Rattle.bmp_specs.specs.StatKind.{KindValue};

    ghost Value = { KindValue };

    ghost view = { λ k. record { code = k.code; afi = k.afi; safi = k.safi } };

    ghost inverse = { λ v. record { code = v.code; afi = v.afi; safi = v.safi } };
}

impl Kind {
    pub(crate) fn of(stat: &Stat) -> Kind
        ensures { result ≡ kind_of stat.now }
    {
        Kind {
            code: stat.code,
            afi: stat.afi,
            safi: stat.safi,
        }
    }

    // The statistic with this value.
    pub(crate) fn with(self, value: u64) -> Stat
        ensures { result ≡ stat_of self value }
    {
        Stat {
            code: self.code,
            afi: self.afi,
            safi: self.safi,
            value,
        }
    }
}

impl Ord for Kind {
    ghost cmp = { kind_cmp };

    ghost total = { Prim.search (comparing, rules) depth 9 };

    ghost matches_partial_cmp = { Prim.search (comparing, rules) depth 9 };

    ghost matches_eq = { Prim.search (comparing, rules) depth 9 };

    fn cmp(&self, other: &Kind) -> Ordering {
        self.code
            .cmp(&other.code)
            .then(self.afi.cmp(&other.afi))
            .then(self.safi.cmp(&other.safi))
    }
}

impl PartialOrd for Kind {
    ghost partial_cmp = { as_partial_cmp kind_cmp };

    ghost laws = { partial_order_from_own_ties (Prim.search (comparing, rules) depth 9) (Prim.search (comparing, rules) depth 9) };

    fn partial_cmp(&self, other: &Kind) -> Option<Ordering> {
        Some(self.cmp(other))
    }
}
