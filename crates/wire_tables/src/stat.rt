use std::marker::Model;

/// One statistic of a Statistics Report (RFC 7854, section 4.8). Statistics are in the order of code,
/// AFI, SAFI, value.
#[derive(Clone, Copy, Debug, PartialEq, Eq, PartialOrd, Ord)]
pub struct Stat {
    /// "Stat Type": a code of `statistic_table`.
    pub code: u16,

    /// AFI of the family that is counted; 0 where the statistic has no family.
    pub afi: u16,

    /// SAFI of the family that is counted; 0 where the statistic has no family.
    pub safi: u8,

    /// "Stat Data": the counter or the gauge.
    pub value: u64,
}

impl Model for Stat {
    ghost use Rattle.bmp_specs.specs.Values.{StatValue};

    ghost Value = { StatValue };

    ghost view = { λ s. record { code = s.code; afi = s.afi; safi = s.safi; value = s.value } };

    ghost inverse = { λ v. record { code = v.code; afi = v.afi; safi = v.safi; value = v.value } };
}
