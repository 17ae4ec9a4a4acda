ghost use Rattle.std.specs.Prelude.{◌≡◌, IfOk};

use crate::numbers::Numbers;
use bmp_specs::SegmentKind;
use std::marker::Model;
use wire_io::NoMemory;

/// A path segment (RFC 4271, section 4.3).
#[derive(Debug, Drop)]
pub struct Segment {
    /// "path segment type".
    pub kind: SegmentKind,

    /// "path segment value": the AS numbers, in the order of the wire.
    pub numbers: Numbers,
}

impl Model for Segment {
    ghost use Rattle.bmp_specs.specs.Values.{SegmentValue};

    ghost Value = { SegmentValue };

    ghost view = { λ segment. record { kind = segment.kind; numbers = segment.numbers } };
}

impl Segment {
    /// An equal segment.
    pub fn copy(&self) -> Result<Segment, NoMemory>
        ensures { IfOk result (λ copy. copy ≡ self.now) }
    {
        Ok(Segment {
            kind: self.kind,
            numbers: self.numbers.copy()?,
        })
    }
}
