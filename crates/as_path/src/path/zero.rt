ghost use Rattle.std.specs.Prelude.{◌≡◌, ◌≢◌, ◌*◌, ◌↔◌, List, Some, ℕ, length, IsTrue};
ghost use Rattle.std.specs.List.{AllByRecursion};
ghost use Rattle.bmp_specs.specs.AsPath.{as_width, AreAsNumbers, ArePath};
ghost use Rattle.bmp_specs.specs.UpdateForms.{HasNoAsZero};
ghost use Rattle.bmp_specs.specs.Values.{SegmentValue};

use crate::path::AsPath;
use crate::path::read::{HEADER_LEN, header, number, width_bytes};
use bmp_specs::Width;

// Whether none of the AS numbers that the bytes are is 0, so many of them.
fn none_zero(width: Width, count: usize, bytes: &[u8]) -> bool
    requires { length bytes.now ≡ as_width width * count }
    ensures { (asns : List ℕ) → AreAsNumbers width bytes.now asns → IsTrue result ↔ AllByRecursion (λ asn. asn ≢ 0) asns }
{
    let mut rest = bytes;
    for _ in 0..count {
        let (front, after) = rest.split_at(width_bytes(width));
        if number(width, front) == 0 {
            return false;
        }
        rest = after;
    }
    true
}

impl AsPath {
    /// Whether no AS number of the path that the bytes are is 0 (RFC 7607, section 2). Of bytes that are no
    /// path the answer says nothing. Takes no memory, and looks at each number once.
    pub fn has_no_zero(value: &[u8], width: Width) -> bool
        ensures { (path : List SegmentValue) → ArePath width value.now path → IsTrue result ↔ HasNoAsZero (Some path) }
    {
        let mut rest = value;
        while let Some((_, count)) = header(width, rest) {
            let count = count as usize;
            let (_, asns) = rest.split_at(HEADER_LEN);
            let (front, after) = asns.split_at(width_bytes(width) * count);
            if !none_zero(width, count, front) {
                return false;
            }
            rest = after;
        }
        true
    }
}
