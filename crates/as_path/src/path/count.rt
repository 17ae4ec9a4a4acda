ghost use Rattle.std.specs.Prelude.{◌≡◌, ◌<◌, ◌^◌};
ghost use Rattle.bmp_specs.specs.MergedPath.{count_of, path_count};

use crate::path::AsPath;
use crate::segment::Segment;
use bmp_specs::SegmentKind;

// How many AS numbers a segment counts for.
fn segment_count(segment: &Segment) -> u64
    ensures { result ≡ count_of segment.now.kind segment.now.numbers }
{
    match segment.kind {
        SegmentKind::Set => 1,
        SegmentKind::Sequence => segment.numbers.as_slice().len() as u64,
        SegmentKind::ConfedSequence | SegmentKind::ConfedSet => 0,
    }
}

// How many AS numbers the segments count for. As many segments as memory can hold never reach the end of a `u128`.
pub(super) fn total_count(segments: &[Segment]) -> u128
    ensures { result ≡ path_count segments.now }
{
    let mut total = 0u128;
    for segment in segments {
        total += u128::from(segment_count(segment));
    }
    total
}

impl AsPath {
    /// The number of AS numbers in the path: an AS_SET counts as 1 (RFC 4271, section 9.1.2.2), an
    /// AS_SEQUENCE as its numbers, a segment of a confederation as 0 (RFC 5065, section 5.3). Looks at
    /// each segment once, and at no number.
    pub fn count(&self) -> u64
        requires { path_count self.now < 2 ^ 64 }
        ensures { result ≡ path_count self.now }
    {
        total_count(self.as_slice()) as u64
    }
}
