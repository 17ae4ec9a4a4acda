//! AS_PATH in its four-octet form (RFC 4271, section 4.3; RFC 6793, section 3).
ghost use Rattle.std.specs.Prelude.{◌≡◌, ◌≤◌, ◌<◌, ◌+◌, ◌*◌, length, IfSome, IfNone, OnOk, OnErr, IsTrue, ◌↔◌};
ghost use Rattle.std.specs.List.{AllByRecursion};
ghost use Rattle.bmp_specs.specs.declared.wire.Width.{Width};
ghost use Rattle.bmp_specs.specs.AsPath.{ArePath, IsSegment, as_width, segment_type};
ghost use Rattle.bmp_specs.specs.Attributes.{Optional, as_path};
ghost use Rattle.bmp_writer.specs.Written.{Appends, Keeps};
ghost use Rattle.bmp_writer.specs.WrittenAttributes.{HasPath, IsPart, IsShortSegment, segment_size, segments_size, transitive};

use crate::attributes::{TRANSITIVE, put_head, put_numbers};
use crate::draft::{Draft, Full};
use as_path::Segment;
use bmp_specs::SegmentKind;
use path_attrs::{AS_PATH, AsPath};

// "path segment type".
fn type_of(kind: SegmentKind) -> u8
    ensures { result ≡ segment_type kind }
{
    match kind {
        SegmentKind::Set => 1,
        SegmentKind::Sequence => 2,
        SegmentKind::ConfedSequence => 3,
        SegmentKind::ConfedSet => 4,
    }
}

// One segment.
fn put_segment(out: &mut Draft<'_>, segment: &Segment) -> Result<(), Full>
    requires { IsShortSegment segment.now }
    ensures ok { OnOk result (Appends (λ bytes. IsSegment Width.Four bytes segment.now) out.old out.new) }
    ensures err { OnErr result (Keeps out.old out.new) }
{
    let numbers = segment.numbers.as_slice();
    out.extend(&[type_of(segment.kind), numbers.len() as u8])?;
    put_numbers(out, numbers)
}

// The segments, one after another.
fn put_segments(out: &mut Draft<'_>, path: &[Segment]) -> Result<(), Full>
    requires { AllByRecursion IsShortSegment path.now }
    ensures ok { OnOk result (Appends (λ bytes. ArePath Width.Four bytes path.now) out.old out.new) }
    ensures err { OnErr result (Keeps out.old out.new) }
{
    for segment in path {
        put_segment(out, segment)?;
    }
    Ok(())
}

// What is left of so many octets after a segment. None exactly where it takes more.
fn left_by_segment(room: usize, segment: &Segment) -> Option<usize>
    ensures some { IfSome result (λ left. left + segment_size segment.now ≡ room) }
    ensures none { IfNone result (room < segment_size segment.now) }
{
    let count = segment.numbers.as_slice().len();
    let left = room.checked_sub(2)?;
    if count > left / 4 {
        return None;
    }
    Some(left - 4 * count)
}

/// What is left of so many octets after the segments. None exactly where they take more.
pub(crate) fn left_by_segments(room: usize, path: &[Segment]) -> Option<usize>
    ensures some { IfSome result (λ left. left + segments_size path.now ≡ room) }
    ensures none { IfNone result (room < segments_size path.now) }
{
    let mut left = room;
    for segment in path {
        left = left_by_segment(left, segment)?;
    }
    Some(left)
}

/// How many octets the segments take.
pub(crate) fn size_of_segments(path: &[Segment]) -> usize
    requires { segments_size path.now ≤ 65535 }
    ensures { result ≡ segments_size path.now }
{
    match left_by_segments(65535, path) {
        Some(left) => 65535 - left,
        // the premise bounds the size
        None => unreachable!(),
    }
}

/// Whether each segment has at most 255 AS numbers.
pub(crate) fn are_short_segments(path: &[Segment]) -> bool
    ensures { IsTrue result ↔ AllByRecursion IsShortSegment path.now }
{
    for segment in path {
        if segment.numbers.as_slice().len() > 255 {
            return false;
        }
    }
    true
}

/// AS_PATH.
pub(crate) fn put_path(out: &mut Draft<'_>, path: &Option<AsPath>) -> Result<(), Full>
    requires { HasPath path.now }
    ensures ok { OnOk result (Appends (IsPart transitive as_path (λ value. Optional (ArePath Width.Four) value path.now)) out.old out.new) }
    ensures err { OnErr result (Keeps out.old out.new) }
{
    let Some(path) = path else {
        return Ok(());
    };
    let segments = path.as_slice();
    put_head(out, TRANSITIVE, AS_PATH, size_of_segments(segments))?;
    put_segments(out, segments)
}
