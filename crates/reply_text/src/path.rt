ghost use Rattle.std.specs.Prelude.{◌≡◌, ◌++◌, [], ◌∷◌, codes, map};
ghost use Rattle.bmp_specs.specs.NumberText.{number_text};
ghost use Rattle.bmp_specs.specs.RouteLine.{text_or_absent, bracketed, segment_pieces, path_text};
ghost use Rattle.reply_text.specs.Pieces.{has_piece, goes_on, more_pieces, empty_word, link_of};
ghost use Rattle.wire_io.specs.Writes.{Writes};

use crate::lists::{put_behind, put_joined};
use as_path::{AsPath, Segment};
use bmp_specs::SegmentKind;
use wire_io::{Failed, Sink, write_all, write_pieces};

// Whether a segment has a piece: each but a sequence of no numbers.
fn has_pieces(segment: &Segment) -> bool
    ensures { result ≡ has_piece (segment_pieces segment.now) }
{
    match segment.kind {
        SegmentKind::Sequence => !segment.numbers.as_slice().is_empty(),
        _ => true,
    }
}

// Whether a piece stands before what follows the segment.
fn goes_on(some: bool, segment: &Segment) -> bool
    ensures { result ≡ goes_on some (segment_pieces segment.now) }
{
    some || has_pieces(segment)
}

// Writes the numbers of a sequence, after `_` where a piece stands before them.
fn put_sequence<O: Sink>(out: &mut O, some: bool, numbers: &[u32]) -> Result<(), Failed>
    ensures { Writes O.faults O.told O.aside out.old (more_pieces some (map number_text numbers.now)) result out.new }
{
    if some {
        put_behind(out, b'_', numbers)
    } else {
        put_joined(out, b'_', numbers)
    }
}

// What stands before a piece: `_` where another stands before it.
fn link(some: bool) -> &'static [u8]
    ensures { result.now ≡ link_of some }
{
    if some { b"_" } else { b"" }
}

// Writes the numbers within two brackets, after `_` where a piece stands before them.
fn put_bracketed<O: Sink>(
    out: &mut O,
    some: bool,
    before: u8,
    numbers: &[u32],
    after: u8,
) -> Result<(), Failed>
    ensures { Writes O.faults O.told O.aside out.old (more_pieces some (bracketed (before ∷ []) numbers.now (after ∷ []) ∷ [])) result out.new }
{
    write_pieces(out, &[link(some), &[before]])?;
    put_joined(out, b',', numbers)?;
    write_all(out, &[after])
}

// Writes a segment (RFC 4271, section 4.3; RFC 5065, section 3), after `_` where a piece stands before it.
fn put_segment<O: Sink>(out: &mut O, some: bool, segment: &Segment) -> Result<(), Failed>
    ensures { Writes O.faults O.told O.aside out.old (more_pieces some (segment_pieces segment.now)) result out.new }
{
    let numbers = segment.numbers.as_slice();
    match segment.kind {
        SegmentKind::Sequence => put_sequence(out, some, numbers),
        SegmentKind::Set => put_bracketed(out, some, b'{', numbers, b'}'),
        SegmentKind::ConfedSequence => put_bracketed(out, some, b'(', numbers, b')'),
        SegmentKind::ConfedSet => put_bracketed(out, some, b'[', numbers, b']'),
    }
}

// Writes `empty` where no piece was written.
fn put_empty<O: Sink>(out: &mut O, some: bool) -> Result<(), Failed>
    ensures { Writes O.faults O.told O.aside out.old (empty_word some) result out.new }
{
    if some {
        return Ok(());
    }
    write_all(out, b"empty")
}

// Writes the pieces of the segments, or `empty` where there are none.
fn put_segments<O: Sink>(out: &mut O, segments: &[Segment]) -> Result<(), Failed>
    ensures { Writes O.faults O.told O.aside out.old (path_text segments.now) result out.new }
{
    let mut some = false;
    for segment in segments {
        put_segment(out, some, segment)?;
        some = goes_on(some, segment);
    }
    put_empty(out, some)
}

// Writes the field of AS_PATH (RFC 4271, section 5.1.2).
pub(crate) fn put_path<O: Sink>(out: &mut O, path: &Option<AsPath>) -> Result<(), Failed>
    ensures { Writes O.faults O.told O.aside out.old (codes " path=" ++ text_or_absent path_text path.now) result out.new }
{
    match path {
        None => write_all(out, b" path=-"),
        Some(path) => {
            write_all(out, b" path=")?;
            put_segments(out, path.as_slice())
        }
    }
}
