ghost use Rattle.std.specs.Prelude.{◌≡◌, ◌++◌, ◌∷◌, [], Some, codes, false, filter_map, flat_map, option_to_list};
ghost use Rattle.bmp_specs.specs.AsPath.{segment_type};
ghost use Rattle.bmp_specs.specs.PeerText.{hex_text};
ghost use Rattle.bmp_specs.specs.RouteLine.{comma_list};
ghost use Rattle.byteorder.specs.Endian.{big_bytes};
ghost use Rattle.ask_specs.specs.FullLine.{is_divided_plainly, is_raw, raw_of, raw_path, raw_text, segment_octets};
ghost use Rattle.reply_text.specs.Pieces.{absent_word, comma_of, goes_on, has_piece, more_texts};
ghost use Rattle.reply_text.specs.Raw.{is_sequence, segment_begins_plainly};
ghost use Rattle.wire_io.specs.Writes.{Writes};

use crate::hop::put_hex;
use crate::lists::{comma, put_absent, put_code};
use crate::own::{Own, is_formed};
use as_path::{AsPath, Segment};
use bmp_specs::SegmentKind;
use path_attrs::{Attrs, Other};
use wire_io::{Failed, Sink, write_all};

// Whether the text of a path says where a segment begins, by whether a sequence stands before it.
fn begins_plainly(after_sequence: bool, segment: &Segment) -> bool
    ensures { result ≡ segment_begins_plainly after_sequence segment.now }
{
    match segment.kind {
        SegmentKind::Sequence => !after_sequence && !segment.numbers.as_slice().is_empty(),
        _ => true,
    }
}

// Whether a segment is a sequence.
fn is_sequence(segment: &Segment) -> bool
    ensures { result ≡ is_sequence segment.now.kind }
{
    match segment.kind {
        SegmentKind::Sequence => true,
        _ => false,
    }
}

// Whether the text of a path says how it is divided: no sequence is empty, and none follows another.
fn is_divided_plainly(segments: &[Segment]) -> bool
    ensures { result ≡ is_divided_plainly false segments.now }
{
    let mut after_sequence = false;
    for segment in segments {
        if !begins_plainly(after_sequence, segment) {
            return false;
        }
        after_sequence = is_sequence(segment);
    }
    true
}

// The code of a segment's kind on the wire (RFC 4271, section 4.3; RFC 5065, section 3).
fn segment_type(kind: SegmentKind) -> u8
    ensures { result ≡ segment_type kind }
{
    match kind {
        SegmentKind::Set => 1,
        SegmentKind::Sequence => 2,
        SegmentKind::ConfedSequence => 3,
        SegmentKind::ConfedSet => 4,
    }
}

// Writes the numbers in hexadecimal, four octets each.
fn put_number_octets<O: Sink>(out: &mut O, numbers: &[u32]) -> Result<(), Failed>
    ensures { Writes O.faults O.told O.aside out.old (flat_map (λ number. hex_text (big_bytes 4 number)) numbers.now) result out.new }
{
    for number in numbers {
        put_hex(out, &number.to_be_bytes())?;
    }
    Ok(())
}

// Writes a segment in hexadecimal, in four-octet form.
fn put_segment_octets<O: Sink>(out: &mut O, segment: &Segment) -> Result<(), Failed>
    ensures { Writes O.faults O.told O.aside out.old (hex_text (segment_octets segment.now)) result out.new }
{
    let numbers = segment.numbers.as_slice();
    put_hex(
        out,
        &[segment_type(segment.kind), (numbers.len() % 256) as u8],
    )?;
    put_number_octets(out, numbers)
}

// Writes a path in hexadecimal, in four-octet form.
fn put_path_octets<O: Sink>(out: &mut O, segments: &[Segment]) -> Result<(), Failed>
    ensures { Writes O.faults O.told O.aside out.old (flat_map (λ segment. hex_text (segment_octets segment)) segments.now) result out.new }
{
    for segment in segments {
        put_segment_octets(out, segment)?;
    }
    Ok(())
}

// Writes a path whose text doesn't say how it is divided.
fn put_raw_segments<O: Sink>(out: &mut O, segments: &[Segment]) -> Result<(), Failed>
    ensures { Writes O.faults O.told O.aside out.old (more_texts false (raw_path (Some segments.now))) result out.new }
{
    if is_divided_plainly(segments) {
        return Ok(());
    }
    write_all(out, b"2:")?;
    put_path_octets(out, segments)
}

// Writes a path, if its text doesn't say how it is divided.
fn put_raw_path<O: Sink>(out: &mut O, path: &Option<AsPath>) -> Result<(), Failed>
    ensures { Writes O.faults O.told O.aside out.old (more_texts false (raw_path path.now)) result out.new }
{
    match path {
        None => Ok(()),
        Some(path) => put_raw_segments(out, path.as_slice()),
    }
}

// Whether a path has a text that doesn't say how it is divided.
pub(crate) fn has_raw_path(path: &Option<AsPath>) -> bool
    ensures { result ≡ has_piece (raw_path path.now) }
{
    match path {
        None => false,
        Some(path) => !is_divided_plainly(path.as_slice()),
    }
}

// Whether an attribute has no field of its own, or a value that is malformed.
fn is_raw(other: &Other) -> bool
    ensures { result ≡ is_raw other.now }
{
    let value = other.value.as_slice();
    match other.code {
        9 => !is_formed(Own::Originator, value),
        10 => !is_formed(Own::Clusters, value),
        16 => !is_formed(Own::Extended, value),
        26 => !is_formed(Own::Aigp, value),
        32 => !is_formed(Own::Large, value),
        35 => !is_formed(Own::Otc, value),
        _ => true,
    }
}

// Writes the type code of an attribute and its value in hexadecimal, after the text before them.
fn put_raw_text<O: Sink>(out: &mut O, some: bool, other: &Other) -> Result<(), Failed>
    ensures { Writes O.faults O.told O.aside out.old (comma_of some ++ raw_text other.now.code other.now.value) result out.new }
{
    put_code(out, comma(some), other)?;
    write_all(out, b":")?;
    put_hex(out, other.value.as_slice())
}

// Writes the attribute, if no other field tells its value, after a comma where a text stands before it.
fn put_if_raw<O: Sink>(out: &mut O, some: bool, other: &Other) -> Result<(), Failed>
    ensures { Writes O.faults O.told O.aside out.old (more_texts some (option_to_list (raw_of other.now))) result out.new }
{
    if !is_raw(other) {
        return Ok(());
    }
    put_raw_text(out, some, other)
}

// Whether a text stands before what follows the attribute.
fn goes_on(some: bool, other: &Other) -> bool
    ensures { result ≡ goes_on some (option_to_list (raw_of other.now)) }
{
    some || is_raw(other)
}

// Writes the attributes whose value no other field tells, after a comma where a text stands before them, or `-` where there
// is no text.
fn put_raw_others<O: Sink>(out: &mut O, begun: bool, others: &[Other]) -> Result<(), Failed>
    ensures { Writes O.faults O.told O.aside out.old (more_texts begun (filter_map raw_of others.now) ++ absent_word (goes_on begun (filter_map raw_of others.now))) result out.new }
{
    let mut some = begun;
    for other in others {
        put_if_raw(out, some, other)?;
        some = goes_on(some, other);
    }
    put_absent(out, some)
}

// Writes the field of what no other field tells whole.
pub(crate) fn put_raw<O: Sink>(out: &mut O, attrs: &Attrs) -> Result<(), Failed>
    ensures { Writes O.faults O.told O.aside out.old (codes " raw=" ++ comma_list (raw_path attrs.now.path ++ filter_map raw_of attrs.now.others)) result out.new }
{
    write_all(out, b" raw=")?;
    put_raw_path(out, &attrs.path)?;
    put_raw_others(out, has_raw_path(&attrs.path), attrs.others.as_slice())
}
