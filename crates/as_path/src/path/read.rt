ghost use Rattle.std.specs.Prelude.{◌≡◌, ◌≤◌, ◌*◌, ◌↔◌, ℕ, List as Listed, length, IsTrue, IfSome, IfNone, IfOk, IsErrOf};
ghost use Rattle.bmp_specs.specs.AsPath.{as_width, IsAsNumber, AreAsNumbers, ArePath};
ghost use Rattle.bmp_specs.specs.Values.{SegmentValue};
ghost use Rattle.as_path.specs.Reading.{HasHeader};

use crate::numbers::Numbers;
use crate::path::AsPath;
use crate::segment::Segment;
use bmp_specs::{SegmentKind, Width};
use byteorder::{BigEndian, ByteOrder};
use std::alloc::Global;
use wire_io::{BodyFault, List, NoMemory};

// "path segment type" (RFC 4271, section 4.3; RFC 5065, section 3).
const AS_SET: u8 = 1;

const AS_SEQUENCE: u8 = 2;

const AS_CONFED_SEQUENCE: u8 = 3;

const AS_CONFED_SET: u8 = 4;

// The bytes of the path segment type and the path segment length.
pub(super) const HEADER_LEN: usize = 2;

// How many bytes an AS number has (RFC 4271, section 4.3; RFC 6793, section 3).
pub(super) fn width_bytes(width: Width) -> usize
    ensures { result ≡ as_width width }
{
    match width {
        Width::Two => 2,
        Width::Four => 4,
    }
}

// The AS number that the bytes are.
pub(super) fn number(width: Width, bytes: &[u8]) -> u32
    requires { length bytes.now ≡ as_width width }
    ensures { IsAsNumber width bytes.now result }
{
    match width {
        Width::Two => BigEndian::read_u16(bytes) as u32,
        Width::Four => BigEndian::read_u32(bytes),
    }
}

// The kind and the number of numbers of the segment at the front of the bytes. `None` exactly where no whole segment
// stands there.
pub(super) fn header(width: Width, bytes: &[u8]) -> Option<(SegmentKind, u8)>
    ensures found { IfSome result (λ h. HasHeader width bytes.now h.0 h.1) }
    ensures none { IfNone result ((kind : SegmentKind) (count : ℕ) → HasHeader width bytes.now kind count → ⊥) }
{
    let (first, count) = match bytes {
        [first, count, ..] => (*first, *count),
        _ => return None,
    };
    let kind = match first {
        AS_SET => SegmentKind::Set,
        AS_SEQUENCE => SegmentKind::Sequence,
        AS_CONFED_SEQUENCE => SegmentKind::ConfedSequence,
        AS_CONFED_SET => SegmentKind::ConfedSet,
        _ => return None,
    };
    if bytes.len() < HEADER_LEN + width_bytes(width) * count as usize {
        return None;
    }
    Some((kind, count))
}

// How many segments the path has that the bytes are. `None` exactly where they are no list of segments. It looks at the
// header of each segment once.
fn segment_count(width: Width, bytes: &[u8]) -> Option<usize>
    ensures some { IfSome result (λ count. (path : Listed SegmentValue) × ArePath width bytes.now path × (count ≡ length path)) }
    ensures within { IfSome result (λ count. count ≤ length bytes.now) }
    ensures none { IfNone result ((path : Listed SegmentValue) → ArePath width bytes.now path → ⊥) }
{
    let mut found = 0;
    let mut rest = bytes;
    while !rest.is_empty() {
        let Some((_, count)) = header(width, rest) else {
            return None;
        };
        let (_, asns) = rest.split_at(HEADER_LEN);
        let (_, after) = asns.split_at(width_bytes(width) * count as usize);
        found += 1;
        rest = after;
    }
    Some(found)
}

// The AS numbers that the bytes are, so many of them.
fn numbers(alloc: Global, width: Width, count: usize, bytes: &[u8]) -> Result<Numbers, NoMemory>
    requires { length bytes.now ≡ as_width width * count }
    ensures { IfOk result (λ numbers. AreAsNumbers width bytes.now numbers) }
{
    let mut numbers = Numbers::with_capacity(alloc, count)?;
    let mut rest = bytes;
    for _ in 0..count {
        let (front, after) = rest.split_at(width_bytes(width));
        numbers.push(number(width, front))?;
        rest = after;
    }
    Ok(numbers)
}

impl AsPath {
    /// Reads the value of an AS_PATH attribute (RFC 4271, section 4.3), or of AS4_PATH in four bytes
    /// (RFC 6793, section 3). `BodyFault::Broken` exactly where the bytes aren't a list of segments.
    /// The segments are judged and counted first, by what `is_path` does, and then made. Time and memory are
    /// linear in the bytes, and all memory is taken with its final size.
    pub fn read(alloc: Global, value: &[u8], width: Width) -> Result<AsPath, BodyFault>
        ensures ok { IfOk result (λ path. ArePath width value.now path) }
        ensures broken { IsErrOf result BodyFault.Broken → (path : Listed SegmentValue) → ArePath width value.now path → ⊥ }
    {
        let Some(found) = segment_count(width, value) else {
            return Err(BodyFault::Broken);
        };
        let mut segments = List::with_capacity(alloc, found)?;
        let mut rest = value;
        while let Some((kind, count)) = header(width, rest) {
            let count = count as usize;
            let (_, asns) = rest.split_at(HEADER_LEN);
            let (front, after) = asns.split_at(width_bytes(width) * count);
            let numbers = numbers(alloc, width, count, front)?;
            segments.push(Segment { kind, numbers })?;
            rest = after;
        }
        Ok(AsPath { segments })
    }

    /// Whether the bytes are the value of an AS_PATH attribute (RFC 4271, section 4.3), or of AS4_PATH in
    /// four bytes (RFC 6793, section 3): a list of segments. `read` gives their path exactly there, out of
    /// memory aside. Takes no memory, and looks at the header of each segment once.
    pub fn is_path(value: &[u8], width: Width) -> bool
        ensures { IsTrue result ↔ ((path : Listed SegmentValue) × ArePath width value.now path) }
    {
        segment_count(width, value).is_some()
    }
}
