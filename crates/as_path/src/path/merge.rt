ghost use Rattle.std.specs.Prelude.{◌≡◌, ◌++◌, OnOk, IfOk};
ghost use Rattle.as_path.specs.Leading.{Takes};
ghost use Rattle.bmp_specs.specs.MergedPath.{lead, merged_path};

use crate::numbers::Numbers;
use crate::path::count::total_count;
use crate::path::{AsPath, append};
use crate::segment::Segment;
use bmp_specs::SegmentKind;
use std::alloc::Global;
use wire_io::{List, NoMemory};

// What the leading part of a path takes of one segment.
enum Taken {
    // All of it. So many AS numbers are still to come.
    Whole(u128),

    // Its first numbers, so many. Then the part is complete.
    Front(usize),

    // The part was complete before it.
    Nothing,
}

// What the leading part of so many AS numbers takes of the segment that it has come to.
fn take_part(left: u128, segment: &Segment) -> Taken
    ensures { Takes left segment.now result }
{
    match segment.kind {
        SegmentKind::ConfedSequence | SegmentKind::ConfedSet => Taken::Whole(left),
        _ if left == 0 => Taken::Nothing,
        SegmentKind::Set => Taken::Whole(left - 1),
        SegmentKind::Sequence => {
            let count = segment.numbers.as_slice().len();
            if count as u128 <= left {
                Taken::Whole(left - count as u128)
            } else {
                Taken::Front(left as usize)
            }
        }
    }
}

// Appends the leading part of the segments, of so many AS numbers.
fn append_lead(
    alloc: Global,
    path: &mut List<Segment>,
    count: u128,
    segments: &[Segment],
) -> Result<(), NoMemory>
    ensures { OnOk result (path.new ≡ path.old ++ lead count segments.now) }
{
    let mut left = count;
    for segment in segments {
        match take_part(left, segment) {
            Taken::Whole(rest) => {
                path.push(segment.copy()?)?;
                left = rest;
            }
            Taken::Front(count) => {
                let numbers = Numbers::from_slice(alloc, &segment.numbers.as_slice()[..count])?;
                path.push(Segment {
                    kind: SegmentKind::Sequence,
                    numbers,
                })?;
                return Ok(());
            }
            Taken::Nothing => return Ok(()),
        }
    }
    Ok(())
}

impl AsPath {
    /// The path of AS_PATH, `short`, whose numbers have two bytes, and AS4_PATH, `long`, without its
    /// confederation segments (RFC 6793, section 4.2.3). Where `short` has fewer AS numbers than `long`
    /// it is `short`; else it is the leading part of `short`, followed by `long`, and has as many AS
    /// numbers as `short`. Time and memory are linear in both.
    pub fn merge(alloc: Global, short: &AsPath, long: &AsPath) -> Result<AsPath, NoMemory>
        ensures { IfOk result (λ path. path ≡ merged_path short.now long.now) }
    {
        let ours = total_count(short.as_slice());
        let theirs = total_count(long.as_slice());
        if ours < theirs {
            return short.copy();
        }
        let room = short.as_slice().len().saturating_add(long.as_slice().len());
        let mut segments = List::with_capacity(alloc, room)?;
        append_lead(alloc, &mut segments, ours - theirs, short.as_slice())?;
        append(&mut segments, long.as_slice())?;
        Ok(AsPath { segments })
    }
}
