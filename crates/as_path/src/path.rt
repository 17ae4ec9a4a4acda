ghost use Rattle.std.specs.Prelude.{◌≡◌, ◌↔◌, [], ◌∷◌, ◌++◌, IfOk, OnOk, IfErr, OnErr, IsNone, option_to_list};
ghost use Rattle.bmp_specs.specs.MergedPath.{path_origin, without_confederation, is_confederation as confederation};

mod count;
mod merge;
mod read;
mod zero;

use crate::segment::Segment;
use bmp_specs::SegmentKind;
use std::alloc::Global;
use std::marker::Model;
use wire_io::{List, NoMemory, Unplaced};

// Appends copies of the segments.
fn append(segments: &mut List<Segment>, more: &[Segment]) -> Result<(), NoMemory>
    ensures { OnOk result (segments.new ≡ segments.old ++ more.now) }
{
    for segment in more {
        segments.push(segment.copy()?)?;
    }
    Ok(())
}

// Whether a segment is one of a confederation (RFC 5065, section 3).
fn is_confederation(kind: SegmentKind) -> bool
    ensures { result ≡ confederation kind }
{
    matches!(kind, SegmentKind::ConfedSequence | SegmentKind::ConfedSet)
}

/// An AS path: a list of path segments (RFC 4271, section 4.3). It keeps its allocator. A path of one segment with up
/// to six numbers takes no memory.
#[derive(Debug, Drop)]
pub struct AsPath {
    segments: List<Segment>,
}

impl Model for AsPath {
    ghost use Rattle.std.specs.Prelude.{List as Segments};
    ghost use Rattle.bmp_specs.specs.Values.{SegmentValue};

    ghost Value = { Segments SegmentValue };

    ghost view = { λ path. path.segments };
}

impl AsPath {
    /// The empty path.
    pub fn new(alloc: Global) -> AsPath
        ensures { result ≡ [] }
    {
        AsPath {
            segments: List::new(alloc),
        }
    }

    /// Appends the segment. Out of memory, the path is as before.
    pub fn push(&mut self, item: Segment) -> Result<(), Unplaced<Segment>>
        ensures ok { OnOk result (self.new ≡ self.old ++ item ∷ []) }
        ensures err { OnErr result (self.new ≡ self.old) }
        ensures handed_back { IfErr result (λ unplaced. unplaced ≡ Unplaced.NoMemory item) }
    {
        self.segments.push(item)
    }

    /// Takes out the last segment. `None` exactly where the path is empty.
    pub fn pop(&mut self) -> Option<Segment>
        ensures last { self.old ≡ self.new ++ option_to_list result }
        ensures none { IsNone result ↔ (self.old ≡ []) }
    {
        self.segments.pop()
    }

    /// Lends the segments.
    pub fn as_slice(&self) -> &[Segment]
        ensures { result.now ≡ self.now }
    {
        self.segments.as_slice()
    }

    /// An equal path, with memory for no more.
    pub fn copy(&self) -> Result<AsPath, NoMemory>
        ensures { IfOk result (λ copy. copy ≡ self.now) }
    {
        let mut segments = self.segments.as_large()?;
        append(&mut segments, self.segments.as_slice())?;
        Ok(AsPath { segments })
    }

    /// Drops the segments of a confederation (RFC 6793, section 6).
    pub fn drop_confederation(&mut self)
        ensures { self.new ≡ without_confederation self.old }
    {
        self.segments
            .retain(|segment| !is_confederation(segment.kind));
    }

    /// The AS that originated the route: the last number of the last segment, where that is an
    /// AS_SEQUENCE with a number (RFC 6811, section 2). Else `None`.
    pub fn origin(&self) -> Option<u32>
        ensures { result ≡ path_origin self.now }
    {
        let last = self.segments.as_slice().last()?;
        match last.kind {
            SegmentKind::Sequence => last.numbers.as_slice().last().copied(),
            _ => None,
        }
    }
}
