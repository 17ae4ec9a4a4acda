ghost use Rattle.std.specs.Prelude.{◌≡◌};
ghost use Rattle.ask_specs.specs.FullMarks.{full_mark_line};
ghost use Rattle.bmp_specs.specs.PeerLines.{family_text, mark_line, mark_text};
ghost use Rattle.wire_io.specs.Writes.{Writes};

use bmp_frames::{PeerKey, ViewText};
use bmp_specs::{Family, View};
use itoa::Buffer;
use wire_io::{Failed, Sink, write_pieces};

// The text of a family.
fn family_text(family: Family) -> &'static [u8]
    ensures { result.now ≡ family_text family }
{
    match family {
        Family::V4 => b"4",
        Family::V6 => b"6",
    }
}

// The word for whether a family is complete.
fn mark_text(complete: bool) -> &'static [u8]
    ensures { result.now ≡ mark_text complete }
{
    if complete { b"complete" } else { b"waiting" }
}

/// Writes the line of a mark: whether the routes of a family that a peer of this lane has in a view are
/// complete, as its End-of-RIB marker tells (RFC 4724, section 2). Where a write fails, a front of the line
/// was written.
pub fn put_mark<O: Sink>(
    out: &mut O,
    lane: u32,
    key: &PeerKey,
    view: View,
    family: Family,
    complete: bool,
) -> Result<(), Failed>
    ensures { Writes O.faults O.told O.aside out.old (mark_line lane key.now view family complete) result out.new }
{
    write_pieces(
        out,
        &[
            b"mark ",
            Buffer::new().format(lane).as_bytes(),
            b" ",
            key.text().as_slice(),
            b" ",
            view.text().as_slice(),
            b" ",
            family_text(family),
            b" ",
            mark_text(complete),
            b"\n",
        ],
    )
}

/// Writes the line of a mark as `put_mark` does, and at its end the number of rows that the peer has in the view and of
/// the family. Where a write fails, a front of the line was written.
pub fn put_full_mark<O: Sink>(
    out: &mut O,
    lane: u32,
    key: &PeerKey,
    view: View,
    family: Family,
    complete: bool,
    rows: u64,
) -> Result<(), Failed>
    ensures { Writes O.faults O.told O.aside out.old (full_mark_line lane (record { mark = record { key = key.now; view = view; family = family; complete = complete }; rows = rows })) result out.new }
{
    write_pieces(
        out,
        &[
            b"mark ",
            Buffer::new().format(lane).as_bytes(),
            b" ",
            key.text().as_slice(),
            b" ",
            view.text().as_slice(),
            b" ",
            family_text(family),
            b" ",
            mark_text(complete),
            b" rows=",
            Buffer::new().format(rows).as_bytes(),
            b"\n",
        ],
    )
}
