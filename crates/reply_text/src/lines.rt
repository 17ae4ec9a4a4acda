ghost use Rattle.std.specs.Prelude.{◌≡◌, ◌++◌, [], ◌∷◌};
ghost use Rattle.bmp_specs.specs.ChangeLines.{missed_line, steps_line};
ghost use Rattle.bmp_specs.specs.Lines.{at_line, end_line, further, why_text, cause_fields, stop_line};
ghost use Rattle.bmp_specs.specs.NumberText.{number_text};
ghost use Rattle.bmp_specs.specs.PeerLines.{count_line, lane_line};
ghost use Rattle.reply_text.specs.Pieces.{spaced};
ghost use Rattle.wire_io.specs.Writes.{Writes};

use bmp_specs::{Cause, Why};
use itoa::Buffer;
use wire_io::{Failed, Sink, write_all, write_pieces};

/// Writes the first line of a reply: the revision of the history that it speaks of. Where a write fails, a
/// front of the line was written.
pub fn put_at<O: Sink>(out: &mut O, rev: u64) -> Result<(), Failed>
    ensures { Writes O.faults O.told O.aside out.old (at_line rev) result out.new }
{
    write_pieces(out, &[b"at ", Buffer::new().format(rev).as_bytes(), b"\n"])
}

/// Writes the last line of a reply: the number of its rows. Where a write fails, a front of the line was
/// written.
pub fn put_end<O: Sink>(out: &mut O, rows: u64) -> Result<(), Failed>
    ensures { Writes O.faults O.told O.aside out.old (end_line rows) result out.new }
{
    write_pieces(
        out,
        &[b"end ", Buffer::new().format(rows).as_bytes(), b"\n"],
    )
}

/// Writes the line of `count`: how many rows there are. Where a write fails, a front of the line was
/// written.
pub fn put_count<O: Sink>(out: &mut O, rows: u64) -> Result<(), Failed>
    ensures { Writes O.faults O.told O.aside out.old (count_line rows) result out.new }
{
    write_pieces(
        out,
        &[b"count ", Buffer::new().format(rows).as_bytes(), b"\n"],
    )
}

/// Writes the line of a lane: how many entries it has. Where a write fails, a front of the line was
/// written.
pub fn put_lane<O: Sink>(out: &mut O, lane: u32, entries: u64) -> Result<(), Failed>
    ensures { Writes O.faults O.told O.aside out.old (lane_line lane entries) result out.new }
{
    put_lane_number(out, b"lane ", lane, entries)
}

/// Writes the line of how many steps a lane made. Where a write fails, a front of the line was written.
pub fn put_steps<O: Sink>(out: &mut O, lane: u32, total: u64) -> Result<(), Failed>
    ensures { Writes O.faults O.told O.aside out.old (steps_line lane total) result out.new }
{
    put_lane_number(out, b"steps ", lane, total)
}

/// Writes the line of how many of the steps that were asked for are no longer kept. Where a write fails,
/// a front of the line was written.
pub fn put_missed<O: Sink>(out: &mut O, steps: u64) -> Result<(), Failed>
    ensures { Writes O.faults O.told O.aside out.old (missed_line steps) result out.new }
{
    write_pieces(
        out,
        &[b"missed ", Buffer::new().format(steps).as_bytes(), b"\n"],
    )
}

// Writes a lane and a number of it after the text before them, and the end of the line.
fn put_lane_number<O: Sink>(
    out: &mut O,
    before: &[u8],
    lane: u32,
    number: u64,
) -> Result<(), Failed>
    ensures { Writes O.faults O.told O.aside out.old (before.now ++ (number_text lane ++ further (number_text number ∷ []))) result out.new }
{
    write_pieces(
        out,
        &[
            before,
            Buffer::new().format(lane).as_bytes(),
            b" ",
            Buffer::new().format(number).as_bytes(),
            b"\n",
        ],
    )
}

/// Writes the stop line: why the stream stopped, and where. Where a write fails, a front of the line was
/// written.
pub fn put_stop<O: Sink>(out: &mut O, cause: &Cause) -> Result<(), Failed>
    ensures { Writes O.faults O.told O.aside out.old (stop_line cause.now) result out.new }
{
    write_all(out, b"stop")?;
    put_cause(out, *cause)
}

// The word for the rule that is broken.
fn why_word(why: Why) -> &'static [u8]
    ensures { result.now ≡ why_text why }
{
    match why {
        Why::Version => b"version",
        Why::Length => b"length",
        Why::Body => b"body",
    }
}

// Writes the fields of a cause.
pub(crate) fn put_cause_fields<O: Sink>(out: &mut O, cause: Cause) -> Result<(), Failed>
    ensures { Writes O.faults O.told O.aside out.old (spaced (cause_fields cause)) result out.new }
{
    let mut buffer = Buffer::new();
    match cause {
        Cause::Ended => write_all(out, b" ended"),
        Cause::Terminated => write_all(out, b" terminated"),
        Cause::CutShort { offset } => {
            let offset = buffer.format(offset).as_bytes();
            write_pieces(out, &[b" cutshort ", offset])
        }
        Cause::Broken { offset, why } => {
            let offset = buffer.format(offset).as_bytes();
            write_pieces(out, &[b" broken ", offset, b" ", why_word(why)])
        }
        Cause::ReadFault { offset } => {
            let offset = buffer.format(offset).as_bytes();
            write_pieces(out, &[b" readfault ", offset])
        }
        Cause::Full => write_all(out, b" full"),
    }
}

// Writes the fields of a cause and the end of the line.
pub(crate) fn put_cause<O: Sink>(out: &mut O, cause: Cause) -> Result<(), Failed>
    ensures { Writes O.faults O.told O.aside out.old (further (cause_fields cause)) result out.new }
{
    put_cause_fields(out, cause)?;
    write_all(out, b"\n")
}
