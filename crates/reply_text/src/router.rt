ghost use Rattle.std.specs.Prelude.{◌≡◌, ◌++◌, [], ◌∷◌, codes};
ghost use Rattle.ask_specs.specs.FullRouters.{counted_fields};
ghost use Rattle.bmp_specs.specs.NumberText.{number_text};
ghost use Rattle.bmp_specs.specs.PeerLines.{closed_line, live_line};
ghost use Rattle.reply_text.specs.Pieces.{counts_fields, name_fields, spaced};
ghost use Rattle.reply_text.specs.Router.{router_line};
ghost use Rattle.wire_io.specs.Writes.{Writes};

use crate::escaped::put_text;
use crate::lines::put_cause;
use bmp_specs::Cause;
use itoa::Buffer;
use stats_book::Counts;
use wire_io::{Failed, Sink, write_all, write_pieces};

/// What there is to tell of the router of a lane.
#[derive(Clone, Copy)]
pub enum RouterState<'a> {
    /// It never had a connection.
    Idle,

    /// Its last connection was closed.
    Closed(Cause),

    /// It has a connection.
    Live(RouterLine<'a>),
}

/// What a connection told of its router.
#[derive(Clone, Copy)]
pub struct RouterLine<'a> {
    /// How many of its peers are up.
    pub peers: u64,

    /// What the session counts.
    pub counts: Counts,

    /// sysName (RFC 7854, section 4.4).
    pub name: &'a [u8],

    /// sysDescr (RFC 7854, section 4.4).
    pub descr: &'a [u8],
}

/// Writes the line of the router of a lane. What it calls itself is written as visible ASCII without
/// spaces, any other byte as `%` and two digits. Where a write fails, a front of the line was written.
pub fn put_router<O: Sink>(out: &mut O, lane: u32, state: &RouterState<'_>) -> Result<(), Failed>
    ensures { Writes O.faults O.told O.aside out.old (router_line lane state.now) result out.new }
{
    match state {
        RouterState::Idle => put_state(out, lane, b"idle\n"),
        RouterState::Closed(cause) => put_closed(out, lane, *cause),
        RouterState::Live(line) => put_live(out, lane, line),
    }
}

// Writes the fields of a lane and of its state.
pub(crate) fn put_state<O: Sink>(out: &mut O, lane: u32, state: &[u8]) -> Result<(), Failed>
    ensures { Writes O.faults O.told O.aside out.old (codes "router" ++ spaced (number_text lane ∷ state.now ∷ [])) result out.new }
{
    write_pieces(
        out,
        &[
            b"router ",
            Buffer::new().format(lane).as_bytes(),
            b" ",
            state,
        ],
    )
}

// Writes the line of a lane whose last connection was closed.
fn put_closed<O: Sink>(out: &mut O, lane: u32, cause: Cause) -> Result<(), Failed>
    ensures { Writes O.faults O.told O.aside out.old (closed_line lane cause) result out.new }
{
    put_state(out, lane, b"closed")?;
    put_cause(out, cause)
}

// Writes the line of a lane with a connection.
fn put_live<O: Sink>(out: &mut O, lane: u32, line: &RouterLine<'_>) -> Result<(), Failed>
    ensures { Writes O.faults O.told O.aside out.old (live_line lane line.now.peers line.now.counts line.now.name.now line.now.descr.now) result out.new }
{
    put_state(out, lane, b"live")?;
    put_counted(out, line.peers, &line.counts, line.name, line.descr)?;
    write_all(out, b"\n")
}

// Writes the fields of what a connection counted and of what its router calls itself.
pub(crate) fn put_counted<O: Sink>(
    out: &mut O,
    peers: u64,
    counts: &Counts,
    name: &[u8],
    descr: &[u8],
) -> Result<(), Failed>
    ensures { Writes O.faults O.told O.aside out.old (spaced (counted_fields peers counts.now name.now descr.now)) result out.new }
{
    put_counts(out, peers, counts)?;
    put_names(out, name, descr)
}

// Writes the fields of how many peers are up and of the counts of a session.
fn put_counts<O: Sink>(out: &mut O, peers: u64, counts: &Counts) -> Result<(), Failed>
    ensures { Writes O.faults O.told O.aside out.old (spaced (counts_fields peers counts.now)) result out.new }
{
    write_pieces(
        out,
        &[
            b" peers=",
            Buffer::new().format(peers).as_bytes(),
            b" messages=",
            Buffer::new().format(counts.messages).as_bytes(),
            b" bytes=",
            Buffer::new().format(counts.bytes).as_bytes(),
            b" orphans=",
            Buffer::new().format(counts.orphans).as_bytes(),
            b" unread=",
            Buffer::new().format(counts.unread).as_bytes(),
            b" mirrored=",
            Buffer::new().format(counts.mirrored).as_bytes(),
            b" passed=",
            Buffer::new().format(counts.passed).as_bytes(),
        ],
    )
}

// Writes the fields of sysName and sysDescr (RFC 7854, section 4.4).
fn put_names<O: Sink>(out: &mut O, name: &[u8], descr: &[u8]) -> Result<(), Failed>
    ensures { Writes O.faults O.told O.aside out.old (spaced (name_fields name.now descr.now)) result out.new }
{
    put_text(out, b" name=", name)?;
    put_text(out, b" descr=", descr)
}
