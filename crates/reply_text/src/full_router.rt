//! The line of a router with all that its last connection told.
ghost use Rattle.std.specs.Prelude.{◌≡◌, ◌++◌, [], ◌∷◌, None, codes, map};
ghost use Rattle.ask_specs.specs.FullRouters.{counted_fields, endpoint_text, family_count_text, full_router_line, opening_fields, passed_fields};
ghost use Rattle.bmp_specs.specs.Lines.{further};
ghost use Rattle.bmp_specs.specs.NumberText.{number_text};
ghost use Rattle.bmp_specs.specs.RouteLine.{comma, comma_list, text_or_absent};
ghost use Rattle.bmp_specs.specs.Session.{live, shut};
ghost use Rattle.reply_text.specs.FullRouter.{lane_state};
ghost use Rattle.reply_text.specs.Pieces.{behind, cause_counts, spaced};
ghost use Rattle.wire_io.specs.Writes.{Writes};

use crate::lines::put_cause_fields;
use crate::router::{put_counted, put_state};
use bmp_specs::{Cause, Family};
use ip_prefix::Endpoint;
use itoa::Buffer;
use rib_model::Opening;
use stats_book::{Connection, FamilyCount, Passed};
use wire_io::{Failed, Sink, write_all, write_pieces};

/// Whether a lane has a connection.
#[derive(Clone, Copy, Debug, PartialEq, Eq)]
pub enum ConnectionState {
    /// It never had one.
    Idle,

    /// It has one.
    Live,

    /// Its last one was closed.
    Closed(Cause),
}

/// Writes the line of the router of a lane with all that its last connection told: from where it came, when
/// it was opened and closed, what it counted, what the router calls itself (RFC 7854, section 4.4), and which
/// parts of its messages were passed over. Where a write fails, a front of the line was written.
pub fn put_full_router<O: Sink>(
    out: &mut O,
    lane: u32,
    state: ConnectionState,
    connection: &Connection<'_>,
) -> Result<(), Failed>
    ensures { Writes O.faults O.told O.aside out.old (full_router_line lane (lane_state state) connection.now) result out.new }
{
    match state {
        ConnectionState::Idle => put_state(out, lane, b"idle from=- since=- until=-\n"),
        ConnectionState::Live => put_live(out, lane, connection),
        ConnectionState::Closed(cause) => put_closed(out, lane, cause, connection),
    }
}

// Writes the line of a lane with a connection.
fn put_live<O: Sink>(out: &mut O, lane: u32, connection: &Connection<'_>) -> Result<(), Failed>
    ensures { Writes O.faults O.told O.aside out.old (full_router_line lane live connection.now) result out.new }
{
    put_state(out, lane, b"live")?;
    put_open_connection(out, connection)
}

// Writes what an open connection told, and the end of the line.
fn put_open_connection<O: Sink>(out: &mut O, connection: &Connection<'_>) -> Result<(), Failed>
    ensures { Writes O.faults O.told O.aside out.old (further (counted_fields connection.now.up connection.now.counts connection.now.name connection.now.descr
        ++ (opening_fields connection.now.came None ++ passed_fields connection.now.passed))) result out.new }
{
    put_counted(
        out,
        connection.peers,
        &connection.counts,
        connection.name,
        connection.descr,
    )?;
    put_opening(out, &connection.came, None)?;
    put_passed(out, connection.passed)
}

// Writes the line of a lane whose last connection was closed.
fn put_closed<O: Sink>(
    out: &mut O,
    lane: u32,
    cause: Cause,
    connection: &Connection<'_>,
) -> Result<(), Failed>
    ensures { Writes O.faults O.told O.aside out.old (full_router_line lane (shut cause) connection.now) result out.new }
{
    put_state(out, lane, b"closed")?;
    put_cause_fields(out, cause)?;
    put_closed_connection(out, connection)
}

// Writes what a closed connection told, and the end of the line.
fn put_closed_connection<O: Sink>(out: &mut O, connection: &Connection<'_>) -> Result<(), Failed>
    ensures { Writes O.faults O.told O.aside out.old (further (opening_fields connection.now.came connection.now.until
        ++ (counted_fields connection.now.up connection.now.counts connection.now.name connection.now.descr ++ passed_fields connection.now.passed))) result out.new }
{
    put_opening(out, &connection.came, connection.until)?;
    put_counted(
        out,
        connection.peers,
        &connection.counts,
        connection.name,
        connection.descr,
    )?;
    put_passed(out, connection.passed)
}

// Writes from where a connection came, when it was opened, and when it was closed.
fn put_opening<O: Sink>(out: &mut O, came: &Opening, until: Option<u64>) -> Result<(), Failed>
    ensures { Writes O.faults O.told O.aside out.old (spaced (opening_fields came.now until)) result out.new }
{
    put_from(out, &came.from)?;
    put_time(out, b" since=", came.since)?;
    put_time(out, b" until=", until)
}

// Writes the field of from where a connection came.
fn put_from<O: Sink>(out: &mut O, from: &Option<Endpoint>) -> Result<(), Failed>
    ensures { Writes O.faults O.told O.aside out.old (codes " from=" ++ text_or_absent endpoint_text from.now) result out.new }
{
    match from {
        None => write_all(out, b" from=-"),
        Some(endpoint) => put_endpoint(out, endpoint),
    }
}

// Writes the field of an address and a port. An IPv6 address stands in brackets (RFC 3986, section 3.2.2).
fn put_endpoint<O: Sink>(out: &mut O, endpoint: &Endpoint) -> Result<(), Failed>
    ensures { Writes O.faults O.told O.aside out.old (codes " from=" ++ endpoint_text endpoint.now) result out.new }
{
    let address = endpoint.address.text();
    let mut buffer = Buffer::new();
    let port = buffer.format(endpoint.port).as_bytes();
    match endpoint.address.family() {
        Family::V4 => write_pieces(out, &[b" from=", address.as_slice(), b":", port]),
        Family::V6 => write_pieces(out, &[b" from=[", address.as_slice(), b"]:", port]),
    }
}

// Writes a time, in seconds since 1970, after the text before it.
fn put_time<O: Sink>(out: &mut O, before: &[u8], seconds: Option<u64>) -> Result<(), Failed>
    ensures { Writes O.faults O.told O.aside out.old (before.now ++ text_or_absent number_text seconds) result out.new }
{
    match seconds {
        None => write_pieces(out, &[before, b"-"]),
        Some(seconds) => {
            let mut buffer = Buffer::new();
            write_pieces(out, &[before, buffer.format(seconds).as_bytes()])
        }
    }
}

// Writes the parts that were passed over, and the end of the line.
fn put_passed<O: Sink>(out: &mut O, passed: &Passed) -> Result<(), Failed>
    ensures { Writes O.faults O.told O.aside out.old (further (passed_fields passed.now)) result out.new }
{
    put_cause_counts(out, passed)?;
    put_families(out, passed.others())?;
    put_more(out, passed.more())
}

// Writes how many parts were passed over for each cause but a family.
fn put_cause_counts<O: Sink>(out: &mut O, passed: &Passed) -> Result<(), Failed>
    ensures { Writes O.faults O.told O.aside out.old (spaced (cause_counts passed.now)) result out.new }
{
    write_pieces(
        out,
        &[
            b" tlvs=",
            Buffer::new().format(passed.tlvs()).as_bytes(),
            b" stats=",
            Buffer::new().format(passed.stats()).as_bytes(),
            b" malformed=",
            Buffer::new().format(passed.malformed()).as_bytes(),
        ],
    )
}

// Writes a family and its count after the text before them.
fn put_family<O: Sink>(out: &mut O, before: &[u8], count: &FamilyCount) -> Result<(), Failed>
    ensures { Writes O.faults O.told O.aside out.old (before.now ++ family_count_text count.now) result out.new }
{
    write_pieces(
        out,
        &[
            before,
            Buffer::new().format(count.family.afi).as_bytes(),
            b"/",
            Buffer::new().format(count.family.safi).as_bytes(),
            b":",
            Buffer::new().format(count.count).as_bytes(),
        ],
    )
}

// Writes families and their counts, each after a comma.
fn put_further_families<O: Sink>(out: &mut O, counts: &[FamilyCount]) -> Result<(), Failed>
    ensures { Writes O.faults O.told O.aside out.old (behind comma (map family_count_text counts.now)) result out.new }
{
    for count in counts {
        put_family(out, b",", count)?;
    }
    Ok(())
}

// Writes the field of the families that were passed over (RFC 4760, section 3).
fn put_families<O: Sink>(out: &mut O, counts: &[FamilyCount]) -> Result<(), Failed>
    ensures { Writes O.faults O.told O.aside out.old (codes " others=" ++ comma_list (map family_count_text counts.now)) result out.new }
{
    match counts {
        [] => write_all(out, b" others=-"),
        [first, rest @ ..] => {
            put_family(out, b" others=", first)?;
            put_further_families(out, rest)
        }
    }
}

// Writes how often families were passed over that have no count of their own, and the end of the line.
fn put_more<O: Sink>(out: &mut O, more: u64) -> Result<(), Failed>
    ensures { Writes O.faults O.told O.aside out.old (codes " more=" ++ (number_text more ++ codes "\n")) result out.new }
{
    write_pieces(
        out,
        &[b" more=", Buffer::new().format(more).as_bytes(), b"\n"],
    )
}
