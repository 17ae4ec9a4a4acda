ghost use Rattle.std.specs.Prelude.{◌≡◌, ◌++◌, [], ◌∷◌, codes, true};
ghost use Rattle.bmp_specs.specs.ChangeLines.{change_line, step_fields};
ghost use Rattle.bmp_specs.specs.Lines.{cause_fields, further};
ghost use Rattle.bmp_specs.specs.NumberText.{number_text};
ghost use Rattle.bmp_specs.specs.PeerText.{key_text, view_text};
ghost use Rattle.bmp_specs.specs.PrefixText.{prefix_text};
ghost use Rattle.bmp_specs.specs.RouteLine.{id_fields, route_fields};
ghost use Rattle.ask_specs.specs.AskReply.{further_step_fields, time_fields, told_change};
ghost use Rattle.ask_specs.specs.FullLine.{further_fields};
ghost use Rattle.reply_text.specs.Pieces.{spaced};
ghost use Rattle.rib_model.specs.Steps.{step_value};
ghost use Rattle.wire_io.specs.Writes.{Writes};

use crate::full::put_further;
use crate::lines::put_cause_fields;
use crate::route::{put_id_field, put_open_fields, put_row_key};
use bmp_frames::PeerKey;
use bmp_specs::{Cause, View};
use ip_prefix::Nlri;
use itoa::Buffer;
use path_attrs::Attrs;
use rib_model::{RowKey, Step};
use wire_io::{Failed, Sink, write_all, write_pieces};

/// Writes the line of a step of this lane, of this number. An announcement has the fields of a route line
/// from its peer on, a withdrawal those that name the route. Where a write fails, a front of the line was
/// written.
pub fn put_change<O: Sink>(out: &mut O, lane: u32, number: u64, step: &Step) -> Result<(), Failed>
    ensures { Writes O.faults O.told O.aside out.old (change_line lane (record { number = number; step = step_value step.now })) result out.new }
{
    put_numbers(out, lane, number)?;
    put_step(out, step)?;
    write_all(out, b"\n")
}

/// Writes the line of a step of this lane, of this number, with all that is known of it: the fields of `put_change` first,
/// then when it was seen and when its router told it, both `-` so far, and of an announcement all other path attributes, as
/// `put_full_route` has them. Where a write fails, a front of the line was written.
pub fn put_full_change<O: Sink>(
    out: &mut O,
    lane: u32,
    number: u64,
    step: &Step,
) -> Result<(), Failed>
    ensures { Writes O.faults O.told O.aside out.old (told_change true lane (record { number = number; step = step_value step.now })) result out.new }
{
    put_numbers(out, lane, number)?;
    put_step(out, step)?;
    put_times(out, step)
}

// Writes when a step was seen and told, which isn't known, and what a route line doesn't tell of an announcement, and the
// end of the line.
fn put_times<O: Sink>(out: &mut O, step: &Step) -> Result<(), Failed>
    ensures { Writes O.faults O.told O.aside out.old (further (time_fields ++ further_step_fields (step_value step.now))) result out.new }
{
    match step {
        Step::Announce { route, .. } => put_times_and_further(out, route),
        _ => write_all(out, b" seen=- told=-\n"),
    }
}

// Writes the times, and what a route line doesn't tell of a route.
fn put_times_and_further<O: Sink>(out: &mut O, attrs: &Attrs) -> Result<(), Failed>
    ensures { Writes O.faults O.told O.aside out.old (further (time_fields ++ further_fields attrs.now)) result out.new }
{
    write_all(out, b" seen=- told=-")?;
    put_further(out, attrs)
}

// Writes the fields of a lane and of the number of a step.
fn put_numbers<O: Sink>(out: &mut O, lane: u32, number: u64) -> Result<(), Failed>
    ensures { Writes O.faults O.told O.aside out.old (codes "change" ++ spaced (number_text lane ∷ number_text number ∷ [])) result out.new }
{
    write_pieces(
        out,
        &[
            b"change ",
            Buffer::new().format(lane).as_bytes(),
            b" ",
            Buffer::new().format(number).as_bytes(),
        ],
    )
}

// Writes the fields of what a step did.
fn put_step<O: Sink>(out: &mut O, step: &Step) -> Result<(), Failed>
    ensures { Writes O.faults O.told O.aside out.old (spaced (step_fields (step_value step.now))) result out.new }
{
    match step {
        Step::Opened => write_all(out, b" opened"),
        Step::Closed(cause) => put_closing(out, *cause),
        Step::Up(key) => write_pieces(out, &[b" up ", key.text().as_slice()]),
        Step::Down(key) => write_pieces(out, &[b" down ", key.text().as_slice()]),
        Step::Announce {
            key,
            view,
            nlri,
            route,
        } => put_announcement(out, &row_of(key, *view, nlri), route),
        Step::Withdraw { key, view, nlri } => put_withdrawal(out, &row_of(key, *view, nlri)),
    }
}

// Where a route stands.
fn row_of(key: &PeerKey, view: View, nlri: &Nlri) -> RowKey
    ensures { result ≡ record { key = key.now; view = view; nlri = nlri.now } }
{
    RowKey {
        key: *key,
        view,
        nlri: *nlri,
    }
}

// Writes the fields of a closing.
fn put_closing<O: Sink>(out: &mut O, cause: Cause) -> Result<(), Failed>
    ensures { Writes O.faults O.told O.aside out.old (spaced (codes "closed" ∷ cause_fields cause)) result out.new }
{
    write_all(out, b" closed")?;
    put_cause_fields(out, cause)
}

// Writes the fields of an announcement.
fn put_announcement<O: Sink>(out: &mut O, row: &RowKey, attrs: &Attrs) -> Result<(), Failed>
    ensures { Writes O.faults O.told O.aside out.old (spaced (codes "announce" ∷ route_fields (record { row_key = row.now; route = attrs.now }))) result out.new }
{
    write_all(out, b" announce")?;
    put_open_fields(out, row, attrs)
}

// Writes the fields of a withdrawal.
fn put_withdrawal<O: Sink>(out: &mut O, row: &RowKey) -> Result<(), Failed>
    ensures { Writes O.faults O.told O.aside out.old
        (spaced (codes "withdraw" ∷ key_text row.now.key ∷ view_text row.now.view ∷ prefix_text row.now.nlri.prefix ∷ id_fields row.now.nlri.id)) result out.new }
{
    write_all(out, b" withdraw")?;
    put_row_key(out, row)?;
    put_id_field(out, &row.nlri)
}
