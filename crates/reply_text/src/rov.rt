ghost use Rattle.std.specs.Prelude.{[], ◌∷◌};
ghost use Rattle.bmp_specs.specs.Lines.{further};
ghost use Rattle.reply_text.specs.Pieces.{spaced};
ghost use Rattle.reply_text.specs.Rov.{origin_word, judged_fields, rov_line};
ghost use Rattle.wire_io.specs.Writes.{Writes};

use crate::lists::put_number;
use crate::route::{put_id, put_row_key};
use itoa::Buffer;
use rib_model::RowKey;
use wire_io::{Failed, Sink, write_pieces};

// Writes the fields of an origin and of what a row is judged to be.
fn put_judged<O: Sink>(out: &mut O, origin: Option<u32>, judged: &[u8]) -> Result<(), Failed>
    ensures { Writes O.faults O.told O.aside out.old (spaced (origin_word origin ∷ judged.now ∷ [])) result out.new }
{
    match origin {
        None => write_pieces(out, &[b" none ", judged]),
        Some(asn) => write_pieces(
            out,
            &[b" ", Buffer::new().format(asn).as_bytes(), b" ", judged],
        ),
    }
}

// Writes the fields of a row that is judged, from its peer on, and the end of the line.
fn put_judged_row<O: Sink>(
    out: &mut O,
    row: &RowKey,
    origin: Option<u32>,
    judged: &[u8],
) -> Result<(), Failed>
    ensures { Writes O.faults O.told O.aside out.old (further (judged_fields row.now origin judged.now)) result out.new }
{
    put_row_key(out, row)?;
    put_judged(out, origin, judged)?;
    put_id(out, &row.nlri)
}

/// Writes the line of a row of this lane with what it is judged to be: its peer, the RIB that it was seen in, its prefix,
/// the AS that originated its route or `none`, what it is judged to be, and its path identifier where it has one (RFC 7911,
/// section 3). Where a write fails, a front of the line was written.
pub(crate) fn put_rov<O: Sink>(
    out: &mut O,
    lane: u32,
    row: &RowKey,
    origin: Option<u32>,
    judged: &[u8],
) -> Result<(), Failed>
    ensures { Writes O.faults O.told O.aside out.old (rov_line lane row.now origin judged.now) result out.new }
{
    put_number(out, b"rov ", lane)?;
    put_judged_row(out, row, origin, judged)
}
