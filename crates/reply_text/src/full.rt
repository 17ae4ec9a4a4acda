ghost use Rattle.std.specs.Prelude.{◌≡◌, ◌++◌, true};
ghost use Rattle.bmp_specs.specs.Lines.{further};
ghost use Rattle.ask_specs.specs.FullLine.{full_fields, full_line, further_fields};
ghost use Rattle.reply_text.specs.Own.{bare_text, inner_text, policy_text, rest_text};
ghost use Rattle.wire_io.specs.Writes.{Writes};

use crate::lists::{put_flags, put_number};
use crate::own::{put_inner, put_policy};
use crate::raw::{has_raw_path, put_raw};
use crate::route::put_open_fields;
use path_attrs::{Attrs, Other};
use rib_model::RowKey;
use wire_io::{Failed, Sink, write_all};

// Whether the further fields tell nothing: there are no other attributes, and the text of the path says how it is divided.
fn is_bare(attrs: &Attrs) -> bool
    ensures { result ≡ true → further (further_fields attrs.now) ≡ bare_text }
{
    attrs.others.as_slice().is_empty() && !has_raw_path(&attrs.path)
}

// Writes the further fields one after another, and the end of the line.
fn put_further_parts<O: Sink>(out: &mut O, attrs: &Attrs) -> Result<(), Failed>
    ensures { Writes O.faults O.told O.aside out.old (further (further_fields attrs.now)) result out.new }
{
    put_flags(out, attrs.others.as_slice())?;
    put_own_fields(out, attrs.others.as_slice())?;
    put_rest(out, attrs)
}

// Writes the fields of the attributes that have one.
fn put_own_fields<O: Sink>(out: &mut O, others: &[Other]) -> Result<(), Failed>
    ensures { Writes O.faults O.told O.aside out.old (policy_text others.now ++ inner_text others.now) result out.new }
{
    put_policy(out, others)?;
    put_inner(out, others)
}

// Writes the field of what no other field tells, and the end of the line.
fn put_rest<O: Sink>(out: &mut O, attrs: &Attrs) -> Result<(), Failed>
    ensures { Writes O.faults O.told O.aside out.old (rest_text attrs.now) result out.new }
{
    put_raw(out, attrs)?;
    write_all(out, b"\n")
}

// Writes the fields of all path attributes that a route line doesn't tell, and the end of the line: at once where they
// tell nothing.
pub(crate) fn put_further<O: Sink>(out: &mut O, attrs: &Attrs) -> Result<(), Failed>
    ensures { Writes O.faults O.told O.aside out.old (further (further_fields attrs.now)) result out.new }
{
    if is_bare(attrs) {
        return write_all(
            out,
            b" flags=- large=- ext=- otc=- aigp=- originator=- clusters=- raw=-\n",
        );
    }
    put_further_parts(out, attrs)
}

// Writes the fields of a route from its peer on with all its path attributes, and the end of the line.
fn put_full_fields<O: Sink>(out: &mut O, row: &RowKey, attrs: &Attrs) -> Result<(), Failed>
    ensures { Writes O.faults O.told O.aside out.old (further (full_fields (record { row_key = row.now; route = attrs.now }))) result out.new }
{
    put_open_fields(out, row, attrs)?;
    put_further(out, attrs)
}

/// Writes the line of a route of this lane with all its path attributes: the fields of `put_route` first, and then the
/// flags and the value of each attribute that `other=` tells by its type alone: large communities (RFC 8092), extended
/// communities (RFC 4360), "Only to Customer" (RFC 9234), AIGP (RFC 7311), ORIGINATOR_ID and CLUSTER_LIST (RFC 4456), and
/// any other in hexadecimal. Where a write fails, a front of the line was written.
pub fn put_full_route<O: Sink>(
    out: &mut O,
    lane: u32,
    row: &RowKey,
    attrs: &Attrs,
) -> Result<(), Failed>
    ensures { Writes O.faults O.told O.aside out.old (full_line lane (record { row_key = row.now; route = attrs.now })) result out.new }
{
    put_number(out, b"route ", lane)?;
    put_full_fields(out, row, attrs)
}
