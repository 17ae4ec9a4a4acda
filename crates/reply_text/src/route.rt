ghost use Rattle.std.specs.Prelude.{◌≡◌, ◌++◌, [], ◌∷◌, codes};
ghost use Rattle.bmp_specs.specs.Lines.{further};
ghost use Rattle.bmp_specs.specs.PeerText.{key_text, view_text};
ghost use Rattle.bmp_specs.specs.PrefixText.{prefix_text};
ghost use Rattle.bmp_specs.specs.RouteLine.{text_or_absent, origin_text, attribute_fields, id_fields, route_fields, route_line};
ghost use Rattle.reply_text.specs.Pieces.{spaced, mandatory_text, metrics_text, remaining_text};
ghost use Rattle.wire_io.specs.Writes.{Writes};

use crate::hop::put_hop;
use crate::lists::{put_communities, put_number, put_others};
use crate::path::put_path;
use crate::values::{metrics, put_aggregator, put_origin_word, put_u8};
use bmp_frames::ViewText;
use bmp_specs::View;
use ip_prefix::{Nlri, Prefix, ShortText};
use itoa::Buffer;
use path_attrs::Attrs;
use rib_model::RowKey;
use wire_io::{Failed, Sink, write_all, write_pieces};

// Writes the fields of where a row stands: its peer, its RIB and its prefix.
pub(crate) fn put_row_key<O: Sink>(out: &mut O, row: &RowKey) -> Result<(), Failed>
    ensures { Writes O.faults O.told O.aside out.old (spaced (key_text row.now.key ∷ view_text row.now.view ∷ prefix_text row.now.nlri.prefix ∷ [])) result out.new }
{
    let key = row.key.text();
    let seen = view_and_prefix(row.view, &row.nlri.prefix);
    write_pieces(out, &[b" ", key.as_slice(), seen.as_slice()])
}

// The fields of a RIB and of a prefix.
fn view_and_prefix(view: View, prefix: &Prefix) -> ShortText
    ensures { result ≡ spaced (view_text view ∷ prefix_text prefix.now ∷ []) }
{
    let mut text = ShortText::new();
    text.push(b' ');
    text.extend(view.text().as_slice());
    text.push(b' ');
    text.extend(prefix.addr().text().as_slice());
    text.push(b'/');
    put_u8(&mut text, prefix.bits());
    text
}

// Writes the field of ORIGIN (RFC 4271, section 5.1.1).
fn put_origin<O: Sink>(out: &mut O, origin: Option<u8>) -> Result<(), Failed>
    ensures { Writes O.faults O.told O.aside out.old (codes " origin=" ++ text_or_absent origin_text origin) result out.new }
{
    let mut text = ShortText::new();
    text.extend(b" origin=");
    put_origin_word(&mut text, origin);
    write_all(out, text.as_slice())
}

// Writes the fields of MULTI_EXIT_DISC, LOCAL_PREF and ATOMIC_AGGREGATE (RFC 4271, sections 5.1.4 to 5.1.6).
fn put_metrics<O: Sink>(out: &mut O, attrs: &Attrs) -> Result<(), Failed>
    ensures { Writes O.faults O.told O.aside out.old (metrics_text attrs.now) result out.new }
{
    let text = metrics(attrs.med, attrs.pref, attrs.atomic);
    write_all(out, text.as_slice())
}

// Writes the fields of the next hop, ORIGIN and AS_PATH, which are "well-known mandatory" (RFC 4271, section 5).
fn put_mandatory<O: Sink>(out: &mut O, attrs: &Attrs) -> Result<(), Failed>
    ensures { Writes O.faults O.told O.aside out.old (mandatory_text attrs.now) result out.new }
{
    put_hop(out, &attrs.hop)?;
    put_origin(out, attrs.origin)?;
    put_path(out, &attrs.path)
}

// Writes the fields of AGGREGATOR, of the communities and of the attributes that are told by their type codes alone.
fn put_remaining<O: Sink>(out: &mut O, attrs: &Attrs) -> Result<(), Failed>
    ensures { Writes O.faults O.told O.aside out.old (remaining_text attrs.now) result out.new }
{
    put_aggregator(out, &attrs.aggregator)?;
    put_communities(out, attrs.communities.as_slice())?;
    put_others(out, attrs.others.as_slice())
}

// Writes the fields of the path attributes.
fn put_attributes<O: Sink>(out: &mut O, attrs: &Attrs) -> Result<(), Failed>
    ensures { Writes O.faults O.told O.aside out.old (spaced (attribute_fields attrs.now)) result out.new }
{
    put_mandatory(out, attrs)?;
    put_metrics(out, attrs)?;
    put_remaining(out, attrs)
}

// Writes the field of the path identifier, where there is one (RFC 7911, section 3), and the end of the line.
pub(crate) fn put_id<O: Sink>(out: &mut O, nlri: &Nlri) -> Result<(), Failed>
    ensures { Writes O.faults O.told O.aside out.old (further (id_fields nlri.now.id)) result out.new }
{
    match nlri.id {
        None => write_all(out, b"\n"),
        Some(id) => write_pieces(out, &[b" id=", Buffer::new().format(id).as_bytes(), b"\n"]),
    }
}

// Writes the field of the path identifier, where there is one.
pub(crate) fn put_id_field<O: Sink>(out: &mut O, nlri: &Nlri) -> Result<(), Failed>
    ensures { Writes O.faults O.told O.aside out.old (spaced (id_fields nlri.now.id)) result out.new }
{
    match nlri.id {
        None => Ok(()),
        Some(id) => write_pieces(out, &[b" id=", Buffer::new().format(id).as_bytes()]),
    }
}

// Writes the fields of a route from its peer on.
pub(crate) fn put_open_fields<O: Sink>(
    out: &mut O,
    row: &RowKey,
    attrs: &Attrs,
) -> Result<(), Failed>
    ensures { Writes O.faults O.told O.aside out.old (spaced (route_fields (record { row_key = row.now; route = attrs.now }))) result out.new }
{
    put_row_key(out, row)?;
    put_attributes(out, attrs)?;
    put_id_field(out, &row.nlri)
}

// Writes the fields of a route from its peer on, and the end of the line.
fn put_fields<O: Sink>(out: &mut O, row: &RowKey, attrs: &Attrs) -> Result<(), Failed>
    ensures { Writes O.faults O.told O.aside out.old (further (route_fields (record { row_key = row.now; route = attrs.now }))) result out.new }
{
    put_row_key(out, row)?;
    put_attributes(out, attrs)?;
    put_id(out, &row.nlri)
}

/// Writes the line of a route of this lane: its peer, the RIB that it was seen in, its prefix, its path
/// attributes (RFC 4271, section 5) and its path identifier where it has one (RFC 7911, section 3). Where
/// a write fails, a front of the line was written.
pub fn put_route<O: Sink>(out: &mut O, lane: u32, row: &RowKey, attrs: &Attrs) -> Result<(), Failed>
    ensures { Writes O.faults O.told O.aside out.old (route_line lane (record { row_key = row.now; route = attrs.now })) result out.new }
{
    put_number(out, b"route ", lane)?;
    put_fields(out, row, attrs)
}
