ghost use Rattle.std.specs.Prelude.{◌≡◌, ◌++◌, [], ◌∷◌, codes, option_map};
ghost use Rattle.std.specs.Option.{option_map_or};
ghost use Rattle.bmp_specs.specs.Lines.{further};
ghost use Rattle.bmp_specs.specs.NumberText.{number_text};
ghost use Rattle.bmp_specs.specs.PeerLines.{family_fields, name_or_other, stat_fields, stat_line};
ghost use Rattle.bmp_specs.specs.PeerText.{key_text};
ghost use Rattle.bmp_specs.specs.Registries.{first_row, statistics_types};
ghost use Rattle.reply_text.specs.Pieces.{spaced};
ghost use Rattle.wire_io.specs.Writes.{Writes};
ghost use Rattle.wire_tables.specs.Table.{row_values};

use crate::values::{put_u8, put_u32};
use bmp_frames::PeerKey;
use ip_prefix::ShortText;
use itoa::Buffer;
use wire_io::{Failed, Sink, write_pieces};
use wire_tables::{CodeTable, Shape, Stat, statistic_table};

// The name of a statistic, where it has one.
fn statistic_name<'a>(types: &'a CodeTable<18>, stat: &Stat) -> &'a [u8]
    requires { row_values types.now.rows ≡ statistics_types }
    ensures { result.now ≡ name_or_other (first_row stat.now.code statistics_types) }
{
    match types.name(stat.code) {
        Some(name) => name.as_bytes(),
        None => b"other",
    }
}

// The shape of a statistic, where it is known.
fn statistic_shape(types: &CodeTable<18>, stat: &Stat) -> Option<Shape>
    requires { row_values types.now.rows ≡ statistics_types }
    ensures { result ≡ option_map (λ row. row.shape) (first_row stat.now.code statistics_types) }
{
    types.find(stat.code)
}

// The field of the family that a statistic counts, where it counts one of one family.
fn family_field(shape: Option<Shape>, stat: &Stat) -> ShortText
    ensures { result ≡ spaced (option_map_or (λ s. family_fields s stat.now) shape []) }
{
    let mut text = ShortText::new();
    if let Some(Shape::FamilyGauge64) = shape {
        text.push(b' ');
        put_u32(&mut text, stat.afi as u32);
        text.push(b'/');
        put_u8(&mut text, stat.safi);
    }
    text
}

/// Writes the line of a statistic of a peer of this lane: its code, its name, its AFI and SAFI where it is a
/// gauge of one family, and its value (RFC 7854, section 4.8). Where a write fails, a front of the line was
/// written.
pub fn put_stat<O: Sink>(out: &mut O, lane: u32, key: &PeerKey, stat: &Stat) -> Result<(), Failed>
    ensures { Writes O.faults O.told O.aside out.old (stat_line lane key.now stat.now) result out.new }
{
    put_code(out, lane, key, stat)?;
    put_value(out, stat)
}

// Writes the fields of a lane, of a peer and of the code of a statistic.
fn put_code<O: Sink>(out: &mut O, lane: u32, key: &PeerKey, stat: &Stat) -> Result<(), Failed>
    ensures { Writes O.faults O.told O.aside out.old (codes "stat" ++ spaced (number_text lane ∷ key_text key.now ∷ number_text stat.now.code ∷ [])) result out.new }
{
    write_pieces(
        out,
        &[
            b"stat ",
            Buffer::new().format(lane).as_bytes(),
            b" ",
            key.text().as_slice(),
            b" ",
            Buffer::new().format(stat.code).as_bytes(),
        ],
    )
}

// Writes the fields of a statistic after its code, and the end of the line.
fn put_value<O: Sink>(out: &mut O, stat: &Stat) -> Result<(), Failed>
    ensures { Writes O.faults O.told O.aside out.old (further (stat_fields (first_row stat.now.code statistics_types) stat.now)) result out.new }
{
    let types = statistic_table();
    let name = statistic_name(&types, stat);
    let family = family_field(statistic_shape(&types, stat), stat);
    put_named_value(out, name, family.as_slice(), stat)
}

// Writes the fields of a name, of a family after its space, and of a value, and the end of the line.
fn put_named_value<O: Sink>(
    out: &mut O,
    name: &[u8],
    family: &[u8],
    stat: &Stat,
) -> Result<(), Failed>
    ensures { Writes O.faults O.told O.aside out.old (32 ∷ name.now ++ (family.now ++ further (number_text stat.now.value ∷ []))) result out.new }
{
    write_pieces(
        out,
        &[
            b" ",
            name,
            family,
            b" ",
            Buffer::new().format(stat.value).as_bytes(),
            b"\n",
        ],
    )
}
