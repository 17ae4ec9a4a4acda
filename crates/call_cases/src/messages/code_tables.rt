//! Registries of codes.
ghost use Rattle.std.specs.Prelude.{◌≡◌, option_map};
ghost use Rattle.bmp_specs.specs.Registries.{first_row, statistics_types};

use crate::line::{Line, at};
use wire_tables::{
    CodeRow, CodeTable, Shape, attribute_table, capability_table, message_table, reason_table,
    statistic_table, tlv_table,
};

// The clause that a reader of statistics rests on.
fn shape_of(code: u16) -> Option<Shape>
    ensures { result ≡ option_map (λ row. row.shape) (first_row code statistics_types) }
{
    statistic_table().find(code)
}

fn put_row(out: &mut Line, row: &CodeRow) {
    out.show("", &row.code);
    out.show(" ", &row.shape);
    out.put(" ");
    out.put(row.name);
    out.put(";");
}

fn put_rows(out: &mut Line, rows: &[CodeRow]) {
    for row in rows {
        put_row(out, row);
    }
}

// The rows of a table: code, shape and name of each.
pub(crate) fn table(out: &mut Line, words: &[&str]) {
    match at(words, 1) {
        "message" => put_rows(out, &message_table().rows),
        "reason" => put_rows(out, &reason_table().rows),
        "statistic" => put_rows(out, &statistic_table().rows),
        "attribute" => put_rows(out, &attribute_table().rows),
        "tlv" => put_rows(out, &tlv_table().rows),
        "capability" => put_rows(out, &capability_table().rows),
        _ => out.put("-"),
    }
}

fn code_at(words: &[&str]) -> u16 {
    at(words, 1).parse::<u16>().unwrap_or(0)
}

// The shape of a statistic.
pub(crate) fn shape(out: &mut Line, words: &[&str]) {
    let shape = shape_of(code_at(words));
    out.show("", &shape);
}

// A row of the code 1.
fn row_of(name: &'static str) -> CodeRow {
    CodeRow {
        code: 1,
        shape: Shape::Free,
        name,
    }
}

// The name of a code in a table of which two rows have the code 1.
pub(crate) fn name_in_two(out: &mut Line, words: &[&str]) {
    let table = CodeTable {
        rows: [row_of("first"), row_of("second")],
    };
    let name = table.name(code_at(words));
    out.show("", &name);
}
