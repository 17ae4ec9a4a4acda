//! The registries of BMP and BGP that the station knows.
//!
//! A table has a row for each code: the code, the shape of the value after it, and the name that
//! replies have for it. Replies take names from a table. The reader of statistics and that of path attributes take
//! from one which types they read, and the shapes of the values; the latter from its rows, by `attribute_rows`, with
//! no search. The codes that a reader tells apart stand with the reader. The rows are those of
//! RFC 7854, RFC 8671, RFC 9069, RFC 4271, RFC 4760, RFC 6793, RFC 7911 and RFC 1997, each cited above
//! its table in `bmp_specs`, `specs/Registries.antt`.
//!
//! Proved: each table has exactly the rows of that file, and `CodeTable::find` and `CodeTable::name`
//! answer from the first row with the code, for a table of any length, and `None` exactly where no
//! row has it. Begin with `src/table.rt`.
#![tactic(auto)]

mod registries;
mod shape;
mod stat;
mod table;

pub use bmp_specs::Shape;
pub use registries::{
    attribute_table, capability_table, message_table, reason_table, statistic_table, tlv_table,
};
pub use shape::fits_shape;
pub use stat::Stat;
pub use table::{CodeRow, CodeTable, Row};
