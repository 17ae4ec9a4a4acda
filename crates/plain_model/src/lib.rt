//! The definitions of `bmp_specs`, run: a plain program that does what they say, and no more.
//!
//! `walk` cuts a whole stream into messages (RFC 7854, section 4.1) under any meaning of their bodies.
//! `rows` gives the routes that a list of effects leaves (RFC 7854, sections 4.6, 4.9 and 4.10).
//!
//! Proved: what `walk` gives is the walk of the bytes, to the last message, the offset and the verdict;
//! what `rows` gives is exactly the rows of the effects, each once, in the order of a reply. So the two
//! definitions can be met, and the tests show that they mean what the worked rows say. Nothing here is
//! fast: the tables that the station keeps are proved against the same definitions elsewhere.
//!
//! Begin with `src/stream.rt`, then `src/table.rt`.
#![tactic(auto)]

mod order;
mod stream;
mod table;
mod values;

pub use bmp_specs::{Family, View, Why};
pub use stream::{End, Meaning, Walked, walk};
pub use table::{row_at, rows};
pub use values::{Address, Effect, Peer, Route, Row, RowKey};
