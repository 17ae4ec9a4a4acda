//! Our query language: one line of words asks for rows of the tables.
//!
//! A line is words with exactly one space between two of them: a word for what is asked, what is sought,
//! and selectors in a fixed order, `router N`, `peer KEY`, `view V` and `family F`. Further forms have
//! `steps`, for a copy of a lane's rows, or `full`, for all path attributes, before a query that tells rows;
//! `changes` without a prefix, or with `full` in front; `marks` and `routers` with `full` in front; and selectors of
//! path attributes behind a query for rows, `through L`, `community C` and `other T`. No call takes memory.
//!
//! Proved: `parse` reads a line exactly where it is a query, and as the one query that it is; `parse_ask`
//! reads it exactly where it asks something, and a query as that query;
//! `Query::put_text` writes the one canonical line of a query, which is that query again.
//! Begin with `specs/Query.antt` of `bmp_specs` and `specs/Asking.antt` of `ask_specs`, which have the
//! grammar, then `src/query.rt`, `src/ask.rt` and `src/line.rt`.
#![tactic(auto)]

mod ask;
mod forms;
mod further;
mod line;
mod put;
mod query;
mod select;
mod selectors;
mod trait_texts;
mod trait_words;
mod traits;
mod verb;
mod words;

pub use ask::{Ask, RowQuery, RowsAsk};
pub use bmp_specs::{Family, View};
pub use line::{parse, parse_ask};
pub use query::Query;
pub use select::Select;
pub use traits::{Asns, Community, Traits};
pub use wire_io::{Failed, Sink};
