//! The routes of one peer in one view, in tables that are read while new ones are made.
//!
//! A table is a list of runs. A run is a sorted list of NLRI, each with a route or withdrawn, and is never
//! changed. A new table has one run more, that of the changes; runs of like size are merged, and where the
//! oldest run is reached what is withdrawn goes. So a table is a list of some 20 counted runs: it is shared for
//! that price, and old ones stay readable. A row takes a handle of 32 bits: the packs of a run hold the
//! attributes, up to 4,096 of them each, and a merge counts a pack, not a row.
//!
//! IPv4 and IPv6 have runs of their own, and each an index by origin AS. A key is the NLRI in a few numbers that stand in
//! its order: 12 bytes for IPv4 and 24 for IPv6, with the path identifier where there is one. The index has pairs of an AS
//! and a spot, the first bits of an address: it tells where an origin's routes may be, and the table says which they are.
//! To make it takes time and memory, so a table that nobody asks by origin does without it (`unindexed`).
//!
//! Proved: `with` gives the table with the last change of each NLRI made, and all others as they were; `get` is the
//! look-up, `walk` gives the pairs from a place on in the order of NLRI, each once, `count` is their number; `longest` is
//! the longest prefix that holds an address (RFC 1812, section 5.2.4.3), in at most 33 or 129 looks, which `Steps` of
//! `prefix_trie` counts; `origin` gives the routes of an origin AS (RFC 6811, section 2) from a place on, with an index or
//! without one; `sift` gives the routes whose attributes pass a test of the caller. How runs are merged, and how long the
//! index by origin is, is in no contract of a public call.
//! Begin with `src/table.rt`, `src/family.rt` and `src/changes.rt`, then `specs/Runs.antt`, `specs/Longest.antt`,
//! `specs/Origins.antt` and `specs/Sift.antt`; the rows of a run are in `specs/Rows.antt`, their merging in
//! `src/weave.rt` and `proofs/Merging.antt`.
#![tactic(auto)]

mod back;
mod by_guess;
mod changes;
mod count;
mod cursor;
mod family;
mod find;
mod guessed;
mod index;
mod join;
mod key;
mod key_address;
mod listed;
mod listed_nlri;
mod longest;
mod looks;
mod many;
mod marks;
mod nlri_key;
mod origin;
mod origin_cursor;
mod origin_walk;
mod packs;
mod run;
mod runs;
mod see;
mod sets;
mod sift;
mod spots;
mod table;
mod table_cursor;
mod tidy;
mod totals;
mod walk;
mod weave;

pub use changes::Changes;
pub use origin_walk::OriginWalk;
pub use sets::SetTest;
pub use sift::{RouteTest, SiftWalk};
pub use table::RouteTable;
pub use walk::{Place, Walk};
