//! The tables of one router: what the entries of its lane leave.
//!
//! The messages of a BMP session bring peers up and down, announce and withdraw their routes and tell
//! statistics (RFC 7854, section 4). Tables stand for a list of such entries: they have the state of the lane,
//! what its present session counts, the router's name and description, the peers, their statistics, one table
//! for each peer and RIB, and the last steps of the whole list. Equal tables are had for the price of counters.
//! They also have the last connection: from where it came and when, and what was passed over. Where it is closed, how many
//! peers were up, its counts and the router's name and description stay until another connection is opened.
//!
//! While entries are taken, the changes of routes are gathered for each peer and RIB, and a peer that comes up or
//! goes down drops what is gathered for it. At the end each table takes one run for all of them. `TablesBuilder` gathers
//! them over many calls, for tables that are read only once all entries are taken, and can leave out their index by origin
//! AS (`Indexing`).
//!
//! Proved: new tables stand for no entries; tables that stand for some entries stand for them with any others after
//! them after `with`, `extend` and `apply`, and out of memory they are as before; equal tables have the same
//! parts; the last connection is that of the entries. That a table takes one run for all its changes is in no contract.
//! Begin with `specs/Tables.antt`, `specs/Session.antt` and `specs/Last.antt`, then `src/tables.rt` and `src/taken.rt`; routes are
//! gathered in `src/rows.rt` and `src/pending.rt`, and changed in `src/changed.rt`. Tables in the making are in
//! `src/builder.rt`.
#![tactic(auto)]

mod books;
mod builder;
mod changed;
mod counting;
mod effects;
mod indexing;
mod last;
mod last_steps;
mod late_steps;
mod left;
mod owned;
mod pending;
mod rows;
mod session;
mod shared_peers;
mod shared_stats;
mod state;
mod steps;
mod subject;
mod tables;
mod taken;
mod views;

pub use builder::TablesBuilder;
pub use indexing::Indexing;
pub use state::LaneState;
pub use tables::RouterTables;
