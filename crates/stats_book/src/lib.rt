//! The statistics of a session's peers, what a session counts, and which parts of its messages were passed over.
//!
//! A Statistics Report tells counters and gauges of a peer (RFC 7854, section 4.8). A book has the last
//! value of each, by its code and its family. A contract sees a `StatsBook` as the list of its peers in
//! their order, each with the list of its statistics by code, AFI and SAFI.
//!
//! Proved: each call says that list in full, and a book that stands for some effects stands for them with
//! one more after `set` and `forget`: a peer has the statistics that came since its last Peer Up (clauses
//! `stands`, and `specs/Standing.antt`). `Counts` adds up and ends at 2^64 - 1. `Passed` counts the parts that were
//! passed over by cause and by address family, exactly as `ask_specs` says it of the messages (`specs/Connection.antt`
//! there). `Connection` is plain: what a router's last connection told and counted.
//! Begin with `specs/Stats.antt` and `specs/Standing.antt`, then `src/book.rt` and `src/passed.rt`.
#![tactic(auto)]

mod book;
mod connection;
mod counts;
mod kind;
mod others;
mod passed;
mod peer;

pub use book::StatsBook;
pub use connection::Connection;
pub use counts::Counts;
pub use others::FamilyCount;
pub use passed::Passed;
