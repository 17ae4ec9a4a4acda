//! The lines of replies, each written by one call to any sink. No call takes memory.
//!
//! A reply is a first line, the lines of its rows and a last line; a route line tells a route's place
//! and its path attributes (RFC 4271, section 5), and a `rov` line its place, its origin AS and what it is
//! judged to be. A full line tells all of a route: behind the fields of its route line stand the flags and
//! the value of each attribute that the route line tells by its type alone. The full line of a router tells
//! all that its last connection told. After the reply of a replay stands the stop line. A line is some tens of
//! small writes: lay a `BufferedSink` over a sink that is slow.
//!
//! Proved: each call writes exactly the line that `bmp_specs` defines, a full line that of `ask_specs`, the
//! `rov` line that of `specs/Rov.antt`, and answers `Failed` only where a write failed, which ended the call after a front of the line.
//! Begin with `specs/Lines.antt` and `specs/RouteLine.antt` of `bmp_specs`, then `src/lines.rt`; for full
//! lines with `specs/FullLine.antt` and `specs/FullRouters.antt` of `ask_specs`, then `src/full.rt` and
//! `src/full_router.rt`.
#![tactic(auto)]

mod change;
mod escaped;
mod extended;
mod full;
mod full_router;
mod hop;
mod items;
mod line;
mod lines;
mod lists;
mod mark;
mod own;
mod path;
mod peer;
mod pen;
mod raw;
mod route;
mod route_lines;
mod router;
mod rov;
mod rov_lines;
mod stat;
mod values;

pub use bmp_specs::{Cause, Why};
pub use change::{put_change, put_full_change};
pub use full::put_full_route;
pub use full_router::{ConnectionState, put_full_router};
pub use lines::{put_at, put_count, put_end, put_lane, put_missed, put_steps, put_stop};
pub use mark::{put_full_mark, put_mark};
pub use peer::put_peer;
pub use route::put_route;
pub use route_lines::{RouteLines, is_short};
pub use router::{RouterLine, RouterState, put_router};
pub use rov_lines::RovLines;
pub use stat::put_stat;
pub use wire_io::{Failed, Sink};
