//! The last steps of a lane: all that are kept, or the changes of one prefix.
//!
//! A step is an opening or a closing of a connection, a peer that comes up or goes down, or a route that is
//! announced or withdrawn. Who watches a prefix asks for the first change from a number on, and then for
//! the next, or learns how many of the steps that it asks for are no longer kept. Who watches the whole lane asks for any
//! step. No call takes memory.
//!
//! Proved: `poll` gives the first change of the prefix from that step on that is kept, with its number, and
//! none exactly where there is none; `poll_any` the first step that is kept, whatever it speaks of; `missed` how many of
//! the steps from there on were dropped. On the last
//! of all steps of a lane these are the changes that `bmp_specs` defines (clause `changes`). The total of the
//! steps ends at 2^64 - 1, and where it is that no change is told, and none is missed (clauses `most`).
//! Begin with `specs/Changes.antt` of `bmp_specs`, then `src/watch.rt` and `src/any.rt`.
#![tactic(auto)]

mod any;
mod watch;

pub use any::poll_any;
pub use watch::{missed, poll};
