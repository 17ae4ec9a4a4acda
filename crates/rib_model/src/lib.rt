//! Entries: what the messages of a router do to its tables, in the order of its stream.
//!
//! `bmp_message` makes them of the messages of a stream, the tables are made of them, and a lane's
//! history is a list of them. This crate has the plain types: an effect, an entry, where a row
//! stands, and a step of a lane. The attributes of a route and what a Peer Up told of a peer stand
//! behind `Arc`s. The routes that an UPDATE announces with the same attributes are one item of an
//! effect list, as the prefixes stood on the wire, and those that it withdraws another.
//!
//! Proved: an effect list keeps the order in which it was filled; rows are ordered by peer, RIB and NLRI;
//! a step that is kept has the same value.
//! Begin with `src/effect.rt` and `specs/Effects.antt`.
#![tactic(auto)]

mod effect;
mod entry;
mod head;
mod list;
mod opening;
mod row;
mod step;

pub use bmp_specs::{Cause, Why};
pub use effect::{Effect, Route};
pub use entry::Entry;
pub use head::{FamilyCode, Head, PeerHead};
pub use list::EffectList;
pub use opening::{Closing, Opening};
pub use row::RowKey;
pub use step::Step;
