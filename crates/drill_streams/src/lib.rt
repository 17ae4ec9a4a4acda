//! The streams of a drill: BMP streams that follow from a few numbers, to run a station on.
//!
//! A lane's stream has an Initiation Message, a Peer Up Notification of each of four peers, and then one message for each
//! word that the lane draws: a peer goes down or comes up again, or a Route Monitoring message withdraws a prefix,
//! announces one or has the End-of-RIB marker (RFC 7854, sections 4.3, 4.6, 4.9 and 4.10).
//!
//! Proved: which bytes these are, by what stands at each position of the stream.
//! Begin with `specs/DrillStream.antt`, then `src/stream.rt`.
#![tactic(auto)]

mod message;
mod opening;
mod peers;
mod routes;
mod stream;
mod words;

pub use stream::drill_stream;
