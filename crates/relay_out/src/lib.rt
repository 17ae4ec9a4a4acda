//! A relayed stream: the BMP messages that rebuild what a router's tables have (RFC 7854, RFC 8671, RFC 9069).
//!
//! `emit` writes an Initiation Message, and then of each peer that is up its Peer Up Notification, one Route Monitoring
//! message for each of its rows, and the End-of-RIB marker of each complete table. One walk over the tables, in `walk.rt`,
//! hands what each message tells to a taker: to a `Judge` first, which writes nothing, and where it refuses none to a
//! `Writer`. A table counts as judged where all attributes that it keeps can be announced with any prefix, and is walked by
//! the judge only where they can't. Sixteen routes are looked at before the first is handed on, so that their attributes,
//! which lie anywhere, are fetched from memory side by side.
//!
//! Proved: what was written is the whole stream, which follows from the entries that the tables stand for; whoever reads it
//! by the RFCs alone is left with the same name, description, rows, complete tables and peers that are up; where some
//! message can't be written, nothing is; and after a failed write, or out of memory, a front of the stream's first
//! messages was written. `sessions_have_one_stream` says that of lists of octets one alone is the stream.
//! Begin with `specs/Told.antt` and `specs/Messages.antt`, then `src/relay.rt`.
#![tactic(auto)]

mod fault;
mod item;
mod judge;
mod law;
mod peer;
mod put;
mod relay;
mod rows;
mod takes;
mod walk;
mod writer;

pub use fault::EmitFault;
pub use law::sessions_have_one_stream;
pub use relay::emit;
