//! BMP messages, written: the reverse of reading.
//!
//! Each call appends one whole message to a list of bytes (RFC 7854, section 4), or leaves it as it was where it
//! runs out of memory. The many small pieces of a Route Monitoring message are put together in a `Draft` first, and
//! appended in one.
//!
//! Proved: whoever reads the message under the definitions of `bmp_specs` reads the effects that the call
//! names, in that order and no others, in any state of its peers; an End-of-RIB marker where the peer is
//! up, with whatever OPENs. A Peer Up Notification tells all of a peer but whether an OPEN has extended
//! parameters; `can_peer_up` says exactly where it can, and its OPENs are some that can be read. A Route
//! Monitoring message withdraws routes and then announces others, where the peer is up and path identifiers
//! are used exactly where the routes have them; `can_routes` says exactly where it can, and that the attributes
//! are some that a field can have. The Per-Peer Header of any other message than a Peer Up names
//! no AS and no identifier, and no header has a time; its A flag is clear. A Peer Down Notification has no
//! data, an Initiation Message no further TLVs. The clauses `bytes` say of which parts each message consists.
//! Begin with `specs/Written.antt`, then `src/initiation.rt`, `src/peer.rt`, `src/peer_up.rt` and
//! `src/routes.rt`; where each part of an UPDATE stands is in `specs/WrittenUpdate.antt`.
#![tactic(auto)]

mod attributes;
mod capabilities;
mod common;
mod draft;
mod front;
mod initiation;
mod limits;
mod mark;
mod multi;
mod nlri;
mod open_message;
mod others;
mod path;
mod peer;
mod peer_down;
mod peer_up;
mod routes;
mod update;

pub use initiation::put_initiation;
pub use limits::{can_announce, can_routes};
pub use mark::put_mark;
pub use peer_down::put_peer_down;
pub use peer_up::{can_peer_up, put_peer_up};
pub use routes::put_routes;
