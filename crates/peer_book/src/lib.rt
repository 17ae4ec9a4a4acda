//! The peers of a session: which are up, what they told, and which of their tables are complete.
//!
//! A peer is up from its Peer Up to its Peer Down (RFC 7854, sections 4.9 and 4.10). While it is up, an
//! End-of-RIB marker completes one table of it: that of a view and a family (RFC 4724, section 2). A
//! contract sees a `PeerBook` as the list of its peers in their order, each with the info of its last
//! Peer Up and its marks, or the info of its last Peer Down; what an `Arc` holds is seen through it.
//!
//! Proved: each call says that list in full, and a book that stands for some effects stands for them with
//! one more after `up`, `down` and `mark`: it then knows the peers that are up and down, by their last
//! Peer Up or Peer Down, and the tables that are complete (clauses `stands`, and `specs/Standing.antt`).
//! Begin with `specs/Peers.antt` and `specs/Standing.antt`, then `src/book.rt`.
#![tactic(auto)]

mod book;
mod cursor;
mod marks;
mod peer;

pub use book::PeerBook;
pub use cursor::PeerLine;
pub use peer::PeerState;
