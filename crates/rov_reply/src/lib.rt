//! The reply of `rov`: each route within a prefix, with the AS that originated it and the verdict on it (RFC 6811).
//!
//! The verdict is that of `rov_table`, whose VRPs come from a file; which rows there are, and their order, are those of the
//! query `within` (`query_eval`). The origin of a route is told by its path, or by what its peer said in its Peer Up. A
//! table's peer is looked up once, and a line is put together in one array. It takes no memory.
//!
//! Proved: `put_rov_reply` writes the reply on the entries that the tables stand for, or a front of it where a write failed.
//! Begin with `specs/RovLines.antt`, then `src/reply.rt`.
#![tactic(auto)]

mod reply;
mod rows;

pub use reply::put_rov_reply;
