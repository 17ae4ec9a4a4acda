//! The bodies of BMP messages other than Route Monitoring.
//!
//! A message of a stream was framed by `bmp_frames`. This crate reads what stands in an Initiation, a
//! Termination, a Peer Up and a Peer Down Notification, a Statistics Report and a Route Mirroring
//! message (RFC 7854, sections 4.3 to 4.10; RFC 9069, sections 4 and 5). Parts of types that aren't
//! known are passed over and counted.
//!
//! Proved: each reader gives the value of its section exactly where the bytes have one, with the exact
//! count of parts passed over.
//! Begin with `specs/Tlv.antt` and the file of a message in `bmp_specs`, then `src/tlvs.rt`.
#![tactic(auto)]

mod fault;
mod initiation;
mod mirroring;
mod peer_down;
mod peer_up;
mod statistics;
mod termination;
mod tlvs;

pub use fault::EventFault;
pub use initiation::{Initiation, read_initiation};
pub use mirroring::read_mirroring;
pub use peer_down::read_peer_down;
pub use peer_up::{PeerUp, read_peer_up};
pub use statistics::{StatList, Statistics, read_statistics};
pub use termination::read_termination;
