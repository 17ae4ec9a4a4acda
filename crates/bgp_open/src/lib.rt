//! BGP messages and the OPEN: what a session agreed on.
//!
//! A Peer Up Notification carries the two OPEN messages of a session (RFC 7854, section 4.10). This crate
//! finds where a BGP message ends (RFC 4271, section 4.1), reads the body of an OPEN with the
//! capabilities that the station needs (RFC 4271, section 4.2; RFC 5492; RFC 4760; RFC 6793; RFC 7911),
//! and tells which families use path identifiers. It has the values that Peer Up and Peer Down leave.
//!
//! Proved: `bgp_frame` and `read_open` give the value of the grammar exactly where there is one, and
//! `path_ids` is the rule of RFC 7911, section 4.
//! Begin with `specs/BgpMessage.antt`, `specs/Open.antt` and `specs/PathIds.antt` of `bmp_specs`, then
//! `src/read.rt`.
#![tactic(auto)]

mod cap;
mod coded;
mod codes;
mod fault;
mod ids;
mod message;
mod open;
mod peer;
mod read;

pub use bmp_specs::{Detail, Side};
pub use cap::{Cap, CapList};
pub use codes::{ADD_PATH, CAPABILITIES, FOUR_OCTET_AS, MULTIPROTOCOL};
pub use fault::OpenFault;
pub use ids::path_ids;
pub use message::{
    BGP_HEADER, BgpFrame, NOTIFICATION_MESSAGE, OPEN_MESSAGE, UPDATE_MESSAGE, bgp_frame,
};
pub use open::Open;
pub use peer::{DownInfo, PeerInfo};
pub use read::read_open;
