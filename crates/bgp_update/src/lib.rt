//! UPDATE messages: which routes a peer announces, and which it withdraws.
//!
//! A Route Monitoring message carries one UPDATE (RFC 7854, section 4.6). Its body is withdrawn
//! prefixes, path attributes and announced prefixes (RFC 4271, section 4.3); prefixes also stand in the
//! multiprotocol attributes (RFC 4760), with path identifiers where the session uses them (RFC 7911).
//! `path_attrs` reads the attributes, this crate the prefixes and the whole.
//!
//! Proved: `judge_update` tells exactly whether the body has a value in the grammar, and makes none.
//! `UpdateReader::read` judges by the same body of code and then makes the value, with the End-of-RIB marker (RFC
//! 4724, section 2) and how many multiprotocol attributes are of families that aren't read. It reads one message after
//! another, and shares attributes that stand in one after another. The grammar is
//! `IsUpdate` in `specs/Update.antt` of `bmp_specs`; begin there, then with `src/judge.rt`. `src/sizes.rt`
//! counts the prefixes of a list, `src/items.rt` makes them, `src/multi.rt` those of multiprotocol
//! attributes too.
#![tactic(auto)]

mod body;
mod fault;
mod frame;
mod items;
mod judge;
mod list;
mod multi;
mod read;
mod reader;
mod shared;
mod sizes;
mod update;
mod withdraw;

pub use bmp_specs::IdUse;
pub use fault::UpdateFault;
pub use frame::{FramedUpdate, contained_routes, fits_family, frame_update};
pub use judge::judge_update;
pub use list::NlriList;
pub use multi::unicast_family;
pub use reader::UpdateReader;
pub use update::Update;
pub use wire_io::Unplaced;
pub use withdraw::treat_as_withdraw;
