//! AS paths: what AS_PATH says, in either width, and the path that AS4_PATH completes.
//!
//! An AS path is a list of segments (RFC 4271, section 4.3; RFC 5065, section 3). Its numbers have two
//! bytes, or four between speakers that agreed on it (RFC 6793, section 3). `path_attrs` reads paths
//! with this crate and merges those of two attributes.
//!
//! Proved: `AsPath::read` gives the path that the bytes are, and `Broken` exactly where they are none;
//! `AsPath::is_path` tells whether they are one, and makes none; `AsPath::merge` gives the path of
//! RFC 6793, section 4.2.3; `AsPath::count` and `AsPath::origin` say how many AS numbers it has and which
//! AS it begins from. The words are in `bmp_specs`, `specs/AsPath.antt` and `specs/MergedPath.antt`. Begin
//! there, then with `src/path.rt`.
#![tactic(auto)]

mod faults;
mod numbers;
mod path;
mod segment;

pub use bmp_specs::{SegmentKind, Width};
pub use faults::PathFault;
pub use numbers::Numbers;
pub use path::AsPath;
pub use segment::Segment;
