//! Path attributes: what an UPDATE says of its routes.
//!
//! Attributes are the middle part of an UPDATE (RFC 4271, sections 4.3 and 5): origin, AS path, next
//! hop and the rest, each after its flags, its type and its length. `bgp_update` reads them with this
//! crate, and all routes of one UPDATE share what it gives.
//!
//! Proved: `judge_attrs` tells exactly where a field has attributes: where it is a list of attributes, no
//! two are of one type, and each value is of the form of its type (RFC 4271, section 4.3; RFC 4760; RFC
//! 1997). It makes none, and lends what it found. `make_attrs` makes the attributes of the routes of a field
//! that was judged, and `read_attrs` judges and makes. In two-octet form AS4_PATH and AS4_AGGREGATOR are put back (RFC 6793,
//! section 4.2.3). A copy of attributes is equal to them. The words are in `bmp_specs`,
//! `specs/Attributes.antt` and `specs/FourOctetAs.antt`. Begin with `src/judge.rt`; `src/found.rt` judges
//! the form of each value in one pass, `src/registry.rt` takes the shapes and the types that are read from the
//! registry, `src/keep.rt` gathers them, and `src/read.rt` makes the attributes.
#![tactic(auto)]

mod as4;
mod as_info;
mod attrs;
mod bytes;
mod codes;
mod fault;
mod found;
mod frame;
mod judge;
mod keep;
mod mp;
mod others;
mod part;
mod read;
mod registry;
mod values;
mod width;

pub use as_path::{AsPath, Numbers, Width};
pub use attrs::{Aggregator, Attrs};
pub use codes::{
    AGGREGATOR, AS_PATH, ATOMIC_AGGREGATE, COMMUNITIES, EXTENDED_LENGTH, LOCAL_PREF, MP_REACH_NLRI,
    MP_UNREACH_NLRI, MULTI_EXIT_DISC, NEXT_HOP, ORIGIN,
};
pub use fault::AttrFault;
pub use frame::{FramedAttrs, frame_attrs};
pub use judge::{Judged, judge_attrs};
pub use mp::{MpPart, MpSlice};
pub use others::{Other, OtherList};
pub use read::{AttrsRead, make_attrs, read_attrs};
pub use registry::is_read_type;
pub use width::fits_width;
pub use wire_io::{ByteList, NoMemory};
