//! Origin validation (RFC 6811): the validated ROA payloads (VRPs) of a file, the AS that originated a route, and what
//! the VRPs say of both.
//!
//! A validator of the RPKI writes its VRPs as records of comma-separated fields: an AS, a prefix, and how long a prefix
//! of it this AS may originate. `VrpTable::read` reads such a file, whose records are those that `csv` reads,
//! `origin_of` gives the origin AS of a route, and `verdict` says whether the VRPs allow it.
//!
//! The VRPs stand in one list in the order of prefixes, IPv4 and IPv6 together. Each has a parent, the last one before it
//! that contains it, so those that cover a prefix are found by one search and a walk from parent to parent. This takes
//! no memory beside one number for each VRP.
//!
//! Proved: a table has exactly the VRPs of the file, in its order, and a file is refused as bad by the number of its
//! first record that is none; the verdict is that of RFC 6811, section 2, on the file's VRPs as a set; the origin is the
//! RFC's "Route Origin ASN".
//! Begin with `specs/VrpFile.antt`, `specs/Verdicts.antt` and `specs/Origins.antt`, then `src/table.rt` and
//! `src/judge.rt`. What `csv` gives is joined to the records of a file in `src/records.rt` and `specs/Records.antt`;
//! the parents are in `specs/Index.antt`.
#![tactic(auto)]

mod fields;
mod file;
mod judge;
mod nearest;
mod origin;
mod records;
mod table;
mod vrp;

pub use judge::verdict;
pub use origin::origin_of;
pub use table::VrpTable;
pub use vrp::{Verdict, Vrp, VrpFault};
