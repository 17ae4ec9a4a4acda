//! What the product's words mean: definitions that the contracts of all other crates cite.
//!
//! `specs/` has one file a section of an RFC, or of this product: the wire grammars, the walk of a
//! stream, the rows that it leaves, and the lines that tell of them. `proofs/` has their laws. The
//! enums here are those that the definitions name; the crates that show them re-export them.
#![tactic(auto)]

mod causes;
mod peers;
mod registry;
mod wire;

pub use causes::{Cause, MOST_READ, MOST_TAKEN, Why};
pub use peers::{Detail, View};
pub use registry::Shape;
pub use wire::{Family, IdUse, SegmentKind, Side, Width};
