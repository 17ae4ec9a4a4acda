//! The last items of a list that grows at its end: at most 1,024 of them, and how many there were in all.
//!
//! A contract sees a `Recent<T>` as that total, which ends at 2^64 - 1, and the list of the items kept,
//! oldest first. The items stand in pieces that copies share, each behind an `Arc`, and in a ring with what
//! was pushed since. So a push moves no item, and a copy takes only what was pushed since the last one. Who has
//! many items at once hands over the last of them as a piece (`with_last`), and those before only as a number.
//!
//! Proved: after any number of pushes the ring is that of the list of all items pushed (`push`, clause
//! `list`, and `specs/Recent.antt`); `get` counts from the oldest kept; `copy` has the same total and
//! items that are alike by the trait `Keep`, and `with_last` is a copy of the ring of the longer list.
//! Begin with `specs/Recent.antt`, then `src/ring.rt` and `src/pieces.rt`.
#![tactic(auto)]

mod keep;
mod pieces;
mod ring;

pub use keep::Keep;
pub use ring::Recent;
