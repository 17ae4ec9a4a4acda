//! A table from the prefixes of one family to values: exact match, longest match (RFC 1812, section
//! 5.2.4.3), and a cursor in prefix order.
//!
//! A contract sees a `Trie<T>` as its family and the list of its pairs in prefix order; every call says
//! that list in full. The pairs stand in an ordered map of std, so each call but `longest` and `share`
//! is one search.
//!
//! Proved: `insert`, `remove`, `get`, `after`, `at_or_after` and `len` are those of the list; `longest`
//! gives the longest listed prefix that holds the address, in at most 130 looks, which `Steps` counts:
//! its search has nothing of the table but `Looks`, whose one read takes a step;
//! `share` gives the same prefixes, each with a value that is alike by the trait `Share`.
//! Begin with `src/trie.rt`, then `src/cursor.rt`, `src/looks.rt` and `src/longest.rt`.
#![tactic(auto)]

mod bits;
mod cursor;
mod held;
mod longest;
mod looks;
mod share;
mod steps;
mod trie;

pub use bits::shared_bits;
pub use share::{NoMemory, Share};
pub use steps::Steps;
pub use trie::Trie;
