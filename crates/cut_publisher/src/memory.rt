//! Out of memory.

use std::alloc::AllocError;
use thiserror::Error;

/// Out of memory.
#[derive(Debug, Drop, Error)]
#[error("out of memory")]
pub struct NoMemory;

impl From<AllocError> for NoMemory {
    fn from(_: AllocError) -> NoMemory {
        NoMemory
    }
}

/// An item that a list had no memory for.
#[derive(Drop)]
pub enum Unplaced<T: Drop> {
    NoMemory { item: T },
}
