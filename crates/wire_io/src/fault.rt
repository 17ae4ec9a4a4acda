ghost use Rattle.std.specs.Prelude.{◌≡◌};
ghost use Rattle.wire_io.specs.declared.fault.BodyFault.TheVariants.{NoMemory as OutOfMemory};

use crate::{NoMemory, Unplaced};
use std::alloc::{AllocError, AllocFailed};
use thiserror::Error;

/// Why a part of a message was not read. Each reader says of which grammar its part is.
#[derive(Clone, Copy, Debug, PartialEq, Eq, Error)]
pub enum BodyFault {
    /// The bytes aren't in the grammar of the part.
    #[error("the bytes aren't in the grammar")]
    Broken,

    /// Out of memory.
    #[error("out of memory")]
    NoMemory,
}

impl From<NoMemory> for BodyFault {
    ghost from_gives = { λ _ fault. fault ≡ OutOfMemory };

    fn from(_: NoMemory) -> Self {
        BodyFault::NoMemory
    }
}

impl<T: Drop> From<Unplaced<T>> for BodyFault {
    ghost from_gives = { λ _ fault. fault ≡ OutOfMemory };

    fn from(_: Unplaced<T>) -> Self {
        BodyFault::NoMemory
    }
}

impl From<AllocError> for BodyFault {
    ghost from_gives = { λ _ fault. fault ≡ OutOfMemory };

    fn from(_: AllocError) -> Self {
        BodyFault::NoMemory
    }
}

impl<T: Drop> From<AllocFailed<T>> for BodyFault {
    ghost from_gives = { λ _ fault. fault ≡ OutOfMemory };

    fn from(_: AllocFailed<T>) -> Self {
        BodyFault::NoMemory
    }
}
