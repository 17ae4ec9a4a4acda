ghost use Rattle.std.specs.Prelude.{◌≡◌};
ghost use Rattle.feed_archive.specs.declared.fault.AppendFault.TheVariants.{Failed as AppendFailed};
ghost use Rattle.feed_archive.specs.declared.fault.CreateFault.TheVariants.{Failed as CreateFailed};
ghost use Rattle.feed_archive.specs.declared.fault.RecoverFault.TheVariants.{Failed as RecoverFailed, NoMemory as OutOfMemory};

use std::alloc::{AllocError, AllocFailed};
use wire_io::{Failed, NoMemory};

/// Why an archive was not created.
#[derive(Clone, Copy, Debug, PartialEq, Eq)]
pub enum CreateFault {
    /// The disk failed.
    Failed,

    /// The file isn't empty.
    NotEmpty,
}

impl From<Failed> for CreateFault {
    ghost from_gives = { λ _ fault. fault ≡ CreateFailed };

    fn from(_: Failed) -> Self {
        CreateFault::Failed
    }
}

/// Why nothing was recovered.
#[derive(Clone, Copy, Debug, PartialEq, Eq)]
pub enum RecoverFault {
    /// The disk failed.
    Failed,

    /// The file is no archive: at this offset, after whole records, stands one that isn't whole or right, or nothing.
    Damaged { offset: u64 },

    /// The first 2^31 bytes of the file, which has more, are no archive.
    TooLong,

    /// Out of memory.
    NoMemory,
}

impl From<Failed> for RecoverFault {
    ghost from_gives = { λ _ fault. fault ≡ RecoverFailed };

    fn from(_: Failed) -> Self {
        RecoverFault::Failed
    }
}

impl From<NoMemory> for RecoverFault {
    ghost from_gives = { λ _ fault. fault ≡ OutOfMemory };

    fn from(_: NoMemory) -> Self {
        RecoverFault::NoMemory
    }
}

impl From<AllocError> for RecoverFault {
    ghost from_gives = { λ _ fault. fault ≡ OutOfMemory };

    fn from(_: AllocError) -> Self {
        RecoverFault::NoMemory
    }
}

impl<T: Drop> From<AllocFailed<T>> for RecoverFault {
    ghost from_gives = { λ _ fault. fault ≡ OutOfMemory };

    fn from(_: AllocFailed<T>) -> Self {
        RecoverFault::NoMemory
    }
}

/// Why a piece was not appended.
#[derive(Clone, Copy, Debug, PartialEq, Eq)]
pub enum AppendFault {
    /// The disk failed. A crash leaves the archive with the piece or without it, until it is begun again.
    Failed,

    /// With this record the archive would have more than 2^31 bytes.
    Full,

    /// The disk failed in an earlier append.
    Stopped,
}

impl From<Failed> for AppendFault {
    ghost from_gives = { λ _ fault. fault ≡ AppendFailed };

    fn from(_: Failed) -> Self {
        AppendFault::Failed
    }
}
