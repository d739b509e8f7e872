//! Faults of a list of jobs.

ghost use Rattle.std.specs.Prelude.{◌≡◌};
ghost use Rattle.batch_lists.specs.declared.fault.BatchFault.TheVariants.{NoMemory};

use std::alloc::{AllocError, AllocFailed};

/// Why bytes are no list of jobs. Lines are counted from 1, and the header is line 1.
#[derive(Clone, Copy, Debug, PartialEq, Eq)]
pub enum BatchFault {
    /// Memory was wanting. Nothing is said of the list.
    NoMemory,
    /// There are more bytes than a list may have.
    TooLong,
    /// The text doesn't begin with the header line.
    BadHeader,
    /// The line has no line feed, is neither `end` nor a job line, or stands behind `end`.
    BadLine(u32),
    /// With this line there are too many jobs.
    TooMany(u32),
    /// The text ends after a line feed, and no line was `end`.
    NoEnd,
}

impl From<AllocError> for BatchFault {
    ghost from_gives = { λ _ e. e ≡ NoMemory };

    fn from(_error: AllocError) -> BatchFault {
        BatchFault::NoMemory
    }
}

impl<T: Drop> From<AllocFailed<T>> for BatchFault {
    ghost from_gives = { λ _ e. e ≡ NoMemory };

    fn from(_error: AllocFailed<T>) -> BatchFault {
        BatchFault::NoMemory
    }
}
