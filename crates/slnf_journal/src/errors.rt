ghost use Rattle.std.specs.Prelude.{◌≡◌};
ghost use Rattle.slnf_journal.specs.declared.errors.JournalError.TheVariants.{NoMemory};

use std::alloc::{AllocError, AllocFailed};
use thiserror::Error;

/// Why bytes are no journal, or that memory was wanting. Lines and fields are counted from 1, and the first
/// line is that of the version.
#[derive(Clone, Copy, Debug, PartialEq, Eq, Error)]
pub enum JournalError {
    /// The bytes don't begin with a version's first line and its line feed.
    #[error("the first line is of no version")]
    BadHeader,
    /// The bytes end within this line.
    #[error("line {0} has no line feed")]
    NoNewline(u64),
    /// In this line no entry has this field behind the fields before it.
    #[error("field {1} of line {0} is bad")]
    BadField(u64, u64),
    #[error("no memory")]
    NoMemory,
}

impl From<AllocError> for JournalError {
    ghost from_gives = { λ _ error. error ≡ NoMemory };

    fn from(_error: AllocError) -> JournalError {
        JournalError::NoMemory
    }
}

impl<T: Drop> From<AllocFailed<T>> for JournalError {
    ghost from_gives = { λ _ error. error ≡ NoMemory };

    fn from(_error: AllocFailed<T>) -> JournalError {
        JournalError::NoMemory
    }
}
