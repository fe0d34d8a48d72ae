ghost use Rattle.std.specs.Prelude.{◌≡◌};
ghost use Rattle.slnf_bucket.specs.declared.errors.BucketError.TheVariants.{NoMemory};

use std::alloc::AllocError;
use std::error::Error;
use std::fmt;

/// Why an access was refused.
#[derive(Clone, Copy, Debug, PartialEq, Eq)]
pub enum BucketError {
    /// The greater clock, 2^62 - 1: there is no stamp after it.
    StampsSpent(u64),
    NoMemory,
}

impl fmt::Display for BucketError {
    fn fmt<W: fmt::Write>(&self, f: &mut fmt::Formatter<W>) -> fmt::Result {
        match self {
            BucketError::StampsSpent(clock) => write!(f, "no stamp after {clock}"),
            BucketError::NoMemory => write!(f, "no memory"),
        }
    }
}

impl Error for BucketError {}

impl From<AllocError> for BucketError {
    ghost from_gives = { λ _ e. e ≡ NoMemory };

    fn from(_error: AllocError) -> BucketError {
        BucketError::NoMemory
    }
}
