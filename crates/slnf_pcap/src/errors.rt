ghost use Rattle.std.specs.Prelude.{◌≡◌};
ghost use Rattle.slnf_pcap.specs.declared.errors.PcapError.TheVariants.{NoMemory};

use std::alloc::{AllocError, AllocFailed};
use thiserror::Error;

/// Why a file is no capture that is read, or that memory was wanting. Places are counted from the file's
/// first byte, 0.
#[derive(Clone, Copy, Debug, PartialEq, Eq, Error)]
pub enum PcapError {
    /// The file has fewer than 24 bytes.
    #[error("the file header is short")]
    ShortHeader,
    /// The first four bytes are no spelling of the magic number.
    #[error("the magic number is unknown")]
    BadMagic,
    /// The version isn't 2.4.
    #[error("the version isn't 2.4")]
    BadVersion,
    /// The link type, all 32 bits of it, is neither 1 nor 101.
    #[error("link type {0}")]
    LinkType(u32),
    /// The file ends within the record at this place.
    #[error("the record at {0} is torn")]
    TornRecord(usize),
    /// The record at this place has more than 262,144 captured bytes.
    #[error("the record at {0} is over the snapshot length")]
    OverSnap(usize),
    /// More than 1,048,576 records.
    #[error("too many records")]
    TooMany,
    #[error("no memory")]
    NoMemory,
}

impl PcapError {
    ghost use Rattle.slnf_pcap.specs.Errors.{error_number};

    /// The error's number: 1 to 7 in the order of the variants. `NoMemory` has none.
    pub fn number(&self) -> Option<u8>
        ensures { result ≡ error_number self.now }
    {
        match self {
            PcapError::ShortHeader => Some(1),
            PcapError::BadMagic => Some(2),
            PcapError::BadVersion => Some(3),
            PcapError::LinkType(_) => Some(4),
            PcapError::TornRecord(_) => Some(5),
            PcapError::OverSnap(_) => Some(6),
            PcapError::TooMany => Some(7),
            PcapError::NoMemory => None,
        }
    }
}

impl From<AllocError> for PcapError {
    ghost from_gives = { λ _ error. error ≡ NoMemory };

    fn from(_error: AllocError) -> PcapError {
        PcapError::NoMemory
    }
}

impl<T: Drop> From<AllocFailed<T>> for PcapError {
    ghost from_gives = { λ _ error. error ≡ NoMemory };

    fn from(_error: AllocFailed<T>) -> PcapError {
        PcapError::NoMemory
    }
}
