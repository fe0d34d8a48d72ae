ghost use Rattle.std.specs.Prelude.{◌≡◌};
ghost use Rattle.slnf_top.specs.declared.statuses.Status.TheVariants.{NoMemory as WantsMemory};

use slnf_base::NoMemory;
use slnf_check::{CheckError, Refusal};
use slnf_pcap::PcapError;
use slnf_plan::PlanError;
use std::alloc::{AllocError, AllocFailed};
use std::fmt;

/// How a command ended. Lanes are counted from 0.
#[derive(Debug, Drop)]
pub enum Status {
    /// Every packet has a verdict.
    Ok,
    /// Some packet was taken by no instance.
    Left,
    /// The words are of no form.
    Usage,
    /// The plan's file is no plan, by the error's rule.
    PlanBad(PlanError),
    /// The lane's file is no capture, by the error's rule.
    CaptureBad { lane: u32, error: PcapError },
    /// A file couldn't be read.
    ReadFault,
    /// A file couldn't be written.
    WriteFault,
    /// Memory was wanting.
    NoMemory,
    /// The files of a run break this rule first, at this place.
    Refused(Refusal),
    /// There is more to read than the limit with this number allows: so many bytes of the plan (1), of one capture
    /// or output (2), or of the captures up to and with this one (3), so many packets of these captures (4), or so many
    /// bytes of a journal (5) or of verdicts (6) that are read back. Of a file that is too long, one byte more than its
    /// limit is read and counted.
    OverLimit { limit: u8, count: u64 },
}

impl Status {
    ghost use Rattle.slnf_top.specs.Codes.{code_of};

    /// The exit status of the program.
    pub fn code(&self) -> u8
        ensures { result ≡ code_of self.now }
    {
        match self {
            Status::Ok => 0,
            Status::Left => 1,
            Status::Usage => 2,
            Status::PlanBad(_) => 3,
            Status::CaptureBad { lane: _, error: _ } => 4,
            Status::ReadFault => 5,
            Status::WriteFault => 6,
            Status::NoMemory => 7,
            Status::Refused(_) => 9,
            Status::OverLimit { limit: _, count: _ } => 10,
        }
    }
}

impl From<NoMemory> for Status {
    ghost from_gives = { λ _ status. status ≡ WantsMemory };

    fn from(_error: NoMemory) -> Status {
        Status::NoMemory
    }
}

impl From<AllocError> for Status {
    ghost from_gives = { λ _ status. status ≡ WantsMemory };

    fn from(_error: AllocError) -> Status {
        Status::NoMemory
    }
}

impl<T: Drop> From<AllocFailed<T>> for Status {
    ghost from_gives = { λ _ status. status ≡ WantsMemory };

    fn from(_error: AllocFailed<T>) -> Status {
        Status::NoMemory
    }
}

impl From<CheckError> for Status {
    ghost use Rattle.slnf_top.specs.Refused.{status_of_check};

    ghost from_gives = { λ error status. status ≡ status_of_check error };

    fn from(error: CheckError) -> Status {
        match error {
            CheckError::Refused(refusal) => Status::Refused(refusal),
            CheckError::NoMemory => Status::NoMemory,
        }
    }
}

/// The number of a capture's error, 1 to 7 in the order in which they are tried. Want of memory has none.
fn error_number(error: &PcapError) -> u8 {
    match error {
        PcapError::ShortHeader => 1,
        PcapError::BadMagic => 2,
        PcapError::BadVersion => 3,
        PcapError::LinkType(_) => 4,
        PcapError::TornRecord(_) => 5,
        PcapError::OverSnap(_) => 6,
        PcapError::TooMany => 7,
        PcapError::NoMemory => 0,
    }
}

/// The line that the program writes to standard error: its name, the text and a line feed. It has none for `Ok` and
/// `Left`.
impl fmt::Display for Status {
    fn fmt<W: fmt::Write>(&self, f: &mut fmt::Formatter<W>) -> fmt::Result {
        match self {
            Status::Ok => Ok(()),
            Status::Left => Ok(()),
            Status::Usage => {
                writeln!(
                    f,
                    "slnf: usage: run, step, check or box PLAN OUT IN, or load NUMBER LANES PACKETS"
                )
            }
            Status::PlanBad(error) => {
                let number = error.number().unwrap_or(0);
                let path = error.path().unwrap_or("");
                writeln!(f, "slnf: plan error {number} at {path}")
            }
            Status::CaptureBad { lane, error } => {
                let number = error_number(error);
                writeln!(f, "slnf: capture of lane {lane}: error {number}")
            }
            Status::ReadFault => writeln!(f, "slnf: read fault"),
            Status::WriteFault => writeln!(f, "slnf: write fault"),
            Status::NoMemory => writeln!(f, "slnf: no memory"),
            Status::Refused(refusal) => writeln!(f, "slnf: refused by rule {}", refusal.rule),
            Status::OverLimit { limit, count: _ } => writeln!(f, "slnf: over limit {limit}"),
        }
    }
}
