//! Why a value of a plan is refused, and where below it.
ghost use Rattle.std.specs.Prelude.{◌≡◌, IfOk};
ghost use Rattle.slnf_plan.specs.declared.refusal.Fault.TheVariants.{Memory};
ghost use Rattle.slnf_plan.specs.Paths.{path_below};

use slnf_base::Text;
use std::alloc::{AllocError, AllocFailed, Global};

/// A rule that a plan breaks.
#[derive(Clone, Copy, Debug, PartialEq, Eq)]
pub(crate) enum Cause {
    MissingKey,
    UnknownKey,
    WrongType,
    BadAddress,
    BadPrefix,
    OutOfRange,
    LaneTwice,
    NoBackend,
    NoEpoch,
    ScheduleActor,
}

/// The first rule that a value breaks, and the path to the place: keys and places in lists, joined by full
/// stops, or none where it is the value itself.
#[derive(Debug, Drop)]
pub(crate) struct Refusal {
    pub cause: Cause,
    pub path: Option<Text>,
}

/// Why a value couldn't be read.
#[derive(Debug, Drop)]
pub(crate) enum Fault {
    Memory,
    Refused(Refusal),
}

impl From<AllocError> for Fault {
    ghost from_gives = { λ _ fault. fault ≡ Memory };

    fn from(_error: AllocError) -> Fault {
        Fault::Memory
    }
}

impl<T: Drop> From<AllocFailed<T>> for Fault {
    ghost from_gives = { λ _ fault. fault ≡ Memory };

    fn from(_error: AllocFailed<T>) -> Fault {
        Fault::Memory
    }
}

impl Fault {
    ghost use Rattle.std.specs.Prelude.{None};
    ghost use Rattle.slnf_plan.specs.declared.refusal.Fault.TheVariants.{Refused};
    ghost use Rattle.slnf_plan.specs.Refusals.{IsUnder};

    /// The value itself breaks this rule.
    pub(crate) fn of(cause: Cause) -> Fault
        ensures { result ≡ Refused (record { cause = cause; path = None }) }
    {
        Fault::Refused(Refusal { cause, path: None })
    }

    /// The fault of a value, as one of what has it at this key or place.
    pub(crate) fn under(self, alloc: Global, step: &str) -> Fault
        ensures { IsUnder step.now self result }
    {
        let refusal = match self {
            Fault::Memory => return Fault::Memory,
            Fault::Refused(refusal) => refusal,
        };
        match path_below(alloc, step, refusal.path) {
            Ok(path) => Fault::Refused(Refusal {
                cause: refusal.cause,
                path: Some(path),
            }),
            Err(_) => Fault::Memory,
        }
    }
}

// A step, and the path below it.
fn path_below(alloc: Global, step: &str, below: Option<Text>) -> Result<Text, AllocError>
    ensures { IfOk result (λ path. path ≡ path_below step.now below) }
{
    let mut path = String::from_str(alloc, step)?;
    if let Some(below) = below {
        path.push('.')?;
        path.push_str(below.as_str())?;
    }
    Ok(Text::from_string(path))
}
