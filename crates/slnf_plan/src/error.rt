ghost use Rattle.std.specs.Prelude.{◌≡◌, option_map};

use slnf_base::Text;
use std::error::Error;
use std::fmt;

/// Why a text is no plan. Each holds the path of the key that it speaks of: keys and places in lists,
/// counted from 0, joined by full stops. `NotToml` has the empty path.
#[derive(Debug, Drop)]
pub enum PlanError {
    NotToml(Text),
    MissingKey(Text),
    UnknownKey(Text),
    WrongType(Text),
    BadAddress(Text),
    BadPrefix(Text),
    OutOfRange(Text),
    LaneTwice(Text),
    NoBackend(Text),
    NoEpoch(Text),
    ScheduleActor(Text),
    NoMemory,
}

impl PlanError {
    ghost use Rattle.slnf_plan.specs.Errors.{error_number, error_path};

    /// The error's number: 1 to 11 in the order of the variants. `NoMemory` has none.
    pub fn number(&self) -> Option<u8>
        ensures { result ≡ error_number self.now }
    {
        match self {
            PlanError::NotToml(_) => Some(1),
            PlanError::MissingKey(_) => Some(2),
            PlanError::UnknownKey(_) => Some(3),
            PlanError::WrongType(_) => Some(4),
            PlanError::BadAddress(_) => Some(5),
            PlanError::BadPrefix(_) => Some(6),
            PlanError::OutOfRange(_) => Some(7),
            PlanError::LaneTwice(_) => Some(8),
            PlanError::NoBackend(_) => Some(9),
            PlanError::NoEpoch(_) => Some(10),
            PlanError::ScheduleActor(_) => Some(11),
            PlanError::NoMemory => None,
        }
    }

    /// The path of the key that the error speaks of. `NoMemory` has none.
    pub fn path(&self) -> Option<&str>
        ensures { option_map (λ s. s.now) result ≡ error_path self.now }
    {
        match self {
            PlanError::NotToml(path) => Some(path.as_str()),
            PlanError::MissingKey(path) => Some(path.as_str()),
            PlanError::UnknownKey(path) => Some(path.as_str()),
            PlanError::WrongType(path) => Some(path.as_str()),
            PlanError::BadAddress(path) => Some(path.as_str()),
            PlanError::BadPrefix(path) => Some(path.as_str()),
            PlanError::OutOfRange(path) => Some(path.as_str()),
            PlanError::LaneTwice(path) => Some(path.as_str()),
            PlanError::NoBackend(path) => Some(path.as_str()),
            PlanError::NoEpoch(path) => Some(path.as_str()),
            PlanError::ScheduleActor(path) => Some(path.as_str()),
            PlanError::NoMemory => None,
        }
    }

    fn words(&self) -> &'static str {
        match self {
            PlanError::NotToml(_) => "not TOML",
            PlanError::MissingKey(_) => "missing key",
            PlanError::UnknownKey(_) => "unknown key",
            PlanError::WrongType(_) => "wrong type",
            PlanError::BadAddress(_) => "no address",
            PlanError::BadPrefix(_) => "no prefix",
            PlanError::OutOfRange(_) => "out of range",
            PlanError::LaneTwice(_) => "lane of an earlier instance",
            PlanError::NoBackend(_) => "no backend",
            PlanError::NoEpoch(_) => "no epoch",
            PlanError::ScheduleActor(_) => "no such actor",
            PlanError::NoMemory => "no memory",
        }
    }
}

impl fmt::Display for PlanError {
    fn fmt<W: fmt::Write>(&self, f: &mut fmt::Formatter<W>) -> fmt::Result {
        f.write_str(self.words())?;
        match self.path() {
            Some(path) if !path.is_empty() => write!(f, " at `{path}`"),
            _ => Ok(()),
        }
    }
}

impl Error for PlanError {}
