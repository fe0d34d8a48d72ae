ghost use Rattle.std.specs.Prelude.{◌≡◌};
ghost use Rattle.slnf_check.specs.declared.refusals.CheckError.TheVariants.{NoMemory as CheckNoMemory};
ghost use Rattle.slnf_check.specs.Answers.{error_of};

use slnf_base::NoMemory;
use slnf_follow::{At, Refusal};
use slnf_journal::JournalError;

/// Why files aren't accepted, or that memory was wanting.
#[derive(Clone, Copy, Debug, PartialEq, Eq)]
pub enum CheckError {
    /// The first rule that the files break, and its least place.
    Refused(Refusal),
    NoMemory,
}

impl From<NoMemory> for CheckError {
    ghost from_gives = { λ _ error. error ≡ CheckNoMemory };

    fn from(_error: NoMemory) -> CheckError {
        CheckError::NoMemory
    }
}

/// A text that is no journal breaks rule 1, at its line.
impl From<JournalError> for CheckError {
    ghost from_gives = { λ error made. made ≡ error_of error };

    fn from(error: JournalError) -> CheckError {
        let line = match error {
            JournalError::BadHeader => 1,
            JournalError::NoNewline(line) => line,
            JournalError::BadField(line, _) => line,
            JournalError::NoMemory => return CheckError::NoMemory,
        };
        CheckError::Refused(Refusal {
            rule: 1,
            at: At::Line(line),
        })
    }
}
