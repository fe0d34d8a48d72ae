//! What `check` and `box` say of the files of runs. Each line is one of `cases`.
use crate::cases;
use crate::tests::wrong_in;
use std::test::Fail as Failed;

/// Journals that `step` doesn't write, files that aren't there, and faults.
#[test]
fn accepted(rt: HostRuntime) -> Result<(), Failed> {
    assert_eq!(rt; wrong_in(&rt, cases::checked::ACCEPTED)?, None);
    Ok(())
}

/// The lines of the one ordinary box.
#[test]
fn boxes(rt: HostRuntime) -> Result<(), Failed> {
    assert_eq!(rt; wrong_in(&rt, cases::checked::BOXES)?, None);
    Ok(())
}

/// Files of a run that were changed once.
#[test]
fn changed(rt: HostRuntime) -> Result<(), Failed> {
    assert_eq!(rt; wrong_in(&rt, cases::broken::CHANGED)?, None);
    Ok(())
}

/// Texts that are no journal.
#[test]
fn no_journals(rt: HostRuntime) -> Result<(), Failed> {
    assert_eq!(rt; wrong_in(&rt, cases::broken::NO_JOURNALS)?, None);
    Ok(())
}
