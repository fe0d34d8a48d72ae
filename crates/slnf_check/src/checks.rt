ghost use Rattle.std.specs.Prelude.{◌≡◌, ◌≤◌, List, length, IfOk, IfErr};
ghost use Rattle.slnf_access.specs.declared.requests.Entry.{Entry};
ghost use Rattle.slnf_flight.specs.Lanes.{packet_count};
ghost use Rattle.slnf_check.specs.Given.{AreRead};
ghost use Rattle.slnf_check.specs.Checks.{IsJournalOf, IsRefusedJournal, AreTrue, AreRefused};
ghost use Rattle.slnf_check.specs.Answers.{IfRefused};

use crate::given::{Given, RunFiles};
use crate::outputs::{check_outputs, check_verdicts};
use crate::refusals::CheckError;
use slnf_access::Entry;
use slnf_base::Row;
use slnf_flight::Lane;
use slnf_follow::first_break;
use slnf_journal::read_journal;
use slnf_plan::Plan;
use slnf_verdicts::verdicts_of;
use std::alloc::Global;
use std::hash::RandomState;

/// Files that were accepted: how many entries their journal has.
#[derive(Clone, Copy, Debug, PartialEq, Eq)]
pub struct Accepted {
    pub entries: u64,
}

/// The entries of a journal that is a run of the plan over its lanes. Where it is none, the first of rules 1 to 5 that it
/// breaks tells why, and its least place. The store's map is hashed with `state`, which no clause speaks of.
pub fn follow(
    alloc: Global,
    state: RandomState,
    plan: &Plan,
    lanes: &[Lane],
    journal: &[u8],
) -> Result<Row<Entry>, CheckError>
    requires few_packets { packet_count lanes.now ≤ 1048576 }
    ensures followed { IfOk result (IsJournalOf plan.now lanes.now journal.now) }
    ensures refused { IfErr result (IfRefused (IsRefusedJournal plan.now lanes.now journal.now)) }
{
    let entries = read_journal(alloc, journal)?;
    match first_break(alloc, state, plan, lanes, entries.as_slice())? {
        None => Ok(entries),
        Some(refusal) => Err(CheckError::Refused(refusal)),
    }
}

/// Accepts exactly the files that a true run of the plan over these captures leaves, whoever made them. Otherwise it names
/// the first rule that is broken, and its least place. The rules go in order, each over the whole before the next:
///
/// 1. the bytes are a journal's text;
/// 2. to 5. its entries are a run, as slnf_follow has it;
/// 6. the verdict text is that of the journal;
/// 7. each output capture is that of the journal.
///
/// Lines and entries are counted from 1, and an output's bytes from 0.
pub fn check(
    alloc: Global,
    state: RandomState,
    plan: &Plan,
    lanes: &[Lane],
    given: &[Given],
    files: &RunFiles,
) -> Result<Accepted, CheckError>
    requires few_lanes { length lanes.now ≤ 32 }
    requires few_packets { packet_count lanes.now ≤ 1048576 }
    requires read { AreRead given.now lanes.now }
    requires outputs { length files.now.outputs ≡ length given.now }
    ensures accepted { IfOk result (λ accepted. (entries : List Entry) × (accepted.entries ≡ length entries)
        × AreTrue plan.now lanes.now given.now files.now entries) }
    ensures refused { IfErr result (IfRefused (AreRefused plan.now lanes.now given.now files.now)) }
{
    let entries = follow(alloc, state, plan, lanes, files.journal.as_slice())?;
    let verdicts = verdicts_of(alloc, plan, lanes, entries.as_slice())?;
    check_verdicts(alloc, files.verdicts.as_slice(), verdicts.as_slice())?;
    check_outputs(alloc, files.outputs.as_slice(), given, verdicts.as_slice())?;
    Ok(Accepted {
        entries: entries.len() as u64,
    })
}
