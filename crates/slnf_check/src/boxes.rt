ghost use Rattle.std.specs.Prelude.{◌≡◌, ◌≤◌, List, IfOk, IfErr};
ghost use Rattle.slnf_access.specs.declared.requests.Entry.{Entry};
ghost use Rattle.slnf_flight.specs.Lanes.{packet_count};
ghost use Rattle.slnf_replay.specs.BoxText.{box_text};
ghost use Rattle.slnf_check.specs.Checks.{IsJournalOf, IsRefusedJournal};
ghost use Rattle.slnf_check.specs.Answers.{IfRefused};

use crate::checks::follow;
use crate::refusals::CheckError;
use slnf_flight::Lane;
use slnf_plan::Plan;
use std::alloc::Global;
use std::hash::RandomState;

/// The lines of the one ordinary box of the run whose journal this is: its verdict for each packet that has a place, in the
/// order of the places. Where the journal is no run of the plan, the first of rules 1 to 5 that it breaks tells why, and
/// its least place.
pub fn box_lines(
    alloc: Global,
    state: RandomState,
    plan: &Plan,
    lanes: &[Lane],
    journal: &[u8],
) -> Result<Vec<u8>, CheckError>
    requires few_packets { packet_count lanes.now ≤ 1048576 }
    ensures lines { IfOk result (λ lines. (entries : List Entry) × IsJournalOf plan.now lanes.now journal.now entries
        × (lines.items ≡ box_text plan.now lanes.now entries)) }
    ensures refused { IfErr result (IfRefused (IsRefusedJournal plan.now lanes.now journal.now)) }
{
    let entries = follow(alloc, state, plan, lanes, journal)?;
    let lines = slnf_replay::box_lines(alloc, plan, lanes, entries.as_slice())?;
    Ok(lines)
}
