ghost use Rattle.std.specs.Prelude.{◌≡◌, ◌≤◌, length, IfOk};
ghost use Rattle.slnf_run.specs.Run.{IsRun};
ghost use Rattle.slnf_run.specs.Verdicts.{verdicts_of};
ghost use Rattle.slnf_flight.specs.Lanes.{packet_count};
ghost use Rattle.slnf_flight.specs.PlanSetting.{setting_of};

use crate::parts::parts_of;
use crate::rows::row_of;
use slnf_access::Entry;
use slnf_base::{NoMemory, Row, Verdict};
use slnf_flight::Lane;
use slnf_plan::Plan;
use std::alloc::Global;

/// The verdict of each packet, lane by lane, by the journal of a run of the plan and the lanes: the one that it
/// reached by the entries of the incarnation that took it, `Lost` where it reached none, and `Left` where nobody took
/// it. The last access of an instance that was stopped gives no verdict.
pub fn verdicts_of(
    alloc: Global,
    plan: &Plan,
    lanes: &[Lane],
    journal: &[Entry],
) -> Result<Row<Row<Verdict>>, NoMemory>
    requires few_lanes { length lanes.now ≤ 32 }
    requires few_packets { packet_count lanes.now ≤ 1048576 }
    requires run { IsRun (setting_of plan.now lanes.now) journal.now }
    ensures { IfOk result (λ verdicts. verdicts ≡ verdicts_of (setting_of plan.now lanes.now) journal.now) }
{
    let parts = parts_of(alloc, journal)?;
    let mut rows = Vec::new(alloc);
    for lane in 0..lanes.len() {
        let row = row_of(alloc, plan, lanes, &parts, lane as u32)?;
        rows.push(row)?;
    }
    Ok(Row::from_vec(rows))
}
