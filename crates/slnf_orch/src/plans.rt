ghost use Rattle.std.specs.Prelude.{◌≡◌, ◌^◌, ◌<◌, ◌≤◌, length, IfOk};
ghost use Rattle.slnf_run.specs.Run.{IsRun};
ghost use Rattle.slnf_run.specs.Scheduled.{IsScheduled, usual_way};
ghost use Rattle.slnf_run.specs.Stamps.{HasClockStamps};
ghost use Rattle.slnf_run.specs.Verdicts.{verdicts_of, left_in};
ghost use Rattle.slnf_flight.specs.Actors.{eras_of};
ghost use Rattle.slnf_flight.specs.Lanes.{packet_count};
ghost use Rattle.slnf_flight.specs.PlanSetting.{setting_of};
ghost use Rattle.slnf_setting.specs.Bound.{IsBoundedFor};
ghost use Rattle.slnf_setting.specs.OneBoxOfPlan.{IsOneBoxOfPlan};
ghost use Rattle.slnf_setting.specs.Pairs.{KeepsPairs};
ghost use Rattle.slnf_setting.specs.Replies.{NoneIll};
ghost use Rattle.slnf_setting.specs.Runs.{RunsWell};
ghost use Rattle.slnf_orch.specs.Passing.{HaveAllPassed};

use crate::epochs::run_epoch;
use slnf_base::NoMemory;
use slnf_flight::{Lane, Outcome};
use slnf_ledger::{Ledger, left_in};
use slnf_plan::Plan;
use slnf_setting::{know_types, plan_runs_so};
use slnf_shards::Shards;
use std::alloc::Global;
use std::hash::RandomState;

/// Runs the plan over its lanes by the plan's schedule, in time linear in its packets and accesses. It always returns.
/// The shards' maps are hashed with this state, which no clause speaks of.
pub fn step_plan(
    alloc: Global,
    state: RandomState,
    plan: &Plan,
    lanes: &[Lane],
) -> Result<Outcome, NoMemory>
    requires few_lanes { length lanes.now ≤ 32 }
    requires few_packets { packet_count lanes.now ≤ 1048576 }
    // The journal is that of the plan's schedule, with the stamps of its clocks, and a run of the plan's setting.
    ensures scheduled { IfOk result (λ outcome.
        IsScheduled (setting_of plan.now lanes.now) (usual_way (eras_of plan.now.epochs)) outcome.journal) }
    ensures stamps { IfOk result (λ outcome. HasClockStamps (setting_of plan.now lanes.now) outcome.journal) }
    ensures run { IfOk result (λ outcome. IsRun (setting_of plan.now lanes.now) outcome.journal) }
    // One ordinary box explains it, and what holds of each run of the plan holds of it.
    ensures one_box { IfOk result (λ outcome. IsOneBoxOfPlan plan.now lanes.now outcome.journal) }
    ensures pairs { IfOk result (λ outcome. KeepsPairs plan.now.function outcome.journal) }
    ensures none_ill { IfOk result (λ outcome. NoneIll plan.now.function outcome.journal) }
    ensures bounded { IfOk result (λ outcome.
        IsBoundedFor plan.now.function (setting_of plan.now lanes.now).scene.begins outcome.journal) }
    ensures few { IfOk result (λ outcome. length outcome.journal < 2 ^ 41) }
    ensures well { IfOk result (λ outcome.
        RunsWell plan.now.function (setting_of plan.now lanes.now) outcome.journal) }
    // Each packet's verdict is the journal's.
    ensures verdicts { IfOk result (λ outcome.
        outcome.verdicts ≡ verdicts_of (setting_of plan.now lanes.now) outcome.journal) }
    ensures left { IfOk result (λ outcome. outcome.left ≡ left_in outcome.verdicts) }
{
    know_types(plan);
    plan_runs_so();
    let (shards, ledger) = pass_epochs(alloc, state, plan, lanes)?;
    let journal = shards.journal(alloc)?;
    let verdicts = ledger.fill(alloc, lanes)?;
    let left = left_in(verdicts.as_slice());
    Ok(Outcome {
        journal,
        verdicts,
        left,
    })
}

/// Runs all epochs of the plan, one after another.
fn pass_epochs(
    alloc: Global,
    state: RandomState,
    plan: &Plan,
    lanes: &[Lane],
) -> Result<(Shards, Ledger), NoMemory>
    requires few_packets { packet_count lanes.now ≤ 1048576 }
    ensures { IfOk result (λ end. HaveAllPassed plan.now lanes.now end.0 end.1) }
{
    let mut shards = Shards::make(alloc, state, plan.shards)?;
    let mut ledger = Ledger::make(alloc, 32)?;
    let mut base = 0;
    for number in 0..plan.epochs.len() {
        base = run_epoch(alloc, plan, lanes, number, base, &mut shards, &mut ledger)?;
    }
    Ok((shards, ledger))
}
