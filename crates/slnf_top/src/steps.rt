//! Runs of a plan over its lanes, by its schedule or side by side, and their files.
ghost use Rattle.std.specs.Prelude.{◌≡◌, ◌≤◌, length, IfOk};
ghost use Rattle.slnf_flight.specs.Lanes.{packet_count};
ghost use Rattle.slnf_run.specs.Verdicts.{left_in};
ghost use Rattle.slnf_check.specs.Given.{AreGiven, AreSized};
ghost use Rattle.slnf_top.specs.Files.{files_of};
ghost use Rattle.slnf_top.specs.Written.{Order, BySchedule, SideBySide, IsOutcome, IsRunOf};

use crate::inputs::Inputs;
use crate::outputs::{File, files_of};
use slnf_base::{NoMemory, Row};
use slnf_flight::{Lane, Outcome};
use slnf_orch::step_plan;
use slnf_plan::Plan;
use slnf_store::Gate;
use slnf_threads::run_plan;
use std::alloc::Global;
use std::hash::RandomState;
use std::sync::Wait;
use std::thread::Threads;

/// The files of a run, and how many packets no instance took.
#[derive(Debug, Drop)]
pub struct Run {
    pub files: Row<File>,
    pub left: u64,
}

/// Runs the plan over the lanes by its schedule.
pub fn outcome_of(
    alloc: Global,
    state: RandomState,
    plan: &Plan,
    lanes: &[Lane],
) -> Result<Outcome, NoMemory>
    requires few_lanes { length lanes.now ≤ 32 }
    requires few_packets { packet_count lanes.now ≤ 1048576 }
    ensures { IfOk result (IsOutcome BySchedule plan.now lanes.now) }
{
    step_plan(alloc, state, plan, lanes)
}

/// Runs the plan over the lanes, the actors of each epoch side by side.
pub fn outcome_side_by_side<R: Threads + Wait + Sync, G: Gate + Sync>(
    rt: &R,
    alloc: Global,
    state: RandomState,
    plan: &Plan,
    lanes: &[Lane],
    gate: &G,
) -> Result<Outcome, NoMemory>
    requires few_lanes { length lanes.now ≤ 32 }
    requires few_packets { packet_count lanes.now ≤ 1048576 }
    ensures { IfOk result (IsOutcome SideBySide plan.now lanes.now) }
{
    run_plan(rt, alloc, state, plan, lanes, gate)?.joined(alloc)
}

/// The files of the run that has this outcome, and how many packets it leaves.
pub fn run_of(alloc: Global, out: &str, inputs: &Inputs, outcome: &Outcome) -> Result<Run, NoMemory>
    requires few { length inputs.now.captures.given ≤ 32 }
    requires given { AreGiven inputs.now.captures.given }
    requires sized { AreSized inputs.now.captures.given outcome.now.verdicts }
    requires left { outcome.now.left ≡ left_in outcome.now.verdicts }
    ensures { (order : Order) → IsOutcome order inputs.now.plan inputs.now.captures.lanes outcome.now → IfOk result
        (IsRunOf order (files_of out.now) inputs.now.plan inputs.now.captures.given inputs.now.captures.lanes) }
{
    let files = files_of(alloc, out, inputs.captures.given.as_slice(), outcome)?;
    Ok(Run {
        files: Row::from_vec(files),
        left: outcome.left,
    })
}
