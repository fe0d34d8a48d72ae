//! A plan's epochs, one after another, on one shared store.
ghost use Rattle.std.specs.Prelude.{◌≡◌, ◌+◌, ◌^◌, ◌<◌, ◌≤◌, true, false, List, length, IfOk};
ghost use Rattle.slnf_run.specs.Run.{IsRun};
ghost use Rattle.slnf_run.specs.Stamps.{HasClockStamps};
ghost use Rattle.slnf_run.specs.Verdicts.{verdicts_of, left_in};
ghost use Rattle.slnf_flight.specs.declared.lanes.Lane.{Lane};
ghost use Rattle.slnf_flight.specs.Lanes.{packet_count};
ghost use Rattle.slnf_flight.specs.PlanSetting.{setting_of};
ghost use Rattle.slnf_setting.specs.Bound.{IsBoundedFor};
ghost use Rattle.slnf_setting.specs.OneBoxOfPlan.{IsOneBoxOfPlan};
ghost use Rattle.slnf_setting.specs.Pairs.{KeepsPairs};
ghost use Rattle.slnf_setting.specs.Replies.{NoneIll};
ghost use Rattle.slnf_setting.specs.Runs.{RunsWell};
ghost use Rattle.slnf_threads.specs.UnderWay.{IsUnderWay, IsStuck, HaveAllPassed};

use crate::crews::{gather, seat, side_by_side};
use crate::journals::journal_of;
use crate::parted::PartedOutcome;
use slnf_base::NoMemory;
use slnf_crew::{actors_have_jobs, epoch_of, items_of};
use slnf_flight::{AnyFunction, Lane};
use slnf_ledger::{Ledger, add_works, left_in};
use slnf_plan::Plan;
use slnf_setting::know_types;
use slnf_store::{Gate, Store, StorePass};
use std::alloc::Global;
use std::hash::RandomState;
use std::sync::Wait;
use std::thread::Threads;

/// A run between two epochs: the store and its root pass, the verdicts of each of the 32 lanes so far, and the first
/// incarnation of the next epoch.
#[derive(Drop)]
struct Run {
    store: Store,
    root: StorePass,
    ledger: Ledger,
    base: u64,
}

impl Run {
    /// A run of a plan before its first epoch.
    fn make(alloc: Global, state: RandomState, plan: &Plan) -> Result<Run, NoMemory>
        ensures { IfOk result (λ run. (lanes : List Lane) → IsUnderWay plan.now lanes 0 run) }
    {
        let (store, root) = Store::make(alloc, state, plan.shards)?;
        Ok(Run {
            store,
            root,
            ledger: Ledger::make(alloc, 32)?,
            base: 0,
        })
    }
}

/// Runs the epoch with this number: its actors side by side, up to their ends. It answers whether none of them was refused
/// an access for want of stamps.
fn pass_epoch<R: Threads + Wait + Sync, G: Gate + Sync>(
    rt: &R,
    alloc: Global,
    plan: &Plan,
    lanes: &[Lane],
    number: usize,
    gate: &G,
    run: &mut Run,
) -> Result<bool, NoMemory>
    requires few_packets { packet_count lanes.now ≤ 1048576 }
    requires number { number < length plan.now.epochs }
    requires under_way { IsUnderWay plan.now lanes.now number run.old }
    ensures passed { IfOk result (λ on. on ≡ true → IsUnderWay plan.now lanes.now (number + 1) run.new) }
    ensures stuck { IfOk result (λ on. on ≡ false → IsStuck plan.now lanes.now run.new) }
{
    actors_have_jobs();
    let epoch = epoch_of(plan, number);
    let function = AnyFunction::of(alloc, plan, number)?;
    let items = items_of(alloc, &function, lanes, run.base, epoch)?;
    let desks = seat(
        alloc,
        plan,
        epoch,
        &run.ledger,
        items.as_slice(),
        &run.store,
        &mut run.root,
    )?;
    let count = desks.len();
    let reports = side_by_side(rt, &run.store, gate, desks)?;
    let Some(works) = gather(alloc, &run.store, &mut run.root, reports)? else {
        return Ok(false);
    };
    add_works(
        &mut run.ledger,
        epoch.instances.as_slice(),
        works.as_slice(),
    )?;
    run.base += count as u64;
    Ok(true)
}

/// Runs all epochs of the plan, one after another, up to the first in which stamps are spent. It answers whether there is
/// none.
fn pass_epochs<R: Threads + Wait + Sync, G: Gate + Sync>(
    rt: &R,
    alloc: Global,
    plan: &Plan,
    lanes: &[Lane],
    gate: &G,
    run: &mut Run,
) -> Result<bool, NoMemory>
    requires few_packets { packet_count lanes.now ≤ 1048576 }
    requires under_way { IsUnderWay plan.now lanes.now 0 run.old }
    ensures passed { IfOk result (λ on. on ≡ true → HaveAllPassed plan.now lanes.now run.new) }
    ensures stuck { IfOk result (λ on. on ≡ false → IsStuck plan.now lanes.now run.new) }
{
    for number in 0..plan.epochs.len() {
        if !pass_epoch(rt, alloc, plan, lanes, number, gate, run)? {
            return Ok(false);
        }
    }
    Ok(true)
}

/// The most instances of an epoch.
fn most_instances(plan: &Plan) -> usize {
    let mut most = 1;
    for epoch in plan.epochs.as_slice() {
        most = most.max(epoch.instances.len());
    }
    most
}

/// Runs the plan over its lanes: the actors of each epoch work side by side on one shared store, each in a thread of its
/// own, or one after another where no thread can be made; as many threads as an epoch has instances merge the journal. No clause says that it returns. The shards' maps are hashed with
/// this state, which no clause speaks of.
pub fn run_plan<R: Threads + Wait + Sync, G: Gate + Sync>(
    rt: &R,
    alloc: Global,
    state: RandomState,
    plan: &Plan,
    lanes: &[Lane],
    gate: &G,
) -> Result<PartedOutcome, NoMemory>
    requires few_lanes { length lanes.now ≤ 32 }
    requires few_packets { packet_count lanes.now ≤ 1048576 }
    // The journal is a run of the plan's setting, with the stamps of its clocks.
    ensures stamps { IfOk result (λ outcome. HasClockStamps (setting_of plan.now lanes.now) outcome.journal) }
    ensures run { IfOk result (λ outcome. IsRun (setting_of plan.now lanes.now) outcome.journal) }
    // One ordinary box explains it, and what holds of each run of the plan holds of it.
    ensures one_box { IfOk result (λ outcome. IsOneBoxOfPlan plan.now lanes.now outcome.journal) }
    ensures pairs { IfOk result (λ outcome. KeepsPairs plan.now.function outcome.journal) }
    ensures none_ill { IfOk result (λ outcome. NoneIll plan.now.function outcome.journal) }
    ensures bounded { IfOk result (λ outcome.
        IsBoundedFor plan.now.function (setting_of plan.now lanes.now).scene.begins outcome.journal) }
    ensures few { IfOk result (λ outcome. length outcome.journal < 2 ^ 41) }
    ensures well { IfOk result (λ outcome.
        RunsWell plan.now.function (setting_of plan.now lanes.now) outcome.journal) }
    // Each packet's verdict is the journal's.
    ensures verdicts { IfOk result (λ outcome.
        outcome.verdicts ≡ verdicts_of (setting_of plan.now lanes.now) outcome.journal) }
    ensures left { IfOk result (λ outcome. outcome.left ≡ left_in outcome.verdicts) }
{
    know_types(plan);
    let mut run = Run::make(alloc, state, plan)?;
    let passed = pass_epochs(rt, alloc, plan, lanes, gate, &mut run)?;
    let journal = journal_of(rt, alloc, run.store, run.root, most_instances(plan))?;
    if !passed {
        unreachable!();
    }
    let verdicts = run.ledger.fill(alloc, lanes)?;
    let left = left_in(verdicts.as_slice());
    Ok(PartedOutcome {
        journal,
        verdicts,
        left,
    })
}
