ghost use Rattle.std.specs.Prelude.{◌≡◌, ◌+◌, ◌-◌, ◌^◌, ◌<◌, ◌≤◌, ℕ, Some, IfOk, length, slice_get};
ghost use Rattle.slnf_access.specs.Machines.{machine_of};
ghost use Rattle.slnf_run.specs.Jobs.{job_of};
ghost use Rattle.slnf_flight.specs.Actors.{instance_actor};
ghost use Rattle.slnf_flight.specs.AnyFunction.{any_starts};
ghost use Rattle.slnf_flight.specs.Begins.{begins_with};
ghost use Rattle.slnf_flight.specs.Lanes.{AreFew, packet_at};
ghost use Rattle.slnf_flight.specs.PlanSetting.{setting_of};
ghost use Rattle.slnf_verdicts.specs.Batches.{job_over};
ghost use Rattle.slnf_verdicts.specs.Given.{verdicts_in};
ghost use Rattle.slnf_verdicts.specs.Standings.{begun_of, IsFollowed};

use crate::batches::taken;
use crate::standings::verdicts_by;
use crate::tasks::{Task, counted, within_quota};
use slnf_access::{Entry, Function};
use slnf_base::{NoMemory, Verdict};
use slnf_flight::{AnyFunction, Lane, Taken, packets_on};
use slnf_plan::{InstancePlan, Plan};
use std::alloc::Global;

/// The verdicts of the packets that an actor took with this task, by its entries.
fn replay<F: Function>(
    alloc: Global,
    function: &F,
    incarnation: u64,
    packets: &[Taken],
    task: &Task,
    part: &[Entry],
) -> Result<Vec<Verdict>, NoMemory>
    requires incarnation { incarnation < 2 ^ 32 }
    requires few { length packets.now < 2 ^ 32 }
    requires inside { 0 < task.now.count → task.now.at + task.now.count ≤ length packets.now }
    requires batch { 0 < task.now.batch }
    requires followed { IsFollowed (machine_of (F.behaviour function.now))
        (begun_of ((F.behaviour function.now).begins incarnation) packets.now) part.now }
    ensures { IfOk result (λ verdicts. verdicts.items
        ≡ verdicts_in (job_over (machine_of (F.behaviour function.now))
        (begun_of ((F.behaviour function.now).begins incarnation) packets.now) task.now) part.now) }
{
    let count = taken(alloc, function, incarnation, packets, task, part)?;
    let own = counted(task.stop, part);
    let verdicts = verdicts_by(alloc, function, incarnation, packets, task.at, count, own)?;
    Ok(verdicts)
}

/// The verdicts of the packets that an instance took which began at this place of its lane, by its entries.
pub(crate) fn replay_instance(
    alloc: Global,
    plan: &Plan,
    lanes: &[Lane],
    epoch: usize,
    incarnation: usize,
    instance: &InstancePlan,
    at: usize,
    part: &[Entry],
) -> Result<Vec<Verdict>, NoMemory>
    requires few { AreFew lanes.now }
    requires epoch { epoch < length plan.now.epochs }
    requires incarnation { incarnation < 2 ^ 32 }
    requires begins { (item : ℕ) → (setting_of plan.now lanes.now).scene.begins incarnation item
        ≡ begins_with (any_starts plan.now.function (slice_get plan.now.epochs epoch) incarnation item)
        (packet_at lanes.now item (Some instance.now.lane)) }
    requires followed { IsFollowed ((setting_of plan.now lanes.now).scene.machine incarnation)
        ((setting_of plan.now lanes.now).scene.begins incarnation) part.now }
    ensures { IfOk result (λ verdicts. verdicts.items
        ≡ verdicts_in (job_of (setting_of plan.now lanes.now) incarnation at (instance_actor instance.now))
        part.now) }
{
    let function = AnyFunction::of(alloc, plan, epoch)?;
    let packets = packets_on(lanes, instance.lane);
    let task = Task {
        at,
        count: within_quota(instance.quota, packets.len().saturating_sub(at)),
        batch: plan.batch as usize,
        stop: instance.stop,
    };
    let verdicts = replay(alloc, &function, incarnation as u64, packets, &task, part)?;
    Ok(verdicts)
}
