ghost use Rattle.std.specs.Prelude.{◌≡◌, ◌+◌, ◌^◌, ◌<◌, ◌≤◌, ℕ, Some, length, slice_get, nat_lt, IfOk, IsTrue};
ghost use Rattle.std.specs.List.{list_all};
ghost use Rattle.slnf_plan.specs.declared.plan.InstancePlan.{InstancePlan};
ghost use Rattle.slnf_flight.specs.Actors.{era_of_epoch};
ghost use Rattle.slnf_flight.specs.Functions.{IsFunctionOf};
ghost use Rattle.slnf_flight.specs.declared.functions.AnyFunction.{AnyFunction};
ghost use Rattle.slnf_flight.specs.Lanes.{AreFew, packet_count, packets_on};
ghost use Rattle.slnf_crew.specs.declared.items.ActorItems.{ActorItems};
ghost use Rattle.slnf_crew.specs.Errands.{IsNat, MaySweep, IsSweepWork, items_work, AreItemsFor};
ghost use Rattle.slnf_crew.specs.Items.{packets_work, ports_work};

use crate::items::{ActorItems, Kind, LanePackets};
use slnf_base::NoMemory;
use slnf_flight::{AnyFunction, Lane, packets_on};
use slnf_plan::{Epoch, InstancePlan, Plan, SweepPlan};
use slnf_sweep::Sweep;
use std::alloc::Global;

/// The epoch with this number, and what a plan's type says of it.
pub fn epoch_of(plan: &Plan, number: usize) -> &Epoch
    requires { number < length plan.now.epochs }
    ensures there { slice_get plan.now.epochs number ≡ Some result.now }
    ensures actors { length (era_of_epoch result.now).actors ≤ 33 }
    ensures instances { length result.now.instances ≤ length (era_of_epoch result.now).actors }
    ensures lanes { (k : ℕ) (i : InstancePlan) → slice_get result.now.instances k ≡ Some i → i.lane < 32 }
    ensures schedule { IsTrue (list_all (λ k. nat_lt k (length (era_of_epoch result.now).actors)) result.now.schedule) }
    ensures sweep { (function : AnyFunction) → IsFunctionOf plan.now.function (Some result.now) function
        → MaySweep function result.now.sweep }
{
    &plan.epochs.as_slice()[number]
}

/// The items of these instances, of which the first is the incarnation `base`. There is room for one more.
fn packets_of<'a>(
    alloc: Global,
    function: &'a AnyFunction,
    lanes: &'a [Lane],
    base: u64,
    instances: &[InstancePlan],
) -> Result<Vec<ActorItems<'a>>, NoMemory>
    requires few { AreFew lanes.now }
    requires base { base + length instances.now ≤ 2 ^ 32 }
    ensures count { IfOk result (λ items. length items.items ≡ length instances.now) }
    ensures each { IfOk result (λ items. (k : ℕ) (item : ActorItems) (i : InstancePlan)
        → slice_get items.items k ≡ Some item → slice_get instances.now k ≡ Some i
        → items_work item ≡ packets_work function.now (packets_on lanes.now i.lane) (base + k)) }
{
    let mut items = Vec::with_capacity(alloc, instances.len() + 1)?;
    for number in 0..instances.len() {
        let packets = packets_on(lanes, instances[number].lane);
        let incarnation = base + number as u64;
        items.push(ActorItems {
            function,
            kind: Kind::Packets(LanePackets {
                packets,
                incarnation,
            }),
        })?;
    }
    Ok(items)
}

/// The sweep of a NAT's epoch with this base.
fn sweep_of(function: &AnyFunction, base: u64) -> Sweep
    requires { IsNat function.now }
    ensures { IsSweepWork function.now base (ports_work function.now result) }
{
    match function {
        AnyFunction::Nat(nat) => Sweep {
            pool: nat.pool,
            base,
        },
        AnyFunction::Firewall(_) => unreachable!(),
        AnyFunction::Balancer(_) => unreachable!(),
    }
}

/// The items of an epoch's actors, the sweep's last. The first actor is the incarnation `base`.
pub fn items_of<'a>(
    alloc: Global,
    function: &'a AnyFunction,
    lanes: &'a [Lane],
    base: u64,
    epoch: &Epoch,
) -> Result<Vec<ActorItems<'a>>, NoMemory>
    requires sweep { MaySweep function.now epoch.now.sweep }
    requires few_packets { packet_count lanes.now ≤ 1048576 }
    requires base { base + length epoch.now.instances ≤ 2 ^ 32 }
    ensures count { IfOk result (λ items. length items.items ≡ length (era_of_epoch epoch.now).actors) }
    ensures each { IfOk result (λ items. AreItemsFor function.now lanes.now base epoch.now items.items) }
{
    let mut items = packets_of(alloc, function, lanes, base, epoch.instances.as_slice())?;
    match epoch.sweep {
        SweepPlan::No => {}
        SweepPlan::Yes { stop: _ } => items.push(ActorItems {
            function,
            kind: Kind::Ports(sweep_of(function, base)),
        })?,
    }
    Ok(items)
}
