ghost use Rattle.std.specs.Prelude.{◌≡◌, ◌<◌, ◌≤◌, ℕ, Some, length, slice_get, IfOk};
ghost use Rattle.slnf_plan.specs.declared.plan.InstancePlan.{InstancePlan};
ghost use Rattle.slnf_flight.specs.declared.functions.AnyFunction.{AnyFunction};
ghost use Rattle.slnf_flight.specs.declared.lanes.Lane.{Lane};
ghost use Rattle.slnf_crew.specs.declared.items.ActorItems.{ActorItems};
ghost use Rattle.slnf_crew.specs.Errands.{items_work, AreItemsFor};
ghost use Rattle.slnf_orch.specs.Hiring.{AreHired};
ghost use Rattle.slnf_ledger.specs.Ledger.{places_in};

use slnf_base::NoMemory;
use slnf_crew::{ActorItems, errand_for};
use slnf_instance::{Instance, Items};
use slnf_ledger::{Ledger, add_work, place_of};
use slnf_plan::{Epoch, InstancePlan, Plan};
use std::alloc::Global;

/// An actor for the items of each actor of an epoch.
pub(crate) fn crew_of<'a, 'b>(
    alloc: Global,
    plan: &Plan,
    epoch: &Epoch,
    ledger: &Ledger,
    items: &'b [ActorItems<'a>],
) -> Result<Vec<Instance<'b, ActorItems<'a>>>, NoMemory>
    requires fits { (k : ℕ) (item : ActorItems) (i : InstancePlan) → slice_get items.now k ≡ Some item
        → slice_get epoch.now.instances k ≡ Some i
        → places_in ledger.now i.lane ≤ (items_work item).count }
    ensures count { IfOk result (λ crew. length crew.items ≡ length items.now) }
    ensures hired { IfOk result (λ crew. (function : AnyFunction) (lanes : List Lane) (base : ℕ)
        → AreItemsFor function lanes base epoch.now items.now
        → AreHired plan.now function lanes (places_in ledger.now) base epoch.now crew.items) }
{
    let mut crew = Vec::with_capacity(alloc, items.len())?;
    for number in 0..items.len() {
        let item = &items[number];
        let at = place_of(epoch.instances.as_slice(), ledger, number);
        let errand = errand_for(plan, epoch, number, at, item.count());
        crew.push(Instance::make(alloc, item, errand)?)?;
    }
    Ok(crew)
}

ghost use Rattle.std.specs.Prelude.{◌++◌, List, OnOk};
ghost use Rattle.slnf_access.specs.declared.requests.Entry.{Entry};
ghost use Rattle.slnf_run.specs.Jobs.{Job};
ghost use Rattle.slnf_orch.specs.Actors.{AreIdle};
ghost use Rattle.slnf_ledger.specs.Ledger.{given_from, verdicts_at};
ghost use Rattle.slnf_orch.specs.Hiring.{DoStand};

/// Adds what each actor of an epoch did to its lane's verdicts.
pub(crate) fn hand_over<T: Items>(
    ledger: &mut Ledger,
    crew: Vec<Instance<'_, T>>,
    instances: &[InstancePlan],
) -> Result<(), NoMemory>
    requires idle { AreIdle crew.items }
    requires there { (k : ℕ) (i : InstancePlan) → slice_get instances.now k ≡ Some i → i.lane < length ledger.old }
    ensures count { OnOk result (length ledger.new ≡ length ledger.old) }
    ensures given { OnOk result ((jobs : ℕ → InstancePlan → Job T.Flight) (owns : ℕ → List Entry)
        → length instances.now ≤ length crew.entry.items → DoStand T.work jobs owns crew.entry.items instances.now
        → (lane : ℕ) → verdicts_at ledger.new lane
        ≡ verdicts_at ledger.old lane ++ given_from jobs owns 0 instances.now lane) }
{
    let mut number = 0;
    for actor in crew {
        let work = actor.finish();
        add_work(ledger, instances, number, work.verdicts.as_slice())?;
        number += 1;
    }
    Ok(())
}
