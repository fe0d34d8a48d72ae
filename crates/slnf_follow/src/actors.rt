ghost use Rattle.std.specs.Prelude.{◌≡◌, ◌≤◌, ◌<◌, ◌^◌, ℕ, Some, None, IfOk, slice_get};
ghost use Rattle.slnf_plan.specs.declared.plan.InstancePlan.{InstancePlan};
ghost use Rattle.slnf_run.specs.Setting.{Actor};
ghost use Rattle.slnf_run.specs.Parts.{at_lane};
ghost use Rattle.slnf_flight.specs.Actors.{era_of_epoch};
ghost use Rattle.slnf_crew.specs.declared.items.ActorItems.{ActorItems};
ghost use Rattle.slnf_crew.specs.Errands.{items_work};
ghost use Rattle.slnf_follow.specs.Follows.{come_to, AreFirst};

use slnf_base::NoMemory;
use slnf_crew::{ActorItems, errand_for};
use slnf_hand::Hand;
use slnf_plan::{Epoch, Plan};
use std::alloc::Global;

/// How far a lane has come.
fn come_to(places: &[usize], lane: u32) -> usize
    ensures { result ≡ come_to places.now lane }
{
    match places.get(lane as usize) {
        None => 0,
        Some(place) => *place,
    }
}

/// How far the lane of the actor with this number has come. A sweep has no lane.
fn place_of(epoch: &Epoch, places: &[usize], number: usize) -> usize
    ensures place { (actor : Actor) → slice_get (era_of_epoch epoch.now).actors number ≡ Some actor
        → at_lane (come_to places.now) actor ≡ result }
    ensures instance { (i : InstancePlan) → slice_get epoch.now.instances number ≡ Some i
        → result ≡ come_to places.now i.lane }
    ensures sweep { slice_get epoch.now.instances number ≡ None → result ≡ 0 }
{
    match epoch.instances.as_slice().get(number) {
        None => 0,
        Some(instance) => come_to(places, instance.lane),
    }
}

/// The hands of an epoch's actors that have made no entry, over their items, where lanes have come so far.
pub(crate) fn first_hands<'a, 'b>(
    alloc: Global,
    plan: &Plan,
    epoch: &Epoch,
    places: &[usize],
    items: &'b [ActorItems<'a>],
) -> Result<Vec<Hand<'b, ActorItems<'a>>>, NoMemory>
    requires fits { (k : ℕ) (item : ActorItems) (i : InstancePlan) → slice_get items.now k ≡ Some item
        → slice_get epoch.now.instances k ≡ Some i → come_to places.now i.lane ≤ (items_work item).count }
    ensures { IfOk result (λ hands. AreFirst plan.now epoch.now (come_to places.now) items.now hands.items) }
{
    let mut hands = Vec::with_capacity(alloc, items.len())?;
    for number in 0..items.len() {
        let item = &items[number];
        let at = place_of(epoch, places, number);
        let errand = errand_for(plan, epoch, number, at, item.count());
        hands.push(Hand::make(alloc, item, errand)?)?;
    }
    Ok(hands)
}
