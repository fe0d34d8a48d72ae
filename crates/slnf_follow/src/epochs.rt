ghost use Rattle.std.specs.Prelude.{◌≡◌, ◌+◌, ◌*◌, ◌^◌, ◌<◌, ◌≤◌, ℕ, Some, None, IfOk, OnOk, length, slice_get};
ghost use Rattle.std.specs.List.{AllByRecursion};
ghost use Rattle.slnf_access.specs.Map.{CanReply};
ghost use Rattle.slnf_plan.specs.declared.plan.InstancePlan.{InstancePlan};
ghost use Rattle.slnf_flight.specs.Lanes.{packet_count};
ghost use Rattle.slnf_flight.specs.PlanSetting.{setting_of};
ghost use Rattle.slnf_local.specs.declared.broken.Broken.{Broken};
ghost use Rattle.slnf_local.specs.Tells.{Lapses};
ghost use Rattle.slnf_follow.specs.Follows.{come_to, open_from, taken_on, broken_at, IsAtEpoch};

use crate::actors::first_hands;
use crate::entries::follow;
use slnf_access::Entry;
use slnf_base::NoMemory;
use slnf_crew::{actors_have_jobs, epoch_of, items_of};
use slnf_flight::{AnyFunction, Lane};
use slnf_hand::Hand;
use slnf_instance::Items;
use slnf_local::Broken;
use slnf_plan::{InstancePlan, Plan};
use slnf_setting::plan_has_one_box;
use std::alloc::Global;

/// One who follows a list of entries, between two epochs: the first incarnation of the next one, how many packets of
/// each lane earlier ones took, and how many entries are done.
#[derive(Debug, Drop)]
pub(crate) struct Course {
    pub(crate) base: u64,
    pub(crate) places: Vec<usize>,
    pub(crate) done: usize,
}

/// The first actor that hasn't ended.
fn first_open<T: Items>(hands: &[Hand<'_, T>]) -> Option<usize>
    ensures is { result ≡ open_from 0 hands.now }
    ensures within { (unended : ℕ) → result ≡ Some unended → unended < length hands.now }
{
    let mut done = 0;
    while done < hands.len() {
        if !hands[done].has_ended() {
            return Some(done);
        }
        done += 1;
    }
    None
}

/// What is broken where so many entries were taken, by the first actor of the epoch in hand that hasn't ended. The
/// epoch's incarnations are those from `base` up to `end`.
fn broken_at(
    unended: Option<usize>,
    entries: &[Entry],
    base: u64,
    end: u64,
    done: usize,
) -> Option<Broken>
    requires done { done ≤ length entries.now }
    requires unended { (number : ℕ) → unended ≡ Some number → base + number < 2 ^ 64 }
    ensures { result ≡ broken_at unended (slice_get entries.now done) base end done }
{
    let unexpected = Broken::Unexpected(done as u64 + 1);
    match unended {
        Some(unended) => match entries.get(done) {
            Some(_) => Some(unexpected),
            None => Some(Broken::Unended(base + unended as u64)),
        },
        None => match entries.get(done) {
            Some(entry) => {
                if entry.incarnation < end {
                    Some(unexpected)
                } else {
                    None
                }
            }
            None => None,
        },
    }
}

/// Adds what the actors of these instances took of their lanes.
fn add_taken<T: Items>(instances: &[InstancePlan], hands: &[Hand<'_, T>], places: &mut Vec<usize>)
    requires lanes { (k : ℕ) (i : InstancePlan) → slice_get instances.now k ≡ Some i
        → i.lane < length places.old.items }
    requires hands { length instances.now ≤ length hands.now }
    requires room { (lane : ℕ) → come_to places.old.items lane + length instances.now * 2 ^ 32 < 2 ^ 64 }
    ensures count { length places.new.items ≡ length places.old.items }
    ensures taken { (lane : ℕ) → come_to places.new.items lane
        ≡ come_to places.old.items lane + taken_on lane instances.now hands.now }
{
    let mut done = 0;
    while done < instances.len() {
        let taken = hands[done].taken();
        places[instances[done].lane as usize] += taken;
        done += 1;
    }
}

/// Follows the epoch with this number. It answers the rule that is broken in it, or goes on behind it.
pub(crate) fn follow_epoch(
    alloc: Global,
    plan: &Plan,
    lanes: &[Lane],
    number: usize,
    entries: &[Entry],
    course: &mut Course,
) -> Result<Option<Broken>, NoMemory>
    requires few_packets { packet_count lanes.now ≤ 1048576 }
    requires there { number < length plan.now.epochs }
    requires can { AllByRecursion (λ e. CanReply e.request e.reply) entries.now }
    requires base { course.old.base ≤ 33 * number }
    requires at { IsAtEpoch plan.now lanes.now entries.now number course.old }
    ensures base { OnOk result (course.new.base ≤ 33 * (number + 1)) }
    ensures broken { IfOk result (λ answer. (broken : Broken) → answer ≡ Some broken
        → Lapses (setting_of plan.now lanes.now) entries.now (Some broken)) }
    ensures next { IfOk result (λ answer. answer ≡ None
        → IsAtEpoch plan.now lanes.now entries.now (number + 1) course.new) }
{
    plan_has_one_box();
    actors_have_jobs();
    let function = AnyFunction::of(alloc, plan, number)?;
    let epoch = epoch_of(plan, number);
    let items = items_of(alloc, &function, lanes, course.base, epoch)?;
    let places = course.places.as_slice();
    let mut hands = first_hands(alloc, plan, epoch, places, items.as_slice())?;
    let done = follow(&mut hands, course.base, entries, course.done);
    let unended = first_open(hands.as_slice());
    let end = course.base + hands.len() as u64;
    match broken_at(unended, entries, course.base, end, done) {
        Some(broken) => Ok(Some(broken)),
        None => {
            let instances = epoch.instances.as_slice();
            add_taken(instances, hands.as_slice(), &mut course.places);
            course.base = end;
            course.done = done;
            Ok(None)
        }
    }
}
