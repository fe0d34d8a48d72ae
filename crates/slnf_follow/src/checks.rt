ghost use Rattle.std.specs.Prelude.{◌≡◌, ◌↔◌, ◌≤◌, Option, IfOk};
ghost use Rattle.slnf_access.specs.Map.{IsLegal};
ghost use Rattle.slnf_flight.specs.Lanes.{packet_count};
ghost use Rattle.slnf_flight.specs.PlanSetting.{setting_of};
ghost use Rattle.slnf_local.specs.Tells.{Lapses, Tells};
ghost use Rattle.slnf_follow.specs.declared.refusals.Refusal.{Refusal};
ghost use Rattle.slnf_follow.specs.Refusals.{IsAnswer};
ghost use Rattle.slnf_follow.specs.Follows.{behind};

use crate::epochs::{Course, follow_epoch};
use crate::refusals::{Refusal, refusal_of};
use slnf_access::Entry;
use slnf_base::NoMemory;
use slnf_flight::Lane;
use slnf_local::Broken;
use slnf_plan::Plan;
use slnf_rules::{first_disorder, first_false_reply};
use std::alloc::Global;
use std::hash::RandomState;

/// Which entry isn't expected first, or else which actor hasn't ended, in entries whose replies are the map's.
fn first_lapse(
    alloc: Global,
    plan: &Plan,
    lanes: &[Lane],
    entries: &[Entry],
) -> Result<Option<Broken>, NoMemory>
    requires few_packets { packet_count lanes.now ≤ 1048576 }
    requires legal { IsLegal entries.now }
    ensures { IfOk result (Lapses (setting_of plan.now lanes.now) entries.now) }
{
    let mut course = Course {
        base: 0,
        places: vec![in alloc; 0; 32]?,
        done: 0,
    };
    for number in 0..plan.epochs.len() {
        let broken = follow_epoch(alloc, plan, lanes, number, entries, &mut course)?;
        if let Some(broken) = broken {
            return Ok(Some(broken));
        }
    }
    Ok(behind(course.done, entries.len()))
}

/// What is broken behind the last epoch, where so many entries of all were taken: the next one isn't expected.
fn behind(done: usize, count: usize) -> Option<Broken>
    ensures { result ≡ behind done count }
{
    if done < count {
        return Some(Broken::Unexpected(done as u64 + 1));
    }
    None
}

/// The first rule that the entries break, each rule tried over all of them before the next.
fn first_broken(
    alloc: Global,
    state: RandomState,
    plan: &Plan,
    lanes: &[Lane],
    entries: &[Entry],
) -> Result<Option<Broken>, NoMemory>
    requires { packet_count lanes.now ≤ 1048576 }
    ensures { IfOk result (Tells (setting_of plan.now lanes.now) entries.now) }
{
    match first_disorder(entries, plan.shards) {
        Some(place) => Ok(Some(Broken::Order(place))),
        None => match first_false_reply(alloc, state, entries)? {
            Some(place) => Ok(Some(Broken::Reply(place))),
            None => first_lapse(alloc, plan, lanes, entries),
        },
    }
}

/// Whether the entries are a run of the plan over its lanes: the first of rules 2 to 5 that they break, by its number
/// and its least place, each rule tried over all of them before the next.
///
/// 2. Each entry's (stamp, shard) is greater than that of the entry before, and its shard is its key's.
/// 3. Each reply is that of the map which the entries before it make.
/// 4. Each entry is expected after those before it: it is what an item asks for of the batch that its actor has in
///    hand, the actor isn't stopped, and all actors of earlier epochs have ended.
/// 5. In the end every actor has ended.
///
/// The order of a batch's items within its rounds isn't asked. Its time is linear in the entries and the packets, times
/// a batch's 32 at most. The map of rule 3 is hashed with this state, which no clause speaks of.
pub fn first_break(
    alloc: Global,
    state: RandomState,
    plan: &Plan,
    lanes: &[Lane],
    entries: &[Entry],
) -> Result<Option<Refusal>, NoMemory>
    requires few_packets { packet_count lanes.now ≤ 1048576 }
    ensures answer { IfOk result (λ answer. (refusal : Option Refusal)
        → (answer ≡ refusal) ↔ IsAnswer (setting_of plan.now lanes.now) entries.now refusal) }
{
    match first_broken(alloc, state, plan, lanes, entries)? {
        None => Ok(None),
        Some(broken) => Ok(Some(refusal_of(broken))),
    }
}
