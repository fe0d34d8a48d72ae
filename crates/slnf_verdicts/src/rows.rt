ghost use Rattle.std.specs.Prelude.{◌≡◌, ◌+◌, ◌<◌, ◌≤◌, ◌++◌, ℕ, IsTrue, IfOk, OnOk, length, map, slice_get, Some};
ghost use Rattle.slnf_plan.specs.declared.plan.Epoch.{Epoch};
ghost use Rattle.slnf_plan.specs.Ranges.{has_instances};
ghost use Rattle.slnf_run.specs.Setting.{base_of};
ghost use Rattle.slnf_flight.specs.Actors.{era_of_epoch, eras_of};
ghost use Rattle.slnf_flight.specs.Lanes.{AreFew, packets_on};
ghost use Rattle.slnf_flight.specs.PlanSetting.{setting_of};
ghost use Rattle.slnf_verdicts.specs.Given.{given_in, given_from, or_left, filled};
ghost use Rattle.slnf_verdicts.specs.Standings.{IsFollowed};
ghost use Rattle.slnf_verdicts.specs.Parts.{part_in};

use crate::parts::{Parts, part_at};
use crate::replays::replay_instance;
use slnf_access::Entry;
use slnf_base::{NoMemory, Row, Verdict};
use slnf_flight::{Lane, packets_on};
use slnf_plan::{Epoch, Plan, SweepPlan};
use std::alloc::Global;

/// How many actors an epoch has: its instances, and its sweep.
fn actor_count(epoch: &Epoch) -> usize
    requires { IsTrue (has_instances epoch.now) }
    ensures count { result ≡ length (era_of_epoch epoch.now).actors }
    ensures few { result ≤ 33 }
{
    let sweeps = match epoch.sweep {
        SweepPlan::No => 0,
        SweepPlan::Yes { stop: _ } => 1,
    };
    epoch.instances.len() + sweeps
}

/// Adds the verdicts that the actors of an epoch gave to a lane's packets. The epoch's first incarnation is `base`.
fn add_epoch(
    alloc: Global,
    plan: &Plan,
    lanes: &[Lane],
    parts: &Parts<'_>,
    number: usize,
    base: usize,
    lane: u32,
    row: &mut Vec<Verdict>,
) -> Result<(), NoMemory>
    requires few { AreFew lanes.now }
    requires epoch { number < length plan.now.epochs }
    requires base { base ≡ base_of (eras_of plan.now.epochs) number }
    requires few_bases { base ≤ 33000 }
    requires followed { (i : ℕ) → IsFollowed ((setting_of plan.now lanes.now).scene.machine i)
        ((setting_of plan.now lanes.now).scene.begins i) (part_in parts.now i) }
    ensures { OnOk result ((epoch : Epoch) → slice_get plan.now.epochs number ≡ Some epoch
        → row.new.items ≡ row.old.items
        ++ given_in (setting_of plan.now lanes.now) (λ i. part_in parts.now i) lane (length row.old.items)
        base
        (era_of_epoch epoch).actors) }
{
    let instances = plan.epochs.as_slice()[number].instances.as_slice();
    let at = row.len();
    for k in 0..instances.len() {
        let instance = &instances[k];
        if instance.lane == lane {
            let part = part_at(parts, base + k);
            let given = replay_instance(alloc, plan, lanes, number, base + k, instance, at, part)?;
            row.extend_from_slice(given.as_slice())?;
        }
    }
    Ok(())
}

/// The verdict with this number, where there is one. A packet that nobody took is left.
fn verdict_at(given: &[Verdict], number: usize) -> Verdict
    ensures { result ≡ or_left (slice_get given.now number) }
{
    match given.get(number) {
        Some(verdict) => *verdict,
        None => Verdict::Left,
    }
}

/// The verdicts of a lane with so many packets, the first of which have these.
fn fill(alloc: Global, given: &[Verdict], count: usize) -> Result<Vec<Verdict>, NoMemory>
    ensures { IfOk result (λ row. row.items ≡ filled given.now count) }
{
    let mut row = Vec::new(alloc);
    for number in 0..count {
        row.push(verdict_at(given, number))?;
    }
    Ok(row)
}

/// The verdicts of a lane's packets, by the entries of the incarnations.
pub(crate) fn row_of(
    alloc: Global,
    plan: &Plan,
    lanes: &[Lane],
    parts: &Parts<'_>,
    lane: u32,
) -> Result<Row<Verdict>, NoMemory>
    requires few { AreFew lanes.now }
    requires followed { (i : ℕ) → IsFollowed ((setting_of plan.now lanes.now).scene.machine i)
        ((setting_of plan.now lanes.now).scene.begins i) (part_in parts.now i) }
    ensures { IfOk result (λ row. row
        ≡ filled (given_from (setting_of plan.now lanes.now) (λ i. part_in parts.now i) lane 0 0
        (eras_of plan.now.epochs))
        (length (packets_on lanes.now lane))) }
{
    let mut given = Vec::new(alloc);
    let mut base = 0;
    for number in 0..plan.epochs.len() {
        add_epoch(alloc, plan, lanes, parts, number, base, lane, &mut given)?;
        base += actor_count(&plan.epochs.as_slice()[number]);
    }
    let row = fill(alloc, given.as_slice(), packets_on(lanes, lane).len())?;
    Ok(Row::from_vec(row))
}
