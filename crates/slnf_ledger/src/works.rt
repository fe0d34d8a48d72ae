//! What an epoch's actors did, lane by lane.
ghost use Rattle.std.specs.Prelude.{◌≡◌, ◌++◌, ◌<◌, ◌≤◌, ℕ, List, Some, length, slice_get, OnOk};
ghost use Rattle.slnf_access.specs.declared.requests.Entry.{Entry};
ghost use Rattle.slnf_plan.specs.declared.plan.InstancePlan.{InstancePlan};
ghost use Rattle.slnf_run.specs.Jobs.{Job};
ghost use Rattle.slnf_flight.specs.declared.flights.AnyFlight.{AnyFlight};
ghost use Rattle.slnf_ledger.specs.Ledger.{places_in, place_at, verdicts_at, added_by, given_from, DidSo};

use crate::ledgers::Ledger;
use slnf_base::{NoMemory, Verdict};
use slnf_instance::Work;
use slnf_plan::InstancePlan;

/// How far the lane of the actor with this number has come. A sweep, which stands behind the instances, has no lane.
pub fn place_of(instances: &[InstancePlan], ledger: &Ledger, number: usize) -> usize
    ensures { result ≡ place_at (places_in ledger.now) instances.now number }
{
    match instances.get(number) {
        None => 0,
        Some(instance) => ledger.place(instance.lane),
    }
}

/// Adds what the actor with this number of an epoch did to its lane's verdicts. A sweep, which stands behind the
/// instances, has no lane.
pub fn add_work(
    ledger: &mut Ledger,
    instances: &[InstancePlan],
    number: usize,
    verdicts: &[Verdict],
) -> Result<(), NoMemory>
    requires { (i : InstancePlan) → slice_get instances.now number ≡ Some i → i.lane < length ledger.old }
    ensures count { OnOk result (length ledger.new ≡ length ledger.old) }
    ensures added { OnOk result ((lane : ℕ) → verdicts_at ledger.new lane
        ≡ verdicts_at ledger.old lane ++ added_by (slice_get instances.now number) verdicts.now lane) }
{
    if number < instances.len() {
        ledger.add(instances[number].lane, verdicts)?;
    }
    Ok(())
}

/// Adds what each actor of an epoch did to its lane's verdicts.
pub fn add_works(
    ledger: &mut Ledger,
    instances: &[InstancePlan],
    works: &[Work],
) -> Result<(), NoMemory>
    requires there { (k : ℕ) (i : InstancePlan) → slice_get instances.now k ≡ Some i → i.lane < length ledger.old }
    requires works { length instances.now ≤ length works.now }
    ensures count { OnOk result (length ledger.new ≡ length ledger.old) }
    ensures given { OnOk result ((jobs : ℕ → InstancePlan → Job AnyFlight) (owns : ℕ → List Entry)
        → DidSo jobs owns works.now instances.now
        → (lane : ℕ) → verdicts_at ledger.new lane
        ≡ verdicts_at ledger.old lane ++ given_from jobs owns 0 instances.now lane) }
{
    for number in 0..works.len() {
        add_work(ledger, instances, number, works[number].verdicts.as_slice())?;
    }
    Ok(())
}
