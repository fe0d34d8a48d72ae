ghost use Rattle.std.specs.Prelude.{◌≡◌, ◌^◌, ◌<◌, ◌≤◌, ℕ, Some, slice_get};
ghost use Rattle.slnf_run.specs.Setting.{Actor};
ghost use Rattle.slnf_run.specs.Parts.{at_lane};
ghost use Rattle.slnf_instance.specs.Errands.{IsErrand};
ghost use Rattle.slnf_flight.specs.Actors.{era_of_epoch};
ghost use Rattle.slnf_crew.specs.Errands.{sweep_stop, errand_of};

use slnf_instance::Errand;
use slnf_plan::{Epoch, Plan, SweepPlan};

/// After how many accesses a sweep stops.
fn stop_of(sweep: SweepPlan) -> Option<u64>
    ensures { result ≡ sweep_stop sweep }
{
    match sweep {
        SweepPlan::No => None,
        SweepPlan::Yes { stop } => stop,
    }
}

/// What the actor with this number of an epoch is sent to do, over so many items. An instance's lane has come as far as
/// `at`; a sweep begins with its first port.
pub fn errand_for(plan: &Plan, epoch: &Epoch, number: usize, at: usize, count: usize) -> Errand
    requires count { count < 2 ^ 32 }
    requires at { at ≤ count }
    ensures errand { IsErrand count result }
    ensures given { (places : ℕ → ℕ) (actor : Actor) → slice_get (era_of_epoch epoch.now).actors number ≡ Some actor
        → at_lane places actor ≡ at → result ≡ errand_of plan.now places actor count }
{
    let instances = epoch.instances.as_slice();
    if number < instances.len() {
        let instance = instances[number];
        let batch = plan.batch as usize;
        return Errand::over(count, at, batch, plan.shards, instance.quota, instance.stop);
    }
    Errand::over(count, 0, 1, plan.shards, None, stop_of(epoch.sweep))
}
