//! The law of an epoch's actors: it stands as the contract of a function that does nothing else.
ghost use Rattle.std.specs.Prelude.{◌≡◌, ◌+◌, ℕ, List, Some, slice_get};
ghost use Rattle.slnf_plan.specs.declared.plan.Epoch.{Epoch};
ghost use Rattle.slnf_plan.specs.declared.plan.Plan.{Plan};
ghost use Rattle.slnf_run.specs.Setting.{Actor, base_of};
ghost use Rattle.slnf_run.specs.Jobs.{job_of};
ghost use Rattle.slnf_run.specs.Parts.{at_lane};
ghost use Rattle.slnf_instance.specs.Items.{Workload};
ghost use Rattle.slnf_instance.specs.Errands.{job_in};
ghost use Rattle.slnf_flight.specs.declared.flights.AnyFlight.{AnyFlight};
ghost use Rattle.slnf_flight.specs.declared.functions.AnyFunction.{AnyFunction};
ghost use Rattle.slnf_flight.specs.declared.lanes.Lane.{Lane};
ghost use Rattle.slnf_flight.specs.Actors.{era_of_epoch, eras_of};
ghost use Rattle.slnf_flight.specs.Functions.{IsFunctionOf};
ghost use Rattle.slnf_flight.specs.PlanSetting.{setting_of};
ghost use Rattle.slnf_crew.specs.Errands.{IsWorkOn, errand_of};

use slnf_flight::function_is_plans;
use slnf_setting::plan_begins_so;

/// The job of an epoch's actor, by its items and its errand, is that of its incarnation in the plan's setting.
pub fn actors_have_jobs()
    ensures { (plan : Plan) (lanes : List Lane) (number base : ℕ) (epoch : Epoch) (function : AnyFunction)
        (places : ℕ → ℕ) (k : ℕ) (actor : Actor) (work : Workload AnyFlight)
        → slice_get plan.epochs number ≡ Some epoch → base ≡ base_of (eras_of plan.epochs) number
        → IsFunctionOf plan.function (Some epoch) function → slice_get (era_of_epoch epoch).actors k ≡ Some actor
        → IsWorkOn function lanes base (base + k) actor.lane work
        → job_in work (errand_of plan places actor work.count)
        ≡ job_of (setting_of plan lanes) (base + k) (at_lane places actor) actor }
{
    plan_begins_so();
    function_is_plans();
}
