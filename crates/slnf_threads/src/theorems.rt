//! The law of merged parts: it stands as the contract of a function that does nothing.
ghost use Rattle.std.specs.Prelude.{List};
ghost use Rattle.std.specs.List.Sorted.{IsPermutation};
ghost use Rattle.slnf_access.specs.Order.{InOrder};
ghost use Rattle.slnf_access.specs.declared.requests.Entry.{Entry};
ghost use Rattle.slnf_merge.specs.Merge.{all_of};
ghost use Rattle.slnf_plan.specs.declared.plan.Plan.{Plan};
ghost use Rattle.slnf_turns.specs.declared.views.View.{View};
ghost use Rattle.slnf_store.specs.Closes.{IsClosed};
ghost use Rattle.slnf_run.specs.Run.{IsRun};
ghost use Rattle.slnf_run.specs.Stamps.{HasClockStamps};
ghost use Rattle.slnf_flight.specs.declared.lanes.Lane.{Lane};
ghost use Rattle.slnf_flight.specs.PlanSetting.{setting_of};
ghost use Rattle.slnf_threads.specs.Parts.{AreParts};

/// The histories of a closed store, merged in order, are a run of a plan's setting where each of its actors has worked up
/// to its end in the list of its pass, after the actors of all earlier epochs. Each stamp is one more than the greater of
/// its shard's last one and its actor's clock.
pub fn parts_are_runs()
    ensures runs { (plan : Plan) (lanes : List Lane) (root : View) (histories : List (List Entry)) (merged : List Entry)
        → IsClosed plan.shards root histories → IsPermutation (all_of histories) merged → InOrder merged
        → AreParts (setting_of plan lanes) root merged → IsRun (setting_of plan lanes) merged }
    ensures stamps { (plan : Plan) (lanes : List Lane) (root : View) (histories : List (List Entry))
        (merged : List Entry) → IsClosed plan.shards root histories → IsPermutation (all_of histories) merged
        → InOrder merged → AreParts (setting_of plan lanes) root merged
        → HasClockStamps (setting_of plan lanes) merged }
{}
