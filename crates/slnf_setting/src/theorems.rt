//! The laws of plans: they stand as the contract of a function that does nothing.
ghost use Rattle.std.specs.Prelude.{◌≡◌, ◌+◌, ℕ, Option, Some, List, length, slice_get, IsTrue, ◌<◌, ◌^◌, ◌≤◌};
ghost use Rattle.slnf_base.specs.declared.plans.Pool.{Pool};
ghost use Rattle.slnf_access.specs.declared.requests.Entry.{Entry};
ghost use Rattle.slnf_access.specs.Map.{IsLegal};
ghost use Rattle.slnf_plan.specs.declared.plan.Plan.{Plan};
ghost use Rattle.slnf_plan.specs.declared.plan.Epoch.{Epoch};
ghost use Rattle.slnf_plan.specs.declared.plan.InstancePlan.{InstancePlan};
ghost use Rattle.slnf_plan.specs.declared.plan.SweepPlan.TheVariants.{Yes};
ghost use Rattle.slnf_run.specs.Setting.{base_of, total_of};
ghost use Rattle.slnf_run.specs.Images.{stand_as};
ghost use Rattle.slnf_run.specs.Keeps.{HasPaths};
ghost use Rattle.slnf_plan.specs.declared.plan.FunctionPlan.TheVariants.{Nat};
ghost use Rattle.slnf_run.specs.Scene.{stand_of};
ghost use Rattle.slnf_run.specs.Run.{IsRun};
ghost use Rattle.slnf_run.specs.OneBox.{IsSound};
ghost use Rattle.slnf_box.specs.Pools.{nat_of};
ghost use Rattle.slnf_nat.specs.LeaksNothing.{LeaksNothing};
ghost use Rattle.slnf_flight.specs.declared.lanes.Lane.{Lane};
ghost use Rattle.slnf_flight.specs.Lanes.{packet_at};
ghost use Rattle.slnf_flight.specs.Begins.{begins_with};
ghost use Rattle.slnf_flight.specs.Lanes.{lane_sizes, packet_count};
ghost use Rattle.slnf_flight.specs.Actors.{eras_of};
ghost use Rattle.slnf_flight.specs.AnyFunction.{any_machine, any_starts};
ghost use Rattle.slnf_setting.specs.Bound.{IsBoundedFor, AreItemsOf};
ghost use Rattle.slnf_flight.specs.declared.flights.AnyFlight.TheVariants.{Nat as NatFlies};
ghost use Rattle.slnf_setting.specs.Fits.{has_types};
ghost use Rattle.slnf_nat.specs.Starts.{sweep_item};
ghost use Rattle.slnf_flight.specs.PlanSetting.{setting_of};
ghost use Rattle.slnf_setting.specs.OneBoxOfPlan.{IsOneBoxOfPlan};
ghost use Rattle.slnf_setting.specs.OwnFlights.{IsStandOf};
ghost use Rattle.slnf_setting.specs.Pairs.{KeepsPairs};
ghost use Rattle.slnf_setting.specs.Replies.{NoneIll};
ghost use Rattle.slnf_setting.specs.NatRuns.{NatRunsWell};
ghost use Rattle.slnf_setting.specs.Sees.{SeesLanes};
ghost use Rattle.slnf_run.specs.Scheduled.{usual_way, IsScheduled};
ghost use Rattle.slnf_run.specs.Stamps.{HasClockStamps};
ghost use Rattle.slnf_run.specs.Items.{Item};
ghost use Rattle.slnf_run.specs.SoFar.{IsSoFar, HoldsSoFar};
ghost use Rattle.slnf_run.specs.Setting.{era_of};
ghost use Rattle.slnf_run.specs.Made.{clock, of_shard, last_stamp};
ghost use Rattle.std.specs.List.{AllByRecursion};
ghost use Rattle.slnf_setting.specs.Runs.{IsRunOfPlan};

/// The setting of each plan is sound, and its items fly as its function's alone. One ordinary box explains each run of
/// it, with all that is written. No two live flows share an outside pair, and no flow's outside pair and no client's
/// backend changes. In a NAT's run nothing leaks. Each item makes a bounded number of accesses, and within the limits a
/// plan's items make fewer than 2^41; the entries of a run are such items'.
pub fn plan_has_one_box()
    ensures sound { (plan : Plan) (lanes : List Lane) → IsSound (setting_of plan lanes) }
    ensures own { (plan : Plan) (lanes : List Lane) (i k : ℕ) (es : List Entry)
        → IsStandOf plan.function (stand_of (setting_of plan lanes).scene i k es) }
    ensures one_box { (plan : Plan) (lanes : List Lane) (es : List Entry)
        → IsTrue (has_types plan.function) → IsRun (setting_of plan lanes) es
        → IsOneBoxOfPlan plan lanes es }
    ensures pairs { (plan : Plan) (lanes : List Lane) (es : List Entry)
        → IsTrue (has_types plan.function) → IsRun (setting_of plan lanes) es
        → KeepsPairs plan.function es }
    ensures leaks_nothing { (plan : Plan) (lanes : List Lane) (es : List Entry) (pool : Pool) → plan.function ≡ Nat pool
        → IsTrue (has_types plan.function) → IsRun (setting_of plan lanes) es
        → LeaksNothing (nat_of pool) (λ cells. cells) (setting_of plan lanes) es }
    ensures none_ill { (plan : Plan) (lanes : List Lane) (es : List Entry)
        → IsTrue (has_types plan.function) → IsRun (setting_of plan lanes) es
        → NoneIll plan.function es }
    ensures nat { (plan : Plan) (lanes : List Lane) (es : List Entry) (pool : Pool) → plan.function ≡ Nat pool
        → IsTrue (has_types plan.function) → IsRun (setting_of plan lanes) es
        → NatRunsWell (nat_of pool) (setting_of plan lanes).scene es }
    ensures bounded { (plan : Plan) (lanes : List Lane) (es : List Entry) → IsLegal es
        → HasPaths (setting_of plan lanes).scene es
        → IsBoundedFor plan.function (setting_of plan lanes).scene.begins es }
    ensures items { (plan : Plan) (lanes : List Lane) (es : List Entry) → IsRun (setting_of plan lanes) es
        → (packets sweeps : List Item) × AreItemsOf (setting_of plan lanes) packets sweeps es }
    ensures fewer { (plan : Plan) (lanes : List Lane) (packets sweeps : List Item) (es : List Entry)
        → IsTrue (has_types plan.function) → total_of (lane_sizes lanes) ≤ 2 ^ 20 → IsLegal es
        → HasPaths (setting_of plan lanes).scene es → AreItemsOf (setting_of plan lanes) packets sweeps es
        → length es < 2 ^ 41 }
{}

/// What a plan's setting has at an instance and at a sweep, by the numbers of the epoch and the actor. The packet that
/// its box sees of an instance's item is its lane's.
pub fn plan_begins_so()
    ensures machine { (plan : Plan) (lanes : List Lane) (i : ℕ)
        → (setting_of plan lanes).scene.machine i ≡ any_machine plan.function }
    ensures instance { (plan : Plan) (lanes : List Lane) (number k item : ℕ) (epoch : Epoch) (i : InstancePlan)
        → slice_get plan.epochs number ≡ Some epoch → slice_get epoch.instances k ≡ Some i
        → (setting_of plan lanes).scene.begins (base_of (eras_of plan.epochs) number + k) item
        ≡ begins_with (any_starts plan.function (Some epoch) (base_of (eras_of plan.epochs) number + k) item)
        (packet_at lanes item (Some i.lane)) }
    ensures sweep { (plan : Plan) (lanes : List Lane) (number item : ℕ) (epoch : Epoch) (pool : Pool) (stop : Option ℕ)
        → plan.function ≡ Nat pool → slice_get plan.epochs number ≡ Some epoch → epoch.sweep ≡ Yes stop
        → (setting_of plan lanes).scene.begins (base_of (eras_of plan.epochs) number + length epoch.instances) item
        ≡ stand_as NatFlies (sweep_item pool (base_of (eras_of plan.epochs) number) item) }
    ensures sees { (plan : Plan) (lanes : List Lane)
        → SeesLanes (setting_of plan lanes).scene (eras_of plan.epochs) lanes }
{}

/// The journal that a plan's schedule makes is a run of the plan's setting, and each of its stamps is one more than the
/// greater of its shard's last one and its actor's clock.
pub fn plan_schedules_so()
    ensures run { (plan : Plan) (lanes : List Lane) (j : List Entry)
        → IsScheduled (setting_of plan lanes) (usual_way (setting_of plan lanes).eras) j → length j < 2 ^ 62
        → IsRun (setting_of plan lanes) j }
    ensures stamps { (plan : Plan) (lanes : List Lane) (j : List Entry)
        → IsScheduled (setting_of plan lanes) (usual_way (setting_of plan lanes).eras) j
        → HasClockStamps (setting_of plan lanes) j }
{}

/// The accesses of a plan's schedule so far, also in the middle of an epoch: each reply is the map's, and each item's
/// entries are a path. Within the limits there are fewer than 2^41, of the packets of the lanes and of the sweeps'
/// items, and all stamps and clocks are below that.
pub fn plan_passes_few()
    ensures so_far { (plan : Plan) (lanes : List Lane) (number base : ℕ) (places : ℕ → ℕ) (m : List Entry)
        → IsSoFar (setting_of plan lanes) (usual_way (eras_of plan.epochs)) number base places m
        → HoldsSoFar (setting_of plan lanes) m }
    ensures items { (plan : Plan) (lanes : List Lane) (number base : ℕ) (places : ℕ → ℕ) (m : List Entry)
        → IsSoFar (setting_of plan lanes) (usual_way (eras_of plan.epochs)) number base places m
        → (packets sweeps : List Item) × AreItemsOf (setting_of plan lanes) packets sweeps m }
    ensures fewer { (plan : Plan) (lanes : List Lane) (number base : ℕ) (places : ℕ → ℕ) (m : List Entry)
        → IsTrue (has_types plan.function) → packet_count lanes ≤ 1048576
        → IsSoFar (setting_of plan lanes) (usual_way (eras_of plan.epochs)) number base places m
        → length m < 2 ^ 41 }
    ensures stamps { (plan : Plan) (lanes : List Lane) (number base : ℕ) (places : ℕ → ℕ) (m : List Entry)
        → IsTrue (has_types plan.function) → packet_count lanes ≤ 1048576
        → IsSoFar (setting_of plan lanes) (usual_way (eras_of plan.epochs)) number base places m
        → AllByRecursion (λ e. e.stamp < 2 ^ 41) m }
    ensures clocks { (plan : Plan) (lanes : List Lane) (number base : ℕ) (places : ℕ → ℕ) (m : List Entry)
        → IsTrue (has_types plan.function) → packet_count lanes ≤ 1048576
        → IsSoFar (setting_of plan lanes) (usual_way (eras_of plan.epochs)) number base places m
        → (i : ℕ) → clock (era_of (eras_of plan.epochs)) m i < 2 ^ 41 }
    ensures shards { (plan : Plan) (lanes : List Lane) (number base : ℕ) (places : ℕ → ℕ) (m : List Entry)
        → IsTrue (has_types plan.function) → packet_count lanes ≤ 1048576
        → IsSoFar (setting_of plan lanes) (usual_way (eras_of plan.epochs)) number base places m
        → (shard : ℕ) → last_stamp (of_shard shard m) < 2 ^ 41 }
{}

/// The journal that a plan's schedule makes of few packets is a run with all that the laws of plans tell of runs, and
/// each of its stamps is one more than the greater of its shard's last one and its actor's clock.
pub fn plan_runs_so()
    ensures runs { (plan : Plan) (lanes : List Lane) (j : List Entry)
        → IsTrue (has_types plan.function) → packet_count lanes ≤ 1048576
        → IsScheduled (setting_of plan lanes) (usual_way (eras_of plan.epochs)) j
        → IsRunOfPlan plan lanes j }
    ensures stamps { (plan : Plan) (lanes : List Lane) (j : List Entry)
        → IsScheduled (setting_of plan lanes) (usual_way (eras_of plan.epochs)) j
        → HasClockStamps (setting_of plan lanes) j }
{}
