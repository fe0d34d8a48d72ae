ghost use Rattle.std.specs.Prelude.{◌≡◌, IsTrue, List};
ghost use Rattle.std.specs.List.{AllByRecursion};
ghost use Rattle.slnf_access.specs.declared.requests.Entry.{Entry};
ghost use Rattle.slnf_plan.specs.declared.plan.Plan.{Plan};
ghost use Rattle.slnf_run.specs.Run.{IsRun};
ghost use Rattle.slnf_flight.specs.declared.lanes.Lane.{Lane};
ghost use Rattle.slnf_flight.specs.PlanSetting.{setting_of};
ghost use Rattle.slnf_setting.specs.Fits.{has_types};
ghost use Rattle.slnf_replay.specs.BoxText.{box_answers};
ghost use Rattle.slnf_replay.specs.Decided.{decided_lines, IsWritten};

/// What the one ordinary box answers to the packets of a run is what the run decided of them, each at its place, and
/// what is written for each of these packets that isn't lost.
pub fn boxes_answer_as_written()
    ensures decided { (plan : Plan) (lanes : List Lane) (es : List Entry) → IsTrue (has_types plan.function)
        → IsRun (setting_of plan lanes) es → box_answers plan lanes es ≡ decided_lines (setting_of plan lanes) es }
    ensures written { (plan : Plan) (lanes : List Lane) (es : List Entry) → IsTrue (has_types plan.function)
        → IsRun (setting_of plan lanes) es
        → AllByRecursion (IsWritten (setting_of plan lanes) es) (box_answers plan lanes es) }
{}
