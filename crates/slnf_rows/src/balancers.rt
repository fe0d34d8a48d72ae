ghost use Rattle.slnf_rows.specs.Rows.{Gives};
ghost use Rattle.slnf_rows.specs.Files.{usual_packets, usual_frames};
ghost use Rattle.slnf_rows.specs.Balancers.{IsService, usual_case, two_instances_one_flow, second_is_seen, stop_after_the_record, drain_and_hand_over, batches, two_shards, balancer_return};

/// The definitions give what the worked runs of a balancer say.
pub fn balancer_examples()
    ensures usual_case { Gives IsService usual_case }
    ensures usual_packets { usual_packets }
    ensures usual_frames { usual_frames }
    ensures two_instances_one_flow { Gives IsService two_instances_one_flow }
    ensures second_is_seen { second_is_seen }
    ensures stop_after_the_record { Gives IsService stop_after_the_record }
    ensures drain_and_hand_over { Gives IsService drain_and_hand_over }
    ensures batches { Gives IsService batches }
    ensures two_shards { Gives IsService two_shards }
    ensures balancer_return { Gives IsService balancer_return }
{}
