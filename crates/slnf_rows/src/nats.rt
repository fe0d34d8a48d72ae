ghost use Rattle.slnf_rows.specs.Rows.{Gives};
ghost use Rattle.slnf_rows.specs.Nats.{IsPoolTo, out_and_back, race_on_one_flow, loser_is_seen, stop_after_the_claim, nat_stop_after_the_record, lost_is_seen, full_pool, pool_of_one, pool_of_one_starves, inbound_to_an_unconfirmed_port, unconfirmed_is_seen, sweep};

/// The definitions give what the worked runs of a NAT say.
pub fn nat_examples()
    ensures out_and_back { Gives (IsPoolTo 40003) out_and_back }
    ensures race_on_one_flow { Gives (IsPoolTo 40003) race_on_one_flow }
    ensures loser_is_seen { loser_is_seen }
    ensures stop_after_the_claim { Gives (IsPoolTo 40003) stop_after_the_claim }
    ensures stop_after_the_record { Gives (IsPoolTo 40003) nat_stop_after_the_record }
    ensures lost_is_seen { lost_is_seen }
    ensures full_pool { Gives (IsPoolTo 40000) full_pool }
    ensures pool_of_one { Gives (IsPoolTo 40000) pool_of_one }
    ensures pool_of_one_starves { Gives (IsPoolTo 40000) pool_of_one_starves }
    ensures inbound_to_an_unconfirmed_port { Gives (IsPoolTo 40003) inbound_to_an_unconfirmed_port }
    ensures unconfirmed_is_seen { unconfirmed_is_seen }
    ensures sweep { Gives (IsPoolTo 40001) sweep }
{}
