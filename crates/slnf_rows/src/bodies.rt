ghost use Rattle.slnf_rows.specs.WrongJournals.{own_claim_is_refused, kept_claim_is_refused, record_first_is_refused, one_candidate_is_refused, skipped_read_is_refused, any_claim_is_refused, any_flow_is_refused, new_version_is_refused, write_over_is_refused};

/// What a wrong body makes of a worked run is no run of its plan. The function's box doesn't explain a loser that emits
/// its own claim, a record without a claim, and a write over a newer state.
pub fn wrong_bodies()
    ensures own_claim { own_claim_is_refused }
    ensures kept_claim { kept_claim_is_refused }
    ensures record_first { record_first_is_refused }
    ensures one_candidate { one_candidate_is_refused }
    ensures skipped_read { skipped_read_is_refused }
    ensures any_claim { any_claim_is_refused }
    ensures any_flow { any_flow_is_refused }
    ensures new_version { new_version_is_refused }
    ensures write_over { write_over_is_refused }
{}
