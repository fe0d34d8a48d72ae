//! Several accesses, in one turn.
ghost use Rattle.std.specs.Prelude.{◌≡◌, ◌≢◌, ◌<◌, ◌≤◌, ◌%◌, List, length, MatchResult, slice_index};
ghost use Rattle.slnf_access.specs.declared.requests.Entry.{Entry};
ghost use Rattle.slnf_access.specs.Map.{key_of, IsLegal};
ghost use Rattle.slnf_store.specs.Stores.{shards_of, IsOf};
ghost use Rattle.slnf_store.specs.Accesses.{first_shard, AreInShard, MakesAccesses, RefusesAccesses};

use super::Store;
use crate::gates::Gate;
use crate::passes::StorePass;
use crate::turns::{Caller, one_turn_of_many};
use slnf_access::{Ask, Reply};
use slnf_bucket::BucketError;
use std::sync::Wait;

impl Store {
    /// Makes 1 to 32 accesses in order, in one turn of the shard of their keys, or none of them. Their entries end the
    /// shard's history and the pass's own list, and the last stamp becomes the pass's clock. `StampsSpent` comes exactly
    /// where one of them would meet the clock 2^62 - 1, and else `NoMemory` where the bucket found none for all of them.
    /// After both refusals the pass's clock and `replies` are as before. No clause says that the turn comes.
    pub fn access_many<R: Wait, G: Gate>(
        &self,
        rt: &R,
        gate: &G,
        pass: &mut StorePass,
        asks: &[Ask],
        replies: &mut [Reply],
    ) -> Result<(), BucketError>
        requires here { IsOf self.now pass.old }
        requires split { pass.old.known.number ≢ 0 }
        requires count { (0 < length asks.now) × (length asks.now ≤ 32) × (length asks.now ≡ length replies.old) }
        requires keys { AreInShard (shards_of self.now) (first_shard (shards_of self.now) asks.now) asks.now }
        ensures here { IsOf self.now pass.new }
        // Some legal history of the shard is what the accesses found there.
        ensures access { (earlier : List Entry) × IsLegal earlier × MatchResult result
            (λ _. MakesAccesses (first_shard (shards_of self.now) asks.now) earlier pass.old pass.new asks.now
            replies.new)
            (λ refusal. RefusesAccesses (length asks.now) (first_shard (shards_of self.now) asks.now) earlier
            pass.old pass.new refusal × (replies.new ≡ replies.old)) }
    {
        let shard = self.shard_of(asks[0].request.key());
        let caller = Caller {
            incarnation: pass.number - 1,
            clock: pass.clock,
        };
        match one_turn_of_many(
            rt,
            gate,
            &self.turns,
            &mut pass.pass,
            shard,
            &caller,
            asks,
            replies,
        ) {
            Ok(last) => {
                pass.clock = last;
                Ok(())
            }
            Err(refusal) => Err(refusal),
        }
    }
}
