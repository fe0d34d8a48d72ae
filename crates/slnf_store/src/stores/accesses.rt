//! One access, in its shard's turn.
ghost use Rattle.std.specs.Prelude.{◌≡◌, ◌≢◌, ◌%◌, ◌<◌, List, MatchResult, IfOk};
ghost use Rattle.slnf_access.specs.declared.requests.Entry.{Entry};
ghost use Rattle.slnf_access.specs.Map.{key_of, CanReply, IsLegal};
ghost use Rattle.slnf_store.specs.Stores.{shards_of, IsOf};
ghost use Rattle.slnf_store.specs.Accesses.{MakesAccess, RefusesAccesses};

use super::Store;
use crate::gates::Gate;
use crate::passes::StorePass;
use crate::turns::{Caller, one_turn};
use slnf_access::{Ask, Key, Reply, Request};
use slnf_bucket::BucketError;
use std::sync::Wait;

impl Store {
    // The shard of a key.
    pub(super) fn shard_of(&self, key: Key) -> u32
        ensures value { result ≡ key.0 % shards_of self.now }
        ensures inside { result < shards_of self.now }
    {
        (key.0 % u128::from(self.count)) as u32
    }

    /// Makes one access in its shard's turn. Its entry ends the shard's history and the pass's own list, and its stamp,
    /// one more than the greater of the shard's last stamp and the pass's clock, becomes the pass's clock.
    /// `StampsSpent` comes exactly where that greater clock is 2^62 - 1, and else `NoMemory` where the shard's bucket
    /// found none. A refused access makes no entry, and leaves the pass's clock. No clause says that the turn comes.
    pub fn access<R: Wait, G: Gate>(
        &self,
        rt: &R,
        gate: &G,
        pass: &mut StorePass,
        item: u64,
        request: Request,
    ) -> Result<Reply, BucketError>
        requires here { IsOf self.now pass.old }
        requires split { pass.old.known.number ≢ 0 }
        ensures here { IsOf self.now pass.new }
        // Some legal history of the shard is what the access found there.
        ensures access { (earlier : List Entry) × IsLegal earlier × MatchResult result
            (λ reply. MakesAccess (key_of request % shards_of self.now) earlier pass.old pass.new item request reply)
            (λ refusal. RefusesAccesses 1 (key_of request % shards_of self.now) earlier pass.old pass.new refusal) }
        ensures can { IfOk result (CanReply request) }
    {
        let shard = self.shard_of(request.key());
        let caller = Caller {
            incarnation: pass.number - 1,
            clock: pass.clock,
        };
        let ask = Ask { item, request };
        match one_turn(rt, gate, &self.turns, &mut pass.pass, shard, &caller, &ask) {
            Ok((reply, stamp)) => {
                pass.clock = stamp;
                Ok(reply)
            }
            Err(refusal) => Err(refusal),
        }
    }
}
