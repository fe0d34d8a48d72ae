ghost use Rattle.std.specs.Prelude.{◌≡◌, ◌+◌, ◌-◌, ◌*◌, ◌<◌, ◌≤◌, ◌^◌, ◌↔◌, ℕ, List, length, map, IfOk, OnOk, OnErr, IsPermutation};
ghost use Rattle.slnf_access.specs.declared.requests.Entry.{Entry};

use slnf_access::{Entry, Reply, Request};
use slnf_base::{NoMemory, Row};
use slnf_bucket::{Bucket, BucketError};
use slnf_merge::merge;
use std::alloc::Global;
use std::hash::RandomState;
use std::marker::Model;

/// The buckets of a store: the one at `k` is shard `k`'s. Contracts see their histories, in the order of the shards.
#[derive(Debug, Drop)]
pub struct Shards {
    buckets: Vec<Bucket>,
}

impl Model for Shards {
    ghost use Rattle.std.specs.Prelude.{List};
    ghost use Rattle.slnf_access.specs.declared.requests.Entry.{Entry};
    ghost use Rattle.slnf_shards.specs.Shards.{IsSharded, histories_of};

    ghost Value = { List (List Entry) };

    ghost view = { λ shards. histories_of shards.buckets.items };

    ghost invariant = { λ shards. IsSharded shards.buckets.items };
}

impl Shards {
    ghost use Rattle.slnf_access.specs.Map.{CanReply, IsLegal};
    ghost use Rattle.slnf_access.specs.Order.{InOrder};
    ghost use Rattle.slnf_merge.specs.Merge.{all_of};
    ghost use Rattle.slnf_run.specs.Made.{greatest_last};
    ghost use Rattle.slnf_run.specs.Scheduled.{in_order};
    ghost use Rattle.slnf_shards.specs.Shards.{AreEmpty, AreStored, latest_on, entry_on, with_entry_on, spent};
    ghost use Rattle.slnf_shards.specs.Parts.{ArePartsOf};

    /// The store of 1 to 64 shards before any access. Its maps are hashed with this state, which no clause speaks of.
    pub fn make(alloc: Global, state: RandomState, count: u32) -> Result<Shards, NoMemory>
        requires some { 0 < count }
        requires most { count ≤ 64 }
        ensures count { IfOk result (λ shards. length shards ≡ count) }
        ensures none { IfOk result AreEmpty }
    {
        let mut buckets = Vec::with_capacity(alloc, count as usize)?;
        for shard in 0..count {
            buckets.push(Bucket::make(alloc, state, shard, count)?)?;
        }
        Ok(Shards { buckets })
    }

    /// Makes one access in the shard of its key, by a caller with this clock, and answers its reply and its stamp.
    /// `StampsSpent` comes where the greater clock is 2^62 - 1. After an error all is as before.
    pub fn access(
        &mut self,
        incarnation: u64,
        item: u64,
        clock: u64,
        request: Request,
    ) -> Result<(Reply, u64), BucketError>
        requires clock { clock < 2 ^ 62 }
        ensures made { OnOk result
            (self.new ≡ with_entry_on self.old (entry_on self.old clock incarnation item request)) }
        ensures reply { IfOk result
            (λ answer. answer.0 ≡ (entry_on self.old clock incarnation item request).reply) }
        ensures stamp { IfOk result
            (λ answer. answer.1 ≡ (entry_on self.old clock incarnation item request).stamp) }
        ensures below { IfOk result (λ answer. answer.1 < 2 ^ 62) }
        ensures can { IfOk result (λ answer. CanReply request answer.0) }
        ensures stamps_spent { (last : ℕ) → (result ≡ Err (BucketError.StampsSpent last))
            ↔ ((last ≡ latest_on self.old clock request) × (last ≡ 2 ^ 62 - 1)) }
        ensures unchanged { OnErr result (self.new ≡ self.old) }

        // Each access spends stamps, and there are only so many.
        ensures spends { OnOk result (spent self.old < spent self.new) }
        ensures most { OnOk result (spent self.new ≤ length self.new * 2 ^ 62) }
        ensures count { length self.new ≡ length self.old }
    {
        let shard = request.key().0 % self.buckets.len() as u128;
        let bucket = &mut self.buckets[shard as usize];
        bucket.access(incarnation, item, clock, request)
    }

    /// The greatest stamp so far, and 0 before any access.
    pub fn latest(&self) -> u64
        ensures value { result ≡ greatest_last self.now }
        ensures below { result < 2 ^ 62 }
    {
        let mut latest = 0;
        for bucket in &self.buckets {
            latest = bucket.clock().max(latest);
        }
        latest
    }

    /// The accesses of each shard, in order.
    pub fn into_histories(self, alloc: Global) -> Result<Vec<Vec<Entry>>, NoMemory>
        ensures value { IfOk result (λ histories. map (λ history. history.items) histories.items ≡ self) }
        ensures stored { IfOk result (λ _. AreStored (length self) self) }
    {
        let Shards { buckets } = self;
        let mut histories = Vec::with_capacity(alloc, buckets.len())?;
        for bucket in buckets {
            histories.push(bucket.into_history())?;
        }
        Ok(histories)
    }

    /// All accesses in order of (stamp, shard). Where they were made as a list, it is that list in order.
    pub fn journal(self, alloc: Global) -> Result<Row<Entry>, NoMemory>
        ensures value { IfOk result (λ journal. (epoch : ℕ → ℕ) (m : List Entry)
            → ArePartsOf epoch m self → journal ≡ in_order m) }
        ensures same { IfOk result (λ journal. IsPermutation (all_of self) journal) }
        ensures in_order { IfOk result InOrder }
        ensures legal { IfOk result IsLegal }
    {
        let histories = self.into_histories(alloc)?;
        let merged = merge(alloc, histories)?;
        Ok(Row::from_vec(merged))
    }
}
