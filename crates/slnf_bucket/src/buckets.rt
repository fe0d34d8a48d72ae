ghost use Rattle.std.specs.Prelude.{◌≡◌, ◌≢◌, ◌+◌, ◌-◌, ◌^◌, ◌<◌, ◌≤◌, ◌%◌, ◌==◌, ◌↔◌, ℕ, [], max, nat_eq, if◌then◌else◌, IfOk, OnOk, OnErr, IsOk};
ghost use Rattle.std.specs.HashMap.{get, spare, IsUnchanged};

use crate::errors::BucketError;
use slnf_access::{Entry, Held, Reply, Request};
use slnf_base::NoMemory;
use std::alloc::{AllocError, Global};
use std::collections::HashMap;
use std::hash::RandomState;
use std::marker::Model;

/// The greatest stamp.
const LAST_STAMP: u64 = (1 << 62) - 1;

/// One shard's part of the store. Its map is what its history makes from the empty map, so the history is legal.
/// The map is hashed with the keys of a `RandomState`: an access is constant time on average, whatever keys are asked
/// for, and no answer tells of the state.
#[derive(Debug, Drop)]
pub struct Bucket {
    held: HashMap<u128, Held, RandomState>,
    entries: Vec<Entry>,
    clock: u64,
    shard: u32,
    shards: u32,
}

impl Model for Bucket {
    ghost use Rattle.std.specs.Prelude.{min, ◌-◌};
    ghost use Rattle.std.specs.HashMap.{spare};
    ghost use Rattle.std.specs.Vec.{vec_len, vec_capacity};
    ghost use Rattle.slnf_bucket.specs.Bucket.{Bucketed, IsBucket};

    ghost Value = { Bucketed };

    ghost view = { λ b. record {
      kept = record { shard = b.shard; shards = b.shards; clock = b.clock; entries = b.entries.items };
      spare = min (spare b.held) (vec_capacity b.entries - vec_len b.entries);
    } };

    ghost use Rattle.std.specs.Prelude.{nat_eq};
    ghost use Rattle.std.specs.HashMap.{get};

    ghost invariant = { λ b. IsBucket (get nat_eq b.held) (record { shard = b.shard; shards = b.shards; clock = b.clock; entries = b.entries.items }) };
}

impl Bucket {
    ghost use Rattle.slnf_access.specs.Map.{CanReply, IsLegal};
    ghost use Rattle.slnf_access.specs.Order.{IsHistory};
    ghost use Rattle.slnf_bucket.specs.Bucket.{IsKept, next_entry, with_entry};

    /// The bucket before any access. Its map is hashed with this state, which no clause speaks of.
    pub fn make(
        alloc: Global,
        state: RandomState,
        shard: u32,
        shards: u32,
    ) -> Result<Bucket, NoMemory>
        requires shard { shard < shards }
        requires shards { shards ≤ 64 }
        ensures { IfOk result
            (λ bucket. bucket.kept ≡ record { shard = shard; shards = shards; clock = 0; entries = [] }) }
    {
        Ok(Bucket {
            held: HashMap::with_hasher(alloc, state),
            entries: Vec::new(alloc),
            clock: 0,
            shard,
            shards,
        })
    }

    /// Makes one access, and answers its reply and its stamp, which is one more than the greater of the two
    /// clocks. `StampsSpent` comes where that clock is 2^62 - 1, before memory is taken.
    pub fn access(
        &mut self,
        incarnation: u64,
        item: u64,
        clock: u64,
        request: Request,
    ) -> Result<(Reply, u64), BucketError>
        requires shard { key_of request % self.old.kept.shards ≡ self.old.kept.shard }
        requires clock { clock ≤ 2 ^ 62 - 1 }
        ensures made { OnOk result
            (self.new.kept ≡ with_entry self.old.kept (next_entry self.old.kept incarnation item clock request)) }
        ensures reply { IfOk result
            (λ answer. answer.0 ≡ (next_entry self.old.kept incarnation item clock request).reply) }
        ensures stamp { IfOk result (λ answer. answer.1 ≡ max self.old.kept.clock clock + 1) }
        ensures below { IfOk result (λ answer. answer.1 < 2 ^ 62) }
        ensures can { IfOk result (λ answer. CanReply request answer.0) }

        // Each refusal, and what it leaves.
        ensures spent { (last : ℕ) → (result ≡ Err (BucketError.StampsSpent last))
            ↔ ((last ≡ max self.old.kept.clock clock) × (last ≡ 2 ^ 62 - 1)) }
        ensures unchanged { OnErr result (self.new.kept ≡ self.old.kept) }

        // With memory for one access none is refused for want of it, and an access uses up at most one.
        ensures room { 0 < self.old.spare → result ≢ Err BucketError.NoMemory }
        ensures spare { self.old.spare ≤ self.new.spare + 1 }
    {
        let latest = self.clock.max(clock);
        if latest == LAST_STAMP {
            return Err(BucketError::StampsSpent(latest));
        }
        let stamp = latest + 1;
        let key = request.key().0;
        let held = self.held.get(&key).copied();
        self.entries.reserve(1)?;
        hold(&mut self.held, key, held, request.leaves(stamp, held))?;
        let reply = request.reply(stamp, held);
        let entry = Entry {
            stamp,
            shard: self.shard,
            incarnation,
            item,
            request,
            reply,
        };
        self.entries.push(entry).unwrap();
        self.clock = stamp;
        Ok((reply, stamp))
    }

    /// Takes the memory for so many more accesses.
    pub fn reserve(&mut self, more: usize) -> Result<(), NoMemory>
        ensures ok { OnOk result (more ≤ self.new.spare) }
        ensures kept { self.new.kept ≡ self.old.kept }
        ensures spare { self.old.spare ≤ self.new.spare }
    {
        self.entries.reserve(more)?;
        self.held.reserve(more)?;
        Ok(())
    }

    /// The stamp of the last access, and 0 before any.
    pub fn clock(&self) -> u64
        ensures value { result ≡ self.now.kept.clock }
        ensures kept { IsKept self.now.kept }
    {
        self.clock
    }

    /// The accesses, in order.
    pub fn into_history(self) -> Vec<Entry>
        ensures value { result.items ≡ self.kept.entries }
        ensures legal { IsLegal result.items }
        ensures history { IsHistory self.kept.shard result.items }
        ensures kept { IsKept self.kept }
    {
        let Bucket {
            held: _,
            entries,
            clock: _,
            shard: _,
            shards: _,
        } = self;
        entries
    }
}

ghost use Rattle.slnf_access.specs.Map.{key_of};

/// Makes the map have this at the key, and what it had at each other key. Where it has this there already, the map's
/// memory isn't written to, so that other processors keep their copies of it.
fn hold(
    held: &mut HashMap<u128, Held, RandomState>,
    key: u128,
    before: Option<Held>,
    left: Option<Held>,
) -> Result<(), AllocError>
    requires before { before ≡ get nat_eq held.old key }
    ensures ok { OnOk result
        ((other : ℕ) → get nat_eq held.new other ≡ (if key == other then left else get nat_eq held.old other)) }
    ensures err { OnErr result (IsUnchanged held.old held.new) }
    ensures room { 0 < spare held.old → IsOk result }
    ensures spare { spare held.old ≤ spare held.new + 1 }
{
    if left == before {
        return Ok(());
    }
    match left {
        Some(left) => {
            held.insert(key, left)?;
        }
        None => {
            held.remove(&key);
        }
    }
    Ok(())
}
