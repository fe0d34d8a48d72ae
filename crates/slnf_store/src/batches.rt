//! Several accesses of one bucket: all of them, or none.
ghost use Rattle.std.specs.Prelude.{◌≡◌, ◌+◌, ◌-◌, ◌%◌, ◌^◌, ◌<◌, ◌≤◌, ◌++◌, ◌↔◌, ℕ, max, map, length, OnOk, OnErr, IfOk, IfErr};
ghost use Rattle.slnf_access.specs.Map.{key_of};
ghost use Rattle.slnf_bucket.specs.Bucket.{IsKept, last_stamp, next_entry, with_entry};
ghost use Rattle.slnf_bucket.specs.declared.errors.BucketError.TheVariants.{StampsSpent};
ghost use Rattle.slnf_store.specs.Accesses.{AreInShard, entries_after};

use crate::turns::Caller;
use slnf_access::{Ask, Reply};
use slnf_bucket::{Bucket, BucketError};

/// The greatest stamp.
const LAST_STAMP: u64 = (1 << 62) - 1;

// Makes one access of a bucket that has memory and a stamp for it.
fn sure_access(bucket: &mut Bucket, incarnation: u64, clock: u64, ask: &Ask) -> (Reply, u64)
    requires shard { key_of ask.now.request % bucket.old.kept.shards ≡ bucket.old.kept.shard }
    requires stamps { max bucket.old.kept.clock clock < 2 ^ 62 - 1 }
    requires room { 0 < bucket.old.spare }
    ensures kept { bucket.new.kept
        ≡ with_entry bucket.old.kept (next_entry bucket.old.kept incarnation ask.now.item clock ask.now.request) }
    ensures reply { result.0 ≡ (next_entry bucket.old.kept incarnation ask.now.item clock ask.now.request).reply }
    ensures stamp { result.1 ≡ max bucket.old.kept.clock clock + 1 }
    ensures spare { bucket.old.spare ≤ bucket.new.spare + 1 }
{
    match bucket.access(incarnation, ask.item, clock, ask.request) {
        Ok(made) => made,
        Err(BucketError::StampsSpent(_)) => unreachable!(),
        Err(BucketError::NoMemory) => unreachable!(),
    }
}

// Makes all accesses of a bucket that has memory and stamps for them, and answers the last stamp.
fn sure_accesses(bucket: &mut Bucket, caller: &Caller, asks: &[Ask], replies: &mut [Reply]) -> u64
    requires keys { AreInShard bucket.old.kept.shards bucket.old.kept.shard asks.now }
    requires kept { bucket.old.kept.clock ≡ last_stamp 0 bucket.old.kept.entries }
    requires stamps { max bucket.old.kept.clock caller.now.clock + length asks.now < 2 ^ 62 }
    requires room { length asks.now ≤ bucket.old.spare }
    requires count { length asks.now ≡ length replies.old }
    ensures entries { bucket.new.kept.entries ≡ bucket.old.kept.entries
        ++ entries_after bucket.old.kept.entries bucket.old.kept.shard caller.now.incarnation caller.now.clock asks.now }
    ensures shard { bucket.new.kept.shard ≡ bucket.old.kept.shard }
    ensures shards { bucket.new.kept.shards ≡ bucket.old.kept.shards }
    ensures replies { replies.new ≡ map (λ entry. entry.reply)
        (entries_after bucket.old.kept.entries bucket.old.kept.shard caller.now.incarnation caller.now.clock asks.now) }
    ensures stamp { result ≡ last_stamp caller.now.clock
        (entries_after bucket.old.kept.entries bucket.old.kept.shard caller.now.incarnation caller.now.clock asks.now) }
    ensures below { result < 2 ^ 62 }
{
    let mut clock = caller.clock;
    for i in 0..asks.len() {
        let (reply, stamp) = sure_access(bucket, caller.incarnation, clock, &asks[i]);
        replies[i] = reply;
        clock = stamp;
    }
    clock
}

// Makes all accesses, or none where stamps or memory are wanting, and answers the last stamp.
pub(crate) fn make_all(
    bucket: &mut Bucket,
    caller: &Caller,
    asks: &[Ask],
    replies: &mut [Reply],
) -> Result<u64, BucketError>
    requires clock { caller.now.clock < 2 ^ 62 }
    requires keys { AreInShard bucket.old.kept.shards bucket.old.kept.shard asks.now }
    requires count { (length asks.now ≤ 32) × (length asks.now ≡ length replies.old) }
    ensures kept { IsKept bucket.old.kept }
    ensures entries { OnOk result (bucket.new.kept.entries ≡ bucket.old.kept.entries
        ++ entries_after bucket.old.kept.entries bucket.old.kept.shard caller.now.incarnation caller.now.clock asks.now) }
    ensures shard { bucket.new.kept.shard ≡ bucket.old.kept.shard }
    ensures shards { bucket.new.kept.shards ≡ bucket.old.kept.shards }
    ensures replies { OnOk result (replies.new ≡ map (λ entry. entry.reply)
        (entries_after bucket.old.kept.entries bucket.old.kept.shard caller.now.incarnation caller.now.clock asks.now)) }
    ensures stamp { IfOk result (λ last. last ≡ last_stamp caller.now.clock
        (entries_after bucket.old.kept.entries bucket.old.kept.shard caller.now.incarnation caller.now.clock asks.now)) }
    ensures below { IfOk result (λ last. last < 2 ^ 62) }
    ensures unchanged { OnErr result ((bucket.new.kept ≡ bucket.old.kept) × (replies.new ≡ replies.old)) }
    ensures spent { IfErr result (λ refusal. (last : ℕ) → (refusal ≡ StampsSpent last)
        ↔ ((last ≡ 2 ^ 62 - 1) × (2 ^ 62 - 1 < max bucket.old.kept.clock caller.now.clock + length asks.now))) }
{
    let latest = bucket.clock().max(caller.clock);
    if latest + asks.len() as u64 > LAST_STAMP {
        return Err(BucketError::StampsSpent(LAST_STAMP));
    }
    match bucket.reserve(asks.len()) {
        Ok(()) => Ok(sure_accesses(bucket, caller, asks, replies)),
        Err(_) => Err(BucketError::NoMemory),
    }
}
