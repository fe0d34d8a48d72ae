//! One turn at a shard.
ghost use Rattle.std.specs.Prelude.{◌≡◌, ◌+◌, ◌%◌, ◌^◌, ◌<◌, ◌≤◌, [], ◌∷◌, max, map, length, List, MatchResult};
ghost use Rattle.slnf_access.specs.Map.{key_of, CanReply, IsLegal};
ghost use Rattle.slnf_access.specs.declared.requests.Entry.{Entry};
ghost use Rattle.slnf_bucket.specs.Bucket.{last_stamp};
ghost use Rattle.slnf_turns.specs.Passes.{view, shards, IsOf, HasNoTurn};
ghost use Rattle.slnf_store.specs.Accesses.{AreInShard, entry_after, entries_after, IsRefusal, TakesTurn};

use crate::batches::make_all;
use crate::gates::Gate;
use crate::shards::Shard;
use slnf_access::{Ask, Reply};
use slnf_bucket::{Bucket, BucketError};
use slnf_turns::{Pass, Turns};
use std::sync::Wait;

/// Who makes an access, and the stamp of its last one.
#[derive(Clone, Copy, Debug)]
pub(crate) struct Caller {
    pub(crate) incarnation: u64,
    pub(crate) clock: u64,
}

// Takes the shard's turn, makes one access and gives the turn back. It answers the reply and the stamp.
pub(crate) fn one_turn<R: Wait, G: Gate>(
    rt: &R,
    gate: &G,
    turns: &Turns<Shard>,
    pass: &mut Pass<Shard>,
    shard: u32,
    caller: &Caller,
    ask: &Ask,
) -> Result<(Reply, u64), BucketError>
    requires here { IsOf turns.now pass.old }
    requires free { HasNoTurn (view pass.old) }
    requires number { caller.now.incarnation + 1 ≡ (view pass.old).number }
    requires clock { caller.now.clock < 2 ^ 62 }
    requires shard { (key_of ask.now.request % shards turns.now ≡ shard) × (shard < shards turns.now) }
    ensures here { IsOf turns.now pass.new }
    ensures turn { (earlier : List Entry) × IsLegal earlier × MatchResult result
        (λ made.
        TakesTurn shard earlier
        (entry_after earlier shard caller.now.incarnation caller.now.clock ask.now.item ask.now.request ∷ [])
        (view pass.old) (view pass.new)
        × (made.0 ≡ (entry_after earlier shard caller.now.incarnation caller.now.clock ask.now.item
        ask.now.request).reply)
        × (made.1 ≡ max (last_stamp 0 earlier) caller.now.clock + 1)
        × (made.1 < 2 ^ 62)
        × CanReply ask.now.request made.0)
        (λ refusal.
        TakesTurn shard earlier [] (view pass.old) (view pass.new)
        × IsRefusal 1 (max (last_stamp 0 earlier) caller.now.clock) refusal) }
{
    let mut held = turns.take(rt, pass, shard);
    gate.inside(shard);
    let bucket: &mut Bucket = &mut held.value.bucket;
    // Its clause says that what the bucket keeps is a legal history, up to its clock.
    let _ = bucket.clock();
    let answer = bucket.access(caller.incarnation, ask.item, caller.clock, ask.request);
    turns.give(pass, held);
    answer
}

// Takes the shard's turn, makes all accesses or none and gives the turn back. It answers the last stamp.
pub(crate) fn one_turn_of_many<R: Wait, G: Gate>(
    rt: &R,
    gate: &G,
    turns: &Turns<Shard>,
    pass: &mut Pass<Shard>,
    shard: u32,
    caller: &Caller,
    asks: &[Ask],
    replies: &mut [Reply],
) -> Result<u64, BucketError>
    requires here { IsOf turns.now pass.old }
    requires free { HasNoTurn (view pass.old) }
    requires number { caller.now.incarnation + 1 ≡ (view pass.old).number }
    requires clock { caller.now.clock < 2 ^ 62 }
    requires shard { AreInShard (shards turns.now) shard asks.now × (shard < shards turns.now) }
    requires count { (length asks.now ≤ 32) × (length asks.now ≡ length replies.old) }
    ensures here { IsOf turns.now pass.new }
    ensures turn { (earlier : List Entry) × IsLegal earlier × MatchResult result
        (λ last.
        TakesTurn shard earlier
        (entries_after earlier shard caller.now.incarnation caller.now.clock asks.now)
        (view pass.old) (view pass.new)
        × (replies.new ≡ map (λ entry. entry.reply)
        (entries_after earlier shard caller.now.incarnation caller.now.clock asks.now))
        × (last ≡ last_stamp caller.now.clock
        (entries_after earlier shard caller.now.incarnation caller.now.clock asks.now))
        × (last < 2 ^ 62))
        (λ refusal.
        TakesTurn shard earlier [] (view pass.old) (view pass.new)
        × (replies.new ≡ replies.old)
        × IsRefusal (length asks.now) (max (last_stamp 0 earlier) caller.now.clock) refusal) }
{
    let mut held = turns.take(rt, pass, shard);
    gate.inside(shard);
    let answer = make_all(&mut held.value.bucket, caller, asks, replies);
    turns.give(pass, held);
    answer
}
