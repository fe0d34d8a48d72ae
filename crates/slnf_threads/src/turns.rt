//! One turn of an actor: as many of its next accesses as are of one shard.
ghost use Rattle.std.specs.Prelude.{◌≡◌, ◌≢◌, ◌+◌, ◌<◌, ◌≤◌, ◌%◌, List, None, length, take, MatchResult};
ghost use Rattle.slnf_access.specs.declared.requests.Entry.{Entry};
ghost use Rattle.slnf_access.specs.Map.{key_of};
ghost use Rattle.slnf_store.specs.Accesses.{first_shard, AreInShard};
ghost use Rattle.slnf_store.specs.Passes.{own_entries};
ghost use Rattle.slnf_store.specs.Stores.{IsOf, shards_of};
ghost use Rattle.slnf_instance.specs.Instances.{ask_by, round_by, StandsBy};
ghost use Rattle.slnf_threads.specs.Reports.{job_by, IsRefused, Gains};
ghost use Rattle.slnf_threads.specs.Takes.{IsWithin};

use crate::takes::take_replies;
use slnf_access::{Ask, Reply};
use slnf_bucket::BucketError;
use slnf_instance::{Instance, Items};
use slnf_store::{Gate, Store, StorePass};
use std::sync::Wait;

/// The most accesses of one turn.
pub(crate) const MOST: usize = 32;

/// The shard of an access, among so many.
fn shard_of(ask: &Ask, shards: u32) -> u32
    requires { 0 < shards }
    ensures { result ≡ key_of ask.now.request % shards }
{
    (ask.request.key().0 % u128::from(shards)) as u32
}

/// How many of these accesses are of the first one's shard up to the first that isn't, and at most so many.
pub(crate) fn front(round: &[Ask], shards: u32, most: usize) -> usize
    requires shards { 0 < shards }
    requires round { 0 < length round.now }
    requires some { 0 < most }
    ensures some { 0 < result }
    ensures most { result ≤ most }
    ensures inside { result ≤ length round.now }
    ensures keys { AreInShard shards (first_shard shards round.now) (take result round.now) }
{
    let shard = shard_of(&round[0], shards);
    let limit = most.min(round.len());
    for count in 1..limit {
        if shard_of(&round[count], shards) != shard {
            return count;
        }
    }
    limit
}

/// Makes the actor's next access.
fn one_access<T: Items, R: Wait, G: Gate>(
    rt: &R,
    store: &Store,
    gate: &G,
    instance: &mut Instance<'_, T>,
    pass: &mut StorePass,
) -> Result<(), BucketError>
    requires here { IsOf store.now pass.old }
    requires split { pass.old.known.number ≢ 0 }
    requires shards { 0 < shards_of store.now }
    requires asks { ask_by instance.old ≢ None }
    requires stands { StandsBy T.work (job_by T.work instance.old) (own_entries pass.old) instance.old }
    ensures here { IsOf store.now pass.new }
    ensures gains { (more : List Entry) × Gains T.work instance.old instance.new pass.old pass.new more
        × MatchResult result (λ _. length more ≡ 1) (λ refusal. IsRefused (shards_of store.now) pass.new refusal) }
{
    let ask = instance.wanted().unwrap();
    let reply = store.access(rt, gate, pass, ask.item, ask.request)?;
    instance.answered(reply);
    Ok(())
}

/// Makes as many of the actor's next accesses as there is room for replies. They are of one shard.
fn many_accesses<T: Items, R: Wait, G: Gate>(
    rt: &R,
    store: &Store,
    gate: &G,
    instance: &mut Instance<'_, T>,
    pass: &mut StorePass,
    replies: &mut [Reply],
) -> Result<(), BucketError>
    requires here { IsOf store.now pass.old }
    requires split { pass.old.known.number ≢ 0 }
    requires shards { 0 < shards_of store.now }
    requires some { 0 < length replies.old }
    requires most { length replies.old ≤ 32 }
    requires inside { length replies.old ≤ length (round_by instance.old) }
    requires keys { AreInShard (shards_of store.now) (first_shard (shards_of store.now) (round_by instance.old))
        (take (length replies.old) (round_by instance.old)) }
    requires within { IsWithin instance.old.errand.stop (length (own_entries pass.old) + length replies.old) }
    requires stands { StandsBy T.work (job_by T.work instance.old) (own_entries pass.old) instance.old }
    ensures here { IsOf store.now pass.new }
    ensures gains { (more : List Entry) × Gains T.work instance.old instance.new pass.old pass.new more
        × MatchResult result (λ _. length more ≡ length replies.old) (λ refusal. IsRefused (shards_of store.now) pass.new refusal) }
{
    let asks = &instance.round()[..replies.len()];
    store.access_many(rt, gate, pass, asks, replies)?;
    take_replies(instance, replies);
    Ok(())
}

/// Makes so many of the actor's next accesses, which are of one shard, in one turn.
pub(crate) fn turn<T: Items, R: Wait, G: Gate>(
    rt: &R,
    store: &Store,
    gate: &G,
    instance: &mut Instance<'_, T>,
    pass: &mut StorePass,
    count: usize,
) -> Result<(), BucketError>
    requires here { IsOf store.now pass.old }
    requires split { pass.old.known.number ≢ 0 }
    requires shards { 0 < shards_of store.now }
    requires some { 0 < count }
    requires most { count ≤ 32 }
    requires asks { ask_by instance.old ≢ None }
    requires inside { count ≤ length (round_by instance.old) }
    requires keys { AreInShard (shards_of store.now) (first_shard (shards_of store.now) (round_by instance.old))
        (take count (round_by instance.old)) }
    requires within { IsWithin instance.old.errand.stop (length (own_entries pass.old) + count) }
    requires stands { StandsBy T.work (job_by T.work instance.old) (own_entries pass.old) instance.old }
    ensures here { IsOf store.now pass.new }
    ensures gains { (more : List Entry) × Gains T.work instance.old instance.new pass.old pass.new more
        × MatchResult result (λ _. length more ≡ count) (λ refusal. IsRefused (shards_of store.now) pass.new refusal) }
{
    if count == 1 {
        return one_access(rt, store, gate, instance, pass);
    }
    let mut replies = [Reply::Absent; MOST];
    many_accesses(rt, store, gate, instance, pass, &mut replies[..count])
}
