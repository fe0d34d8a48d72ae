//! Rounds of one shard, whose accesses are made in turns of many.
ghost use Rattle.std.specs.Prelude.{◌≡◌, ◌%◌, ◌<◌, ◌≤◌, length, take, IfOk};
ghost use Rattle.slnf_access.specs.Map.{key_of};
ghost use Rattle.slnf_store.specs.Accesses.{first_shard, AreInShard};
ghost use Rattle.slnf_store.specs.Passes.{own_entries};
ghost use Rattle.slnf_store.specs.Stores.{shards_of};
ghost use Rattle.slnf_store_threads.specs.Callers.{IsCaller};
ghost use Rattle.slnf_store_threads.specs.Sums.{with_all, with_replies};

use crate::draws::{Draw, Draws};
use crate::loads::Load;
use crate::sums::with_reply;
use slnf_access::{Ask, Key, Reply, Request};
use slnf_bucket::BucketError;
use slnf_store::{NoGate, Store, StorePass};
use std::sync::Wait;

/// The most accesses of one turn.
const MOST: usize = 32;

/// What stands where no round was drawn yet.
const NO_DRAW: Draw = Draw {
    key: Key(0),
    word: 0,
};

/// What stands where no access was asked for yet.
const NO_ASK: Ask = Ask {
    item: 0,
    request: Request::Read { key: Key(0) },
};

/// The checksum with these replies more.
fn with_all(sum: u64, replies: &[Reply]) -> u64
    ensures { result ≡ with_all sum replies.now }
{
    let mut sum = sum;
    for reply in replies {
        sum = with_reply(sum, *reply);
    }
    sum
}

/// The shard of an access, among so many.
fn shard_of(ask: &Ask, shards: u32) -> u32
    requires { 0 < shards }
    ensures { result ≡ key_of ask.now.request % shards }
{
    (ask.request.key().0 % u128::from(shards)) as u32
}

/// How many of these accesses are of the first one's shard up to the first that isn't.
fn front(asks: &[Ask], shards: u32) -> usize
    requires shards { 0 < shards }
    requires some { 0 < length asks.now }
    ensures some { 0 < result }
    ensures inside { result ≤ length asks.now }
    ensures keys { AreInShard shards (first_shard shards asks.now) (take result asks.now) }
{
    let shard = shard_of(&asks[0], shards);
    for count in 1..asks.len() {
        if shard_of(&asks[count], shards) != shard {
            return count;
        }
    }
    asks.len()
}

/// Makes these accesses, which are of one shard, in one turn, and answers the checksum with what it was told.
fn turn<R: Wait>(
    rt: &R,
    store: &Store,
    pass: &mut StorePass,
    asks: &[Ask],
    replies: &mut [Reply],
    sum: u64,
) -> Result<u64, BucketError>
    requires pass { IsCaller store.now pass.old }
    requires sum { sum ≡ with_replies 0 (own_entries pass.old) }
    requires count { (0 < length asks.now) × (length asks.now ≤ 32) × (length asks.now ≡ length replies.old) }
    requires keys { AreInShard (shards_of store.now) (first_shard (shards_of store.now) asks.now) asks.now }
    ensures pass { IsCaller store.now pass.new }
    ensures count { length replies.new ≡ length replies.old }
    ensures sum { IfOk result (λ next. next ≡ with_replies 0 (own_entries pass.new)) }
{
    store.access_many(rt, &NoGate, pass, asks, replies)?;
    Ok(with_all(sum, replies))
}

/// Makes in one turn the first of these accesses with those after it that are of its shard. It answers how many they are,
/// and the checksum with what it was told.
fn first_turn<R: Wait>(
    rt: &R,
    store: &Store,
    pass: &mut StorePass,
    shards: u32,
    asks: &[Ask],
    replies: &mut [Reply],
    sum: u64,
) -> Result<(usize, u64), BucketError>
    requires shards { (shards ≡ shards_of store.now) × (0 < shards) }
    requires pass { IsCaller store.now pass.old }
    requires sum { sum ≡ with_replies 0 (own_entries pass.old) }
    requires count { (0 < length asks.now) × (length asks.now ≤ 32) × (length asks.now ≡ length replies.old) }
    ensures pass { IsCaller store.now pass.new }
    ensures room { length replies.new ≡ length replies.old }
    ensures count { IfOk result (λ told. (0 < told.0) × (told.0 ≤ length asks.now)) }
    ensures sum { IfOk result (λ told. told.1 ≡ with_replies 0 (own_entries pass.new)) }
{
    let count = front(asks, shards);
    let next = turn(rt, store, pass, &asks[..count], &mut replies[..count], sum)?;
    Ok((count, next))
}

/// Makes all these accesses in order, those of one shard that follow each other in one turn, and answers the checksum
/// with what it was told.
fn turns<R: Wait>(
    rt: &R,
    store: &Store,
    pass: &mut StorePass,
    shards: u32,
    asks: &[Ask],
    replies: &mut [Reply],
    sum: u64,
) -> Result<u64, BucketError>
    requires shards { (shards ≡ shards_of store.now) × (0 < shards) }
    requires pass { IsCaller store.now pass.old }
    requires sum { sum ≡ with_replies 0 (own_entries pass.old) }
    requires count { (length asks.now ≤ 32) × (length asks.now ≡ length replies.old) }
    ensures pass { IsCaller store.now pass.new }
    ensures room { length replies.new ≡ length replies.old }
    ensures sum { IfOk result (λ next. next ≡ with_replies 0 (own_entries pass.new)) }
{
    let mut sum = sum;
    let mut done = 0;
    for _ in 0..asks.len() {
        if done == asks.len() {
            break;
        }
        let (count, next) = first_turn(
            rt,
            store,
            pass,
            shards,
            &asks[done..],
            &mut replies[done..],
            sum,
        )?;
        done += count;
        sum = next;
    }
    Ok(sum)
}

/// Draws rounds of one shard, and asks for the looks at their keys.
fn draw_looks(draws: &mut Draws, shards: u32, item: u64, drawn: &mut [Draw], asks: &mut [Ask])
    requires shards { (0 < shards) × (shards ≤ 64) }
    requires count { length drawn.old ≡ length asks.old }
    ensures drawn { length drawn.new ≡ length drawn.old }
    ensures asks { length asks.new ≡ length asks.old }
{
    let left = draws.next_left(shards);
    for i in 0..asks.len() {
        let draw = draws.next_at(left, shards);
        drawn[i] = draw;
        asks[i] = Ask {
            item,
            request: draw.look(),
        };
    }
}

/// Asks for what is written after these looks, and answers how many accesses that is.
fn ask_writes(item: u64, drawn: &[Draw], replies: &[Reply], asks: &mut [Ask]) -> usize
    requires count { (length drawn.now ≡ length asks.old) × (length replies.now ≡ length asks.old) }
    ensures asks { length asks.new ≡ length asks.old }
    ensures inside { result ≤ length asks.new }
{
    let mut count = 0;
    for i in 0..drawn.len() {
        if let Some(request) = drawn[i].write(replies[i]) {
            asks[count] = Ask { item, request };
            count += 1;
        }
    }
    count
}

/// Looks as many keys of one shard up as the load has accesses in a turn, in one turn, and writes them where their draws
/// say so in a second. It answers the checksum with what it was told.
pub fn round_of_turns<R: Wait>(
    rt: &R,
    store: &Store,
    pass: &mut StorePass,
    item: u64,
    draws: &mut Draws,
    load: Load,
    sum: u64,
) -> Result<u64, BucketError>
    requires shards { load.shards ≡ shards_of store.now }
    requires pass { IsCaller store.now pass.old }
    requires sum { sum ≡ with_replies 0 (own_entries pass.old) }
    ensures pass { IsCaller store.now pass.new }
    ensures sum { IfOk result (λ next. next ≡ with_replies 0 (own_entries pass.new)) }
{
    let most = load.turn as usize;
    let mut drawn = [NO_DRAW; MOST];
    let mut asks = [NO_ASK; MOST];
    let mut replies = [Reply::Absent; MOST];
    let drawn = &mut drawn[..most];
    let asks = &mut asks[..most];
    let replies = &mut replies[..most];
    draw_looks(draws, load.shards, item, drawn, asks);
    let sum = turns(rt, store, pass, load.shards, asks, replies, sum)?;
    let count = ask_writes(item, drawn, replies, asks);
    turns(
        rt,
        store,
        pass,
        load.shards,
        &asks[..count],
        &mut replies[..count],
        sum,
    )
}
