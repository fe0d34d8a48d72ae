//! What one thread does.
ghost use Rattle.std.specs.Prelude.{◌≡◌, IfOk};
ghost use Rattle.slnf_store.specs.Passes.{own_entries};
ghost use Rattle.slnf_store.specs.Stores.{shards_of};
ghost use Rattle.slnf_store_threads.specs.Callers.{IsCaller, IsFresh};
ghost use Rattle.slnf_store_threads.specs.Sums.{with_replies};

use crate::draws::Draws;
use crate::loads::Load;
use crate::rounds::round;
use crate::turns::round_of_turns;
use slnf_bucket::BucketError;
use slnf_store::{Store, StorePass};
use std::sync::Wait;

/// A caller's pass after its rounds, and the checksum of what it was told, or why it gave up.
#[derive(Drop)]
pub struct Report {
    pub pass: StorePass,
    pub sum: Result<u64, BucketError>,
}

/// Makes the load's rounds as one of its callers, until an access is refused.
pub fn work<R: Wait>(rt: &R, store: &Store, load: Load, pass: StorePass) -> Report
    requires fresh { IsFresh store.now pass }
    requires shards { load.shards ≡ shards_of store.now }
    ensures pass { IsCaller store.now result.pass }
    ensures sum { IfOk result.sum (λ sum. sum ≡ with_replies 0 (own_entries result.pass)) }
{
    let mut pass = pass;
    let sum = if load.turn == 1 {
        in_single_accesses(rt, store, load, &mut pass)
    } else {
        in_turns(rt, store, load, &mut pass)
    };
    Report { pass, sum }
}

/// Makes each access in a turn of its own.
fn in_single_accesses<R: Wait>(
    rt: &R,
    store: &Store,
    load: Load,
    pass: &mut StorePass,
) -> Result<u64, BucketError>
    requires fresh { IsFresh store.now pass.old }
    ensures pass { IsCaller store.now pass.new }
    ensures sum { IfOk result (λ sum. sum ≡ with_replies 0 (own_entries pass.new)) }
{
    let mut draws = Draws::of(pass.incarnation(), load);
    let mut sum = 0;
    for item in 0..load.rounds {
        sum = round(rt, store, pass, u64::from(item), draws.next(), sum)?;
    }
    Ok(sum)
}

/// Makes the load's number of accesses of one shard in each turn.
fn in_turns<R: Wait>(
    rt: &R,
    store: &Store,
    load: Load,
    pass: &mut StorePass,
) -> Result<u64, BucketError>
    requires fresh { IsFresh store.now pass.old }
    requires shards { load.shards ≡ shards_of store.now }
    ensures pass { IsCaller store.now pass.new }
    ensures sum { IfOk result (λ sum. sum ≡ with_replies 0 (own_entries pass.new)) }
{
    let mut draws = Draws::of(pass.incarnation(), load);
    let mut sum = 0;
    for item in 0..load.rounds / load.turn {
        sum = round_of_turns(rt, store, pass, u64::from(item), &mut draws, load, sum)?;
    }
    Ok(sum)
}
