//! The store's beginning, and its passes.
ghost use Rattle.std.specs.Prelude.{◌≡◌, ◌≢◌, ◌+◌, ◌-◌, ◌^◌, ◌<◌, ◌≤◌, length, max, IfOk, vec_len};
ghost use Rattle.slnf_turns.specs.Values.{AreFresh};
ghost use Rattle.slnf_turns.specs.Views.{WasTold, first_view, after_split, split_off, after_join};
ghost use Rattle.slnf_turns.specs.Passes.{IsRoot};
ghost use Rattle.slnf_store.specs.Stores.{shards_of, IsOf};

use super::Store;
use crate::passes::StorePass;
use crate::shards::Shard;
use slnf_base::NoMemory;
use slnf_bucket::Bucket;
use slnf_turns::{Chronicle, Turns};
use std::alloc::Global;
use std::hash::RandomState;

// An empty bucket for each shard.
fn empty_buckets(alloc: Global, state: RandomState, shards: u32) -> Result<Vec<Shard>, NoMemory>
    requires most { shards ≤ 64 }
    ensures count { IfOk result (λ values. vec_len values ≡ shards) }
    ensures fresh { IfOk result (λ values. AreFresh ⟦<Shard as Chronicle>⟧.lines ⟦<Shard as Chronicle>⟧.place
        ⟦<Shard as Chronicle>⟧.places shards values.items) }
{
    let mut values = Vec::with_capacity(alloc, shards as usize)?;
    for shard in 0..shards {
        let empty = Bucket::make(alloc, state, shard, shards)?;
        let bucket = Box::new(alloc, empty)?;
        values.push(Shard { bucket })?;
    }
    Ok(values)
}

impl Store {
    /// The store of 1 to 64 shards before any access, and the root of its passes. Its maps are hashed with this
    /// state, which no clause speaks of.
    pub fn make(
        alloc: Global,
        state: RandomState,
        shards: u32,
    ) -> Result<(Store, StorePass), NoMemory>
        requires some { 0 < shards }
        requires most { shards ≤ 64 }
        ensures shards { IfOk result (λ made. shards_of made.0 ≡ shards) }
        ensures root { IfOk result (λ made. IsOf made.0 made.1 × (made.1.known ≡ first_view) × (made.1.clock ≡ 0)) }
    {
        let values = empty_buckets(alloc, state, shards)?;
        let (turns, pass) = Turns::make(alloc, values)?;
        let store = Store {
            turns,
            count: shards,
        };
        let root = StorePass {
            pass,
            number: 0,
            splits: 0,
            clock: 0,
        };
        Ok((store, root))
    }

    /// A pass whose incarnation is the count of earlier splits, and whose clock is the root's. It takes no memory.
    pub fn split(&self, root: &mut StorePass) -> StorePass
        requires here { IsOf self.now root.old }
        requires root { IsRoot root.old.known }
        requires few { length root.old.known.before < 2 ^ 32 - 2 }
        ensures here { IsOf self.now root.new × IsOf self.now result }
        ensures pass { result.known ≡ split_off root.old.known }
        ensures root { root.new.known ≡ after_split root.old.known }
        ensures clock { (root.new.clock ≡ root.old.clock) × (result.clock ≡ root.old.clock) }
    {
        let pass = self.turns.split(&mut root.pass);
        root.splits += 1;
        StorePass {
            pass,
            number: root.splits,
            splits: 0,
            clock: root.clock,
        }
    }

    /// The root keeps the other's list of entries and what it last saw of each shard, and its clock becomes the greater
    /// of both. It takes no memory.
    pub fn join(&self, root: &mut StorePass, other: StorePass)
        requires here { IsOf self.now root.old × IsOf self.now other }
        requires root { IsRoot root.old.known }
        requires other { other.known.number ≢ 0 }
        ensures here { IsOf self.now root.new }
        ensures root { root.new.known ≡ after_join root.old.known other.known }
        // What the other was told at its split is what the root keeps as joined before that split.
        ensures told { WasTold root.new.known.before root.new.known.joined other.known.number other.known.told }
        ensures clock { root.new.clock ≡ max root.old.clock other.clock }
    {
        let StorePass {
            pass,
            number: _,
            splits: _,
            clock,
        } = other;
        self.turns.join(&mut root.pass, pass);
        root.clock = root.clock.max(clock);
    }
}
