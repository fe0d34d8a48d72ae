//! The store's end.
ghost use Rattle.std.specs.Prelude.{◌≡◌, map, IfOk};
ghost use Rattle.std.specs.List.{AllByRecursion};
ghost use Rattle.slnf_bucket.specs.Bucket.{IsKept};
ghost use Rattle.slnf_turns.specs.Passes.{IsRoot, AllJoined};
ghost use Rattle.slnf_store.specs.Stores.{shards_of, IsOf};
ghost use Rattle.slnf_store.specs.Closes.{IsClosed};

use super::Store;
use crate::passes::StorePass;
use crate::shards::Shard;
use slnf_access::Entry;
use slnf_base::NoMemory;
use std::alloc::Global;

// The history of each shard, in order.
fn histories_of(alloc: Global, values: Vec<Shard>) -> Result<Vec<Vec<Entry>>, NoMemory>
    ensures entries { IfOk result (λ histories. map (λ history. history.items) histories.items
        ≡ map (λ value. value.bucket.value.kept.entries) values.items) }
    ensures kept { IfOk result (λ histories. AllByRecursion (λ value. IsKept value.bucket.value.kept) values.items) }
{
    let mut histories = Vec::with_capacity(alloc, values.len())?;
    for value in values {
        histories.push(Box::into_inner(value.bucket).into_history())?;
    }
    Ok(histories)
}

impl Store {
    /// The shards' histories, in order, once every pass was joined. With what the root knows, they are what all passes
    /// did.
    pub fn close(self, alloc: Global, root: StorePass) -> Result<Vec<Vec<Entry>>, NoMemory>
        requires here { IsOf self root }
        requires root { IsRoot root.known }
        requires joined { AllJoined root.known }
        ensures closed { IfOk result
            (λ histories. IsClosed (shards_of self) root.known (map (λ history. history.items) histories.items)) }
    {
        let Store { turns, count: _ } = self;
        let StorePass {
            pass,
            number: _,
            splits: _,
            clock: _,
        } = root;
        let (values, _kept) = turns.close(pass);
        histories_of(alloc, values)
    }
}
