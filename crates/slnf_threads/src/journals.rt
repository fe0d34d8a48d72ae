//! The journal of a run behind its last epoch.
ghost use Rattle.std.specs.Prelude.{IfOk};
ghost use Rattle.slnf_turns.specs.Passes.{AllJoined, IsRoot};
ghost use Rattle.slnf_store.specs.Stores.{IsOf, shards_of};
ghost use Rattle.slnf_threads.specs.Merged.{IsMerged};

use slnf_base::NoMemory;
use slnf_ranges::{Parts, merge_in_parts};
use slnf_store::{Store, StorePass};
use std::alloc::Global;
use std::thread::Threads;

/// All entries of the shards' histories in order, once every pass was joined. So many threads merge them.
pub(crate) fn journal_of<R: Threads + Sync>(
    rt: &R,
    alloc: Global,
    store: Store,
    root: StorePass,
    threads: usize,
) -> Result<Parts, NoMemory>
    requires here { IsOf store root }
    requires root { IsRoot root.known }
    requires joined { AllJoined root.known }
    ensures { IfOk result (λ journal. IsMerged (shards_of store) root.known journal) }
{
    let histories = store.close(alloc, root)?;
    merge_in_parts(rt, alloc, histories.as_slice(), threads)
}
