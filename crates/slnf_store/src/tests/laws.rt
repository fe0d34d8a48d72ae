ghost use Rattle.std.specs.Prelude.{◌≡◌, [], length, IfOk};
ghost use Rattle.slnf_access.specs.Map.{IsLegal};
ghost use Rattle.slnf_turns.specs.Passes.{IsRoot};
ghost use Rattle.slnf_store.specs.Stores.{IsOf};
ghost use Rattle.slnf_store.specs.Passes.{own_entries};
ghost use Rattle.slnf_store.specs.Closes.{incarnation_part};

use crate::{Store, StorePass};
use slnf_access::Entry;
use slnf_base::NoMemory;
use slnf_merge::merge;
use std::alloc::Global;

// What the clauses say together of the two passes of a store: its merged histories are legal, and each incarnation's
// part of them is the list that its pass kept.
pub(super) fn merged_parts(
    alloc: Global,
    store: Store,
    mut root: StorePass,
    first: StorePass,
    second: StorePass,
) -> Result<Vec<Entry>, NoMemory>
    requires here { IsOf store root × IsOf store first × IsOf store second }
    requires root { IsRoot root.known × (length root.known.before ≡ 2) × (root.known.joined ≡ []) }
    requires passes { (first.known.number ≡ 1) × (second.known.number ≡ 2) }
    ensures legal { IfOk result (λ merged. IsLegal merged.items) }
    ensures first { IfOk result (λ merged. incarnation_part 0 merged.items ≡ own_entries first) }
    ensures second { IfOk result (λ merged. incarnation_part 1 merged.items ≡ own_entries second) }
{
    store.join(&mut root, first);
    store.join(&mut root, second);
    let histories = store.close(alloc, root)?;
    merge(alloc, histories)
}
