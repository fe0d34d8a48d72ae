ghost use Rattle.std.specs.Prelude.{◌≡◌, IfOk, IsPermutation, map};
ghost use Rattle.slnf_access.specs.Order.{InOrder};
ghost use Rattle.slnf_merge.specs.Merge.{all_of, AreHistories, MergesLegally};

use slnf_access::Entry;
use slnf_base::NoMemory;
use std::alloc::Global;

/// Merges the shards' histories, of which the one at `k` is shard `k`'s, into one list in strict order of
/// (stamp, shard). It takes the memory of the first history, frees each other one when its entries are moved, and takes
/// half as much again while it sorts. The sort finds the histories' runs: for `n` entries of `m` histories it takes some
/// n log m steps.
pub fn merge(alloc: Global, histories: Vec<Vec<Entry>>) -> Result<Vec<Entry>, NoMemory>
    requires { AreHistories 0 (map (λ history. history.items) histories.items) }
    ensures same { IfOk result
        (λ merged. IsPermutation (all_of (map (λ history. history.items) histories.items)) merged.items) }
    ensures in_order { IfOk result (λ merged. InOrder merged.items) }
    ensures legal { IfOk result
        (λ merged. MergesLegally (map (λ history. history.items) histories.items) merged.items) }
{
    let mut merged = joined(alloc, histories)?;
    merged.sort_by_key(|entry| (entry.stamp, entry.shard))?;
    Ok(merged)
}

/// All entries, history by history.
fn joined(alloc: Global, histories: Vec<Vec<Entry>>) -> Result<Vec<Entry>, NoMemory>
    ensures { IfOk result (λ all. all.items ≡ all_of (map (λ history. history.items) histories.items)) }
{
    let count = count(&histories);
    let mut rest = histories.into_iter();
    let mut all = match rest.next() {
        None => Vec::new(alloc),
        Some(first) => first,
    };
    all.reserve(count.saturating_sub(all.len()))?;
    for mut history in rest {
        all.append(&mut history)?;
    }
    Ok(all)
}

/// How many entries the histories have. A count that no memory has room for stands still.
fn count(histories: &[Vec<Entry>]) -> usize {
    let mut count: usize = 0;
    for history in histories {
        count = count.saturating_add(history.len());
    }
    count
}

#[cfg(test)]
mod tests {
    use super::*;
    use slnf_access::{Key, Reply, Request, Value};
    use std::test::Fail;

    const CLIENT: Key = Key(0x0411_0000_0000_0000_0000_c000_0201_0fa0);

    const OTHER: Key = Key(0x0411_0000_0000_0000_0000_c000_0201_0fa1);

    const BACKEND: Value = Value(0x0a01_0001_0035);

    fn looked(stamp: u64, shard: u32, key: Key) -> Entry
        ensures stamp { result.stamp ≡ stamp }
        ensures shard { result.shard ≡ shard }
    {
        Entry {
            stamp,
            shard,
            incarnation: u64::from(shard),
            item: 0,
            request: Request::Read { key },
            reply: Reply::Absent,
        }
    }

    fn put(stamp: u64, shard: u32, key: Key) -> Entry
        ensures stamp { result.stamp ≡ stamp }
        ensures shard { result.shard ≡ shard }
    {
        Entry {
            stamp,
            shard,
            incarnation: u64::from(shard),
            item: 0,
            request: Request::PutIfAbsent {
                key,
                value: BACKEND,
            },
            reply: Reply::Done(stamp),
        }
    }

    #[test]
    fn no_accesses_merge_to_none(rt: HostRuntime) -> Result<(), Fail> {
        assert!(rt; merge(rt.alloc(), vec![in rt.alloc()]?)?.is_empty());
        let first = vec![in rt.alloc()]?;
        let second = vec![in rt.alloc()]?;
        assert!(rt; merge(rt.alloc(), vec![in rt.alloc(); first, second]?)?.is_empty());
        Ok(())
    }

    #[test]
    fn a_single_history_stays(rt: HostRuntime) -> Result<(), Fail> {
        let only = vec![in rt.alloc(); looked(3, 0, CLIENT), put(9, 0, CLIENT)]?;
        let merged = merge(rt.alloc(), vec![in rt.alloc(); only]?)?;
        let expected = [looked(3, 0, CLIENT), put(9, 0, CLIENT)];
        assert_eq!(rt; merged.as_slice(), expected.as_slice());
        Ok(())
    }

    #[test]
    fn two_shards_go_by_stamp_and_shard(rt: HostRuntime) -> Result<(), Fail> {
        let first = vec![in rt.alloc(); looked(1, 0, CLIENT), put(2, 0, CLIENT)]?;
        let second = vec![in rt.alloc(); looked(1, 1, OTHER), put(2, 1, OTHER)]?;
        let merged = merge(rt.alloc(), vec![in rt.alloc(); first, second]?)?;
        let expected = [
            looked(1, 0, CLIENT),
            looked(1, 1, OTHER),
            put(2, 0, CLIENT),
            put(2, 1, OTHER),
        ];
        assert_eq!(rt; merged.as_slice(), expected.as_slice());
        Ok(())
    }

    #[test]
    fn histories_interleave(rt: HostRuntime) -> Result<(), Fail> {
        let first = vec![in rt.alloc(); looked(2, 0, CLIENT), put(5, 0, CLIENT)]?;
        let none = vec![in rt.alloc()]?;
        let third = vec![in rt.alloc();
            looked(1, 2, OTHER),
            put(2, 2, OTHER),
            looked(7, 2, OTHER),
        ]?;
        let merged = merge(rt.alloc(), vec![in rt.alloc(); first, none, third]?)?;
        let expected = [
            looked(1, 2, OTHER),
            looked(2, 0, CLIENT),
            put(2, 2, OTHER),
            put(5, 0, CLIENT),
            looked(7, 2, OTHER),
        ];
        assert_eq!(rt; merged.as_slice(), expected.as_slice());
        Ok(())
    }
}
