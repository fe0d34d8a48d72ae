//! Ranges that are merged side by side.
ghost use Rattle.std.specs.Prelude.{◌≡◌, IfOk, IsPermutation, map};
ghost use Rattle.slnf_access.specs.Order.{InOrder};
ghost use Rattle.slnf_merge.specs.Merge.{all_of, AreHistories};
ghost use Rattle.slnf_ranges.specs.Ranges.{IsMergedFrom, all_in, AreAllOk};

use crate::cuts::{Range, bounds_of, ranges_of};
use crate::parts::Parts;
use slnf_access::Entry;
use slnf_base::{NoMemory, Row};
use slnf_merge::merge;
use std::alloc::Global;
use std::thread;
use std::thread::Threads;

/// How many entries are sorted at once: few enough for a processor's cache.
const WINDOW: usize = 8192;

/// The entries of one range in order.
fn merge_range(alloc: Global, range: &[&[Entry]]) -> Result<Row<Entry>, NoMemory>
    requires { AreHistories 0 (map (λ h. h.now) range.now) }
    ensures { IfOk result (λ merged. IsMergedFrom (map (λ h. h.now) range.now) merged) }
{
    let mut histories = Vec::with_capacity(alloc, range.len())?;
    for part in range {
        histories.push(Vec::from_slice(alloc, part)?)?;
    }
    Ok(Row::from_vec(merge(alloc, histories)?))
}

/// How many entries these are. A count that no memory has room for stands still.
fn count(range: &[&[Entry]]) -> usize {
    let mut count: usize = 0;
    for part in range {
        count = count.saturating_add(part.len());
    }
    count
}

/// The entries of one range in order, in parts of about so many as are sorted at once.
fn merge_windows(alloc: Global, range: Range<'_>) -> Result<Vec<Row<Entry>>, NoMemory>
    requires { AreHistories 0 (map (λ h. h.now) range.items) }
    ensures { IfOk result (λ parts. IsMergedFrom (map (λ h. h.now) range.entry.items) (all_of parts.items)) }
{
    let windows = count(range.as_slice()) / WINDOW + 1;
    let bounds = bounds_of(alloc, range.as_slice(), windows)?;
    let windows = ranges_of(alloc, range, bounds.as_slice())?;
    let mut parts = Vec::with_capacity(alloc, windows.len())?;
    for window in windows {
        parts.push(merge_range(alloc, window.as_slice())?)?;
    }
    Ok(parts)
}

/// All parts of these, one behind another.
fn gather(
    alloc: Global,
    merged: Vec<Result<Vec<Row<Entry>>, NoMemory>>,
) -> Result<Vec<Row<Entry>>, NoMemory>
    ensures all { IfOk result (λ parts. parts.items ≡ all_in merged.items) }
    ensures whole { IfOk result (λ _. AreAllOk merged.items) }
{
    let mut parts = Vec::new(alloc);
    for one in merged {
        let mut one = one?;
        parts.append(&mut one)?;
    }
    Ok(parts)
}

/// All histories, each of which is whole.
fn slices_of<'a>(alloc: Global, histories: &'a [Vec<Entry>]) -> Result<Range<'a>, NoMemory>
    ensures { IfOk result (λ range. map (λ h. h.now) range.items ≡ map (λ h. h.items) histories.now) }
{
    let mut slices = Vec::with_capacity(alloc, histories.len())?;
    for history in histories {
        slices.push(history.as_slice())?;
    }
    Ok(slices)
}

/// Merges the shards' histories, of which the one at `k` is shard `k`'s, into one list in strict order of
/// (stamp, shard). So many threads do it side by side, each in a range of stamps; where one can't be started, the caller
/// does its part.
pub fn merge_in_parts<R: Threads + Sync>(
    rt: &R,
    alloc: Global,
    histories: &[Vec<Entry>],
    threads: usize,
) -> Result<Parts, NoMemory>
    requires { AreHistories 0 (map (λ history. history.items) histories.now) }
    ensures same { IfOk result
        (λ merged. IsPermutation (all_of (map (λ history. history.items) histories.now)) merged) }
    ensures in_order { IfOk result (λ merged. InOrder merged) }
{
    let slices = slices_of(alloc, histories)?;
    let bounds = bounds_of(alloc, slices.as_slice(), threads)?;
    let ranges = ranges_of(alloc, slices, bounds.as_slice())?;
    let merged = thread::map_vec(
        rt,
        ranges,
        &|range: Range<'_>| -> Result<Vec<Row<Entry>>, NoMemory>
            requires { AreHistories 0 (map (λ h. h.now) range.items) }
            ensures { IfOk result (λ parts. IsMergedFrom (map (λ h. h.now) range.entry.items) (all_of parts.items)) }
        { merge_windows(alloc, range) },
    )?;
    Ok(Parts::from_vec(gather(alloc, merged)?))
}
