//! Histories cut into ranges of stamps.
ghost use Rattle.std.specs.Prelude.{◌≡◌, ℕ, IfOk, map};
ghost use Rattle.slnf_access.specs.Order.{IsHistory};
ghost use Rattle.slnf_merge.specs.Merge.{AreHistories};
ghost use Rattle.slnf_ranges.specs.Ranges.{below, from_on, ranges};

use slnf_access::Entry;
use slnf_base::NoMemory;
use std::alloc::Global;

/// Parts of all histories, shard by shard.
pub(crate) type Range<'a> = Vec<&'a [Entry]>;

/// The entries of a history with stamps below the bound, and the others.
fn split(history: &[Entry], bound: u64) -> (&[Entry], &[Entry])
    requires { (shard : ℕ) × IsHistory shard history.now }
    ensures front { result.0.now ≡ below bound history.now }
    ensures back { result.1.now ≡ from_on bound history.now }
{
    history.split_at(history.partition_point(|entry| entry.stamp < bound))
}

/// Of each history the entries with stamps below the bound, and the others.
fn cut<'a>(
    alloc: Global,
    histories: &[&'a [Entry]],
    bound: u64,
) -> Result<(Range<'a>, Range<'a>), NoMemory>
    requires { AreHistories 0 (map (λ h. h.now) histories.now) }
    ensures { IfOk result (λ cut. (map (λ h. h.now) cut.0.items ≡ map (below bound) (map (λ h. h.now) histories.now))
        × (map (λ h. h.now) cut.1.items ≡ map (from_on bound) (map (λ h. h.now) histories.now))) }
{
    let mut fronts = Vec::with_capacity(alloc, histories.len())?;
    let mut backs = Vec::with_capacity(alloc, histories.len())?;
    for history in histories {
        let (front, back) = split(history, bound);
        fronts.push(front)?;
        backs.push(back)?;
    }
    Ok((fronts, backs))
}

/// The histories in ranges of stamps: up to the first bound, from each bound to the next one, and from the last one on.
pub(crate) fn ranges_of<'a>(
    alloc: Global,
    histories: Range<'a>,
    bounds: &[u64],
) -> Result<Vec<Range<'a>>, NoMemory>
    requires { AreHistories 0 (map (λ h. h.now) histories.items) }
    ensures { IfOk result (λ cut. map (λ range. map (λ h. h.now) range.items) cut.items
        ≡ ranges bounds.now (map (λ h. h.now) histories.entry.items)) }
{
    let mut ranges = Vec::new(alloc);
    let mut rest = histories;
    for bound in bounds {
        let (front, back) = cut(alloc, rest.as_slice(), *bound)?;
        ranges.push(front)?;
        rest = back;
    }
    ranges.push(rest)?;
    Ok(ranges)
}

/// Bounds that cut the stamps of these histories into so many ranges of one width. Which bounds they are, no clause says:
/// any do.
pub(crate) fn bounds_of(
    alloc: Global,
    histories: &[&[Entry]],
    count: usize,
) -> Result<Vec<u64>, NoMemory> {
    let mut low: u64 = u64::MAX;
    let mut high: u64 = 0;
    for history in histories {
        if let [first, ..] = history {
            low = low.min(first.stamp);
        }
        if let [.., last] = history {
            high = high.max(last.stamp);
        }
    }
    let width = (high.saturating_sub(low) / (count.max(1) as u64)).saturating_add(1);
    let mut bounds = Vec::new(alloc);
    let mut bound = low;
    for _ in 1..count {
        bound = bound.saturating_add(width);
        bounds.push(bound)?;
    }
    Ok(bounds)
}
