ghost use Rattle.std.specs.Prelude.{◌≡◌, ◌<◌, ◌↔◌, Some, IsTrue, length, slice_get, take};
ghost use Rattle.slnf_access.specs.Order.{Precedes, IsInShard};
ghost use Rattle.slnf_run.specs.Jobs.{last_of};
ghost use Rattle.slnf_local.specs.Rules.{ComesAfter, IsOrderly};
ghost use Rattle.slnf_rules.specs.Rules.{FirstBroken};

use slnf_access::Entry;

/// Every stamp is below this.
const STAMPS_END: u64 = 1 << 62;

/// Whether the entry's stamp is one that texts have, and its shard is that of its key.
fn is_in_shard(entry: &Entry, shards: u32) -> bool
    requires { 0 < shards }
    ensures { IsTrue result ↔ IsInShard shards entry.now }
{
    entry.stamp >= 1
        && entry.stamp < STAMPS_END
        && u128::from(entry.shard) == entry.request.key().0 % u128::from(shards)
}

/// Whether the one entry comes before the other, by (stamp, shard).
fn precedes(entry: &Entry, next: &Entry) -> bool
    ensures { IsTrue result ↔ Precedes entry.now next.now }
{
    entry.stamp < next.stamp || entry.stamp == next.stamp && entry.shard < next.shard
}

/// Whether the entry with this number comes after the one before it.
fn comes_after(entries: &[Entry], number: usize) -> bool
    requires { number < length entries.now }
    ensures { (e : Entry) → slice_get entries.now number ≡ Some e
        → IsTrue result ↔ ComesAfter (last_of (take number entries.now)) e }
{
    number == 0 || precedes(&entries[number - 1], &entries[number])
}

/// The place of the first entry that isn't in its key's shard, or not in order.
pub fn first_disorder(entries: &[Entry], shards: u32) -> Option<u64>
    requires { 0 < shards }
    ensures { FirstBroken (IsOrderly shards) entries.now result }
{
    let mut done = 0;
    while done < entries.len() {
        if !is_in_shard(&entries[done], shards) || !comes_after(entries, done) {
            return Some(done as u64 + 1);
        }
        done += 1;
    }
    None
}
