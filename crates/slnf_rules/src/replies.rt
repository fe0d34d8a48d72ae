ghost use Rattle.std.specs.Prelude.{◌≡◌, ◌==◌, ◌↔◌, ℕ, nat_eq, if◌then◌else◌, IfOk, OnOk, IsTrue};
ghost use Rattle.std.specs.HashMap.{get};
ghost use Rattle.slnf_access.specs.Map.{reply_to};
ghost use Rattle.slnf_local.specs.Rules.{IsTrueReply};
ghost use Rattle.slnf_rules.specs.Rules.{FirstBroken};

use slnf_access::{Entry, Held};
use slnf_base::NoMemory;
use std::alloc::Global;
use std::collections::HashMap;
use std::hash::RandomState;

/// Makes the map have this at the key, and what it had at each other key.
fn hold(
    held: &mut HashMap<u128, Held, RandomState>,
    key: u128,
    left: Option<Held>,
) -> Result<(), NoMemory>
    ensures { OnOk result
        ((other : ℕ) → get nat_eq held.new other ≡ (if key == other then left else get nat_eq held.old other)) }
{
    match left {
        Some(left) => {
            held.insert(key, left)?;
        }
        None => {
            held.remove(&key);
        }
    }
    Ok(())
}

/// Whether the entry's reply is the access's, where the key has this.
fn is_true_reply(entry: &Entry, held: Option<Held>) -> bool
    ensures { IsTrue result ↔ (entry.now.reply ≡ reply_to entry.now.request entry.now.stamp held) }
{
    entry.reply == entry.request.reply(entry.stamp, held)
}

/// The place of the first entry whose reply isn't that of the map which the entries before it make. An entry takes
/// constant time on average. The map is hashed with this state, which no clause speaks of.
pub fn first_false_reply(
    alloc: Global,
    state: RandomState,
    entries: &[Entry],
) -> Result<Option<u64>, NoMemory>
    ensures { IfOk result (FirstBroken IsTrueReply entries.now) }
{
    let mut map: HashMap<u128, Held, RandomState> = HashMap::with_hasher(alloc, state);
    let mut done = 0;
    while done < entries.len() {
        let entry = entries[done];
        let key = entry.request.key().0;
        let held = map.get(&key).copied();
        if !is_true_reply(&entry, held) {
            return Ok(Some(done as u64 + 1));
        }
        hold(&mut map, key, entry.request.leaves(entry.stamp, held))?;
        done += 1;
    }
    Ok(None)
}
