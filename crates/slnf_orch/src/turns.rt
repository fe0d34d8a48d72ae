ghost use Rattle.std.specs.Prelude.{◌≡◌, ◌-◌, ◌+◌, ◌*◌, ◌^◌, ◌<◌, ◌≤◌, ℕ, List, length, true, false, None, IfOk, OnOk, IsTrue, nat_lt};
ghost use Rattle.std.specs.List.{list_all};
ghost use Rattle.slnf_access.specs.declared.requests.Entry.{Entry};
ghost use Rattle.slnf_access.specs.Map.{CanReply};
ghost use Rattle.slnf_run.specs.Setting.{Actor};
ghost use Rattle.slnf_instance.specs.Instances.{ask_by};
ghost use Rattle.slnf_shards.specs.Shards.{entry_on, with_entry_on, latest_on, spent};
ghost use Rattle.slnf_orch.specs.Actors.{Stage, HasHistories, IsAt, IsTurn, HasRoomAt};

use slnf_access::{Reply, Request};
use slnf_base::NoMemory;
use slnf_bucket::BucketError;
use slnf_instance::{Instance, Items};
use slnf_shards::Shards;
use std::alloc::Global;

/// Makes an access while there are stamps, and answers its reply and its stamp.
fn access(
    shards: &mut Shards,
    incarnation: u64,
    item: u64,
    clock: u64,
    request: Request,
) -> Result<(Reply, u64), NoMemory>
    requires room { latest_on shards.old clock request < 2 ^ 62 - 1 }
    ensures made { OnOk result
        (shards.new ≡ with_entry_on shards.old (entry_on shards.old clock incarnation item request)) }
    ensures reply { IfOk result
        (λ answer. answer.0 ≡ (entry_on shards.old clock incarnation item request).reply) }
    ensures stamp { IfOk result
        (λ answer. answer.1 ≡ (entry_on shards.old clock incarnation item request).stamp) }
    ensures can { IfOk result (λ answer. CanReply request answer.0) }
    ensures spends { OnOk result (spent shards.old < spent shards.new) }
    ensures most { OnOk result (spent shards.new ≤ length shards.new * 2 ^ 62) }
    ensures count { OnOk result (length shards.new ≡ length shards.old) }
{
    match shards.access(incarnation, item, clock, request) {
        Ok(answer) => Ok(answer),
        Err(BucketError::NoMemory) => Err(NoMemory),
        Err(BucketError::StampsSpent(_)) => unreachable!(),
    }
}

/// Makes the next access of the actor with this number, if it wants one, and answers whether it did.
pub(crate) fn turn<T: Items>(
    shards: &mut Shards,
    instance: &mut Instance<'_, T>,
    clock: &mut u64,
    base: u64,
    number: usize,
) -> Result<bool, NoMemory>
    requires base { base + number < 2 ^ 64 }
    requires room { HasRoomAt T.work base number shards.old instance.old clock.old }
    ensures kept { IfOk result (λ made. made ≡ false → shards.new ≡ shards.old) }
    ensures idle { IfOk result (λ made. made ≡ false → ask_by instance.new ≡ None) }
    ensures spends { IfOk result (λ made. made ≡ true → spent shards.old < spent shards.new) }
    ensures most { IfOk result (λ made. made ≡ true → spent shards.new ≤ length shards.new * 2 ^ 62) }
    ensures count { OnOk result (length shards.new ≡ length shards.old) }
    ensures turned { IfOk result (λ made. (stage : Stage T.Flight) (m : List Entry) (actor : Actor)
        → stage.base ≡ base → HasHistories stage m shards.old
        → IsAt T.work stage m number actor instance.old clock.old
        → IsTurn T.work stage m number actor shards.new instance.new clock.new made) }
{
    let Some(ask) = instance.wanted() else {
        return Ok(false);
    };
    let incarnation = base + number as u64;
    let (reply, stamp) = access(shards, incarnation, ask.item, *clock, ask.request)?;
    instance.answered(reply);
    *clock = stamp;
    Ok(true)
}

ghost use Rattle.slnf_orch.specs.Actors.{at_work, turns_in, AreLeft, IsEnded, AreStanding, IsTurnAt, IsRound, AreDone, IsIdleAt, AreIdle, HasRoom};

/// The same for one of an epoch's actors.
pub(crate) fn turn_at<T: Items>(
    shards: &mut Shards,
    instances: &mut Vec<Instance<'_, T>>,
    clocks: &mut Vec<u64>,
    base: u64,
    number: usize,
) -> Result<bool, NoMemory>
    requires there { number < length instances.old.items }
    requires clocks { length clocks.old.items ≡ length instances.old.items }
    requires base { base + length instances.old.items ≤ 2 ^ 32 }
    requires room { HasRoom T.work (at_work base shards.old instances.old.items clocks.old.items) }
    ensures room { OnOk result (HasRoom T.work (at_work base shards.new instances.new.items clocks.new.items)) }
    ensures clocks { OnOk result (length clocks.new.items ≡ length clocks.old.items) }
    ensures instances { OnOk result (length instances.new.items ≡ length instances.old.items) }
    ensures kept { IfOk result (λ made. made ≡ false → shards.new ≡ shards.old) }
    ensures idle { IfOk result (λ made. made ≡ false → IsIdleAt instances.new.items number) }
    ensures others { OnOk result ((k : ℕ) → (k ≡ number → ⊥) → IsIdleAt instances.old.items k
        → IsIdleAt instances.new.items k) }
    ensures spends { IfOk result (λ made. made ≡ true → spent shards.old < spent shards.new) }
    ensures most { IfOk result (λ made. made ≡ true → spent shards.new ≤ length shards.new * 2 ^ 62) }
    ensures count { OnOk result (length shards.new ≡ length shards.old) }
    ensures turned { IfOk result (λ made. (stage : Stage T.Flight) (m : List Entry)
        → AreStanding T.work stage m (at_work base shards.old instances.old.items clocks.old.items)
        → IsTurnAt T.work stage m number (at_work base shards.new instances.new.items clocks.new.items) made) }
{
    let instance = &mut instances[number];
    let clock = &mut clocks[number];
    let made = turn(shards, instance, clock, base, number)?;
    Ok(made)
}

/// Makes the turns of the actors with these numbers, in order.
pub(crate) fn turns_by<T: Items>(
    shards: &mut Shards,
    instances: &mut Vec<Instance<'_, T>>,
    clocks: &mut Vec<u64>,
    base: u64,
    numbers: &[u32],
) -> Result<(), NoMemory>
    requires there { IsTrue (list_all (λ k. nat_lt k (length instances.old.items)) numbers.now) }
    requires clocks { length clocks.old.items ≡ length instances.old.items }
    requires base { base + length instances.old.items ≤ 2 ^ 32 }
    requires room { HasRoom T.work (at_work base shards.old instances.old.items clocks.old.items) }
    ensures room { OnOk result (HasRoom T.work (at_work base shards.new instances.new.items clocks.new.items)) }
    ensures clocks { OnOk result (length clocks.new.items ≡ length clocks.old.items) }
    ensures instances { OnOk result (length instances.new.items ≡ length instances.old.items) }
    ensures count { OnOk result (length shards.new ≡ length shards.old) }
    ensures turned { OnOk result ((stage : Stage T.Flight) (m : List Entry)
        → AreStanding T.work stage m (at_work base shards.old instances.old.items clocks.old.items)
        → AreStanding T.work stage (turns_in stage numbers.now m)
        (at_work base shards.new instances.new.items clocks.new.items)) }
{
    for number in numbers {
        turn_at(shards, instances, clocks, base, *number as usize)?;
    }
    Ok(())
}

ghost use Rattle.std.specs.Prelude.{[]};
ghost use Rattle.std.specs.List.{range_with_len};

/// Makes a turn of each of these actors, of which all others have ended, and leaves out those that made no access.
pub(crate) fn round<T: Items>(
    shards: &mut Shards,
    instances: &mut Vec<Instance<'_, T>>,
    clocks: &mut Vec<u64>,
    base: u64,
    live: &mut Vec<u32>,
) -> Result<(), NoMemory>
    requires clocks { length clocks.old.items ≡ length instances.old.items }
    requires base { base + length instances.old.items ≤ 2 ^ 32 }
    requires room { HasRoom T.work (at_work base shards.old instances.old.items clocks.old.items) }
    requires live { AreLeft (IsIdleAt instances.old.items) 0 (length instances.old.items) live.old.items }
    ensures room { OnOk result (HasRoom T.work (at_work base shards.new instances.new.items clocks.new.items)) }
    ensures clocks { OnOk result (length clocks.new.items ≡ length clocks.old.items) }
    ensures instances { OnOk result (length instances.new.items ≡ length instances.old.items) }
    ensures live { OnOk result (AreLeft (IsIdleAt instances.new.items) 0 (length instances.new.items) live.new.items) }
    ensures fewer { OnOk result (length live.new.items ≤ length live.old.items) }
    ensures kept { OnOk result (live.new.items ≡ [] → shards.new ≡ shards.old) }
    ensures spends { OnOk result (0 < length live.new.items → spent shards.old < spent shards.new) }
    ensures most { OnOk result (0 < length live.new.items → spent shards.new ≤ length shards.new * 2 ^ 62) }
    ensures count { OnOk result (length shards.new ≡ length shards.old) }
    ensures turned { OnOk result ((stage : Stage T.Flight) (m : List Entry)
        → AreStanding T.work stage m (at_work base shards.old instances.old.items clocks.old.items)
        → AreLeft (IsEnded stage m) 0 (length stage.era.actors) live.old.items
        → IsRound T.work stage m (at_work base shards.new instances.new.items clocks.new.items) live.new.items) }
{
    let mut place = 0;
    while place < live.len() {
        if turn_at(shards, instances, clocks, base, live[place] as usize)? {
            place += 1;
        } else {
            live.remove(place);
        }
    }
    Ok(())
}

/// So many numbers from 0 on.
fn numbers_of(alloc: Global, count: usize) -> Result<Vec<u32>, NoMemory>
    requires { count ≤ 2 ^ 32 }
    ensures { IfOk result (λ numbers. numbers.items ≡ range_with_len 0 count) }
{
    let mut numbers = Vec::with_capacity(alloc, count)?;
    for number in 0..count {
        numbers.push(number as u32)?;
    }
    Ok(numbers)
}

/// Lets the actors go round until all of them have ended.
pub(crate) fn rounds<T: Items>(
    alloc: Global,
    shards: &mut Shards,
    instances: &mut Vec<Instance<'_, T>>,
    clocks: &mut Vec<u64>,
    base: u64,
) -> Result<(), NoMemory>
    requires clocks { length clocks.old.items ≡ length instances.old.items }
    requires base { base + length instances.old.items ≤ 2 ^ 32 }
    requires room { HasRoom T.work (at_work base shards.old instances.old.items clocks.old.items) }
    ensures instances { OnOk result (length instances.new.items ≡ length instances.old.items) }
    ensures idle { OnOk result (AreIdle instances.new.items) }
    ensures count { OnOk result (length shards.new ≡ length shards.old) }
    ensures done { OnOk result ((stage : Stage T.Flight) (m : List Entry)
        → AreStanding T.work stage m (at_work base shards.old instances.old.items clocks.old.items)
        → AreDone T.work stage m (at_work base shards.new instances.new.items clocks.new.items)) }
{
    let mut live = numbers_of(alloc, instances.len())?;
    while !live.is_empty() {
        round(shards, instances, clocks, base, &mut live)?;
    }
    Ok(())
}
