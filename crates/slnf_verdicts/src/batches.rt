ghost use Rattle.std.specs.Prelude.{◌≡◌, ◌+◌, ◌^◌, ◌<◌, ◌≤◌, ◌==◌, ◌&&◌, not, nat_lt, OnOk, IfOk, [], length};
ghost use Rattle.std.specs.List.{list_any, range_with_len};
ghost use Rattle.slnf_access.specs.Machines.{machine_of, stand_of_start};
ghost use Rattle.slnf_run.specs.Jobs.{first_key_of, first_in, is_among, with_key, taken_in};
ghost use Rattle.slnf_verdicts.specs.Batches.{job_over, number_in, batch_end};
ghost use Rattle.slnf_verdicts.specs.Standings.{begun_of};

use crate::tasks::{Task, is_stopped};
use slnf_access::{Entry, Function, Start};
use slnf_base::NoMemory;
use slnf_flight::{Taken, begin};
use std::alloc::Global;

/// The number of the key of a packet's first access. One that ends at once has none.
fn first_key<F: Function>(function: &F, start: &Start<F::Flight>) -> Option<u128>
    ensures { result ≡ first_key_of (machine_of (F.behaviour function.now)) (stand_of_start start.now) }
{
    match start {
        Start::Go(flight) => Some(function.next(flight).key().0),
        Start::Over(_) => None,
    }
}

/// Whether a key is one of these.
fn holds(keys: &[u128], key: u128) -> bool
    ensures { result ≡ list_any (λ held. held == key) keys.now }
{
    keys.iter().any(|held| *held == key)
}

/// Whether a first key stands among these keys.
fn is_among(first: Option<u128>, keys: &[u128]) -> bool
    ensures { result ≡ is_among first keys.now }
{
    match first {
        None => false,
        Some(key) => holds(keys, key),
    }
}

/// Whether a packet with this first key joins a batch that has so many packets, with these first keys.
fn joins(limit: usize, size: usize, first: Option<u128>, keys: &[u128]) -> bool
    ensures { result ≡ (nat_lt size limit && not (is_among first keys.now)) }
{
    size < limit && !is_among(first, keys)
}

/// Puts a first key before these keys.
fn add_key(first: Option<u128>, keys: &mut Vec<u128>) -> Result<(), NoMemory>
    ensures { OnOk result (keys.new.items ≡ with_key first keys.old.items) }
{
    if let Some(key) = first {
        keys.insert(0, key)?;
    }
    Ok(())
}

/// The number of the task's packet that an entry's item is. Another counts as its first packet.
fn number_in(task: &Task, item: u64) -> usize
    ensures { result ≡ number_in task.now.at task.now.count item }
{
    let item = item as usize;
    if task.at <= item && item - task.at < task.count {
        item
    } else {
        task.at
    }
}

/// How many of the task's packets are in batches up to that of the packet `last`.
fn batch_end<F: Function>(
    alloc: Global,
    function: &F,
    incarnation: u64,
    packets: &[Taken],
    task: &Task,
    last: usize,
) -> Result<usize, NoMemory>
    requires incarnation { incarnation < 2 ^ 32 }
    requires few { length packets.now < 2 ^ 32 }
    requires inside { 0 < task.now.count → task.now.at + task.now.count ≤ length packets.now }
    ensures { IfOk result (λ n. n
        ≡ batch_end task.now.batch
        (first_in (job_over (machine_of (F.behaviour function.now))
        (begun_of ((F.behaviour function.now).begins incarnation) packets.now) task.now))
        last 0 [] (range_with_len task.now.at task.now.count)) }
{
    let mut keys = Vec::new(alloc);
    let mut size = 0;
    for place in 0..task.count {
        let number = task.at + place;
        let start = begin(function, incarnation, number, &packets[number]);
        let first = first_key(function, &start);
        if !joins(task.batch, size, first, keys.as_slice()) {
            if last < number {
                return Ok(place);
            }
            keys.clear();
            size = 0;
        }
        size += 1;
        add_key(first, &mut keys)?;
    }
    Ok(task.count)
}

/// How many packets an actor took with this task and these entries: all where it wasn't stopped, and else those of
/// the batches up to that of its last entry.
pub(crate) fn taken<F: Function>(
    alloc: Global,
    function: &F,
    incarnation: u64,
    packets: &[Taken],
    task: &Task,
    part: &[Entry],
) -> Result<usize, NoMemory>
    requires incarnation { incarnation < 2 ^ 32 }
    requires few { length packets.now < 2 ^ 32 }
    requires inside { 0 < task.now.count → task.now.at + task.now.count ≤ length packets.now }
    requires batch { 0 < task.now.batch }
    ensures { IfOk result (λ n. n
        ≡ length (taken_in (job_over (machine_of (F.behaviour function.now))
        (begun_of ((F.behaviour function.now).begins incarnation) packets.now) task.now)
        part.now)) }
{
    if !is_stopped(task.stop, part) {
        return Ok(task.count);
    }
    if part.is_empty() {
        return Ok(0);
    }
    let last = number_in(task, part[part.len() - 1].item);
    let count = batch_end(alloc, function, incarnation, packets, task, last)?;
    Ok(count)
}
