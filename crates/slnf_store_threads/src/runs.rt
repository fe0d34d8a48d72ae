//! The callers side by side on one store.
ghost use Rattle.std.specs.Prelude.{◌≡◌, ◌≤◌, All, [], map, length, IfOk, vec_len};
ghost use Rattle.slnf_merge.specs.Merge.{EachLegal};
ghost use Rattle.slnf_turns.specs.Passes.{IsRoot};
ghost use Rattle.slnf_store.specs.Stores.{IsOf, shards_of};
ghost use Rattle.slnf_store_threads.specs.Callers.{IsCaller, IsFresh};

use crate::callers::{Report, work};
use crate::loads::Load;
use anyhow::Result;
use slnf_access::Entry;
use slnf_store::{Store, StorePass};
use std::alloc::Global;
use std::hash::RandomState;
use std::sync::Wait;
use std::thread;
use std::thread::Threads;
use std::time::{Clock, Duration, Instant};

/// The shards' histories, the sum of the callers' checksums, and how long the callers took.
#[derive(Drop)]
pub struct Ran {
    pub histories: Vec<Vec<Entry>>,
    pub sum: u64,
    pub time: Duration,
}

/// A pass for each caller.
fn passes(
    alloc: Global,
    store: &Store,
    root: &mut StorePass,
    callers: u32,
) -> Result<Vec<StorePass>>
    requires here { IsOf store.now root.old }
    requires root { IsRoot root.old.known × (root.old.known.before ≡ []) × (root.old.known.joined ≡ []) }
    requires few { callers ≤ 64 }
    ensures here { IsOf store.now root.new }
    ensures root { IsRoot root.new.known × (root.new.known.joined ≡ []) }
    ensures count { IfOk result (λ passes. length root.new.known.before ≡ vec_len passes) }
    ensures fresh { IfOk result (λ passes. All (IsFresh store.now) passes.items) }
{
    let mut passes = Vec::with_capacity(alloc, callers as usize)?;
    for caller in 0..callers {
        passes.push(store.split(root))?;
    }
    Ok(passes)
}

/// Lets all callers work, each in a thread of its own where one can be made.
fn side_by_side<R: Threads + Wait + Sync>(
    rt: &R,
    store: &Store,
    load: Load,
    passes: Vec<StorePass>,
) -> Result<Vec<Report>>
    requires passes { All (IsFresh store.now) passes.items }
    requires shards { load.shards ≡ shards_of store.now }
    ensures count { IfOk result (λ reports. vec_len reports ≡ vec_len passes) }
    ensures reports { IfOk result (λ reports. All (λ report. IsCaller store.now report.pass) reports.items) }
{
    let reports = thread::map_vec(
        rt,
        passes,
        &|pass: StorePass| -> Report
            requires { IsFresh store.now pass × (load.shards ≡ shards_of store.now) }
            ensures { IsCaller store.entry.now result.pass }
        { work(rt, store, load, pass) },
    )?;
    Ok(reports)
}

/// Joins all passes, and answers the sum of the checksums.
fn joined(store: &Store, root: &mut StorePass, reports: Vec<Report>) -> Result<u64>
    requires here { IsOf store.now root.old }
    requires root { IsRoot root.old.known × (root.old.known.joined ≡ []) }
    requires reports { All (λ report. IsCaller store.now report.pass) reports.items }
    ensures here { IsOf store.now root.new }
    ensures root { IsRoot root.new.known × (root.new.known.before ≡ root.old.known.before) }
    ensures all { IfOk result (λ _. length root.new.known.joined ≡ vec_len reports) }
{
    let mut all: u64 = 0;
    for report in reports {
        let Report { pass, sum } = report;
        store.join(root, pass);
        all = all.wrapping_add(sum?);
    }
    Ok(all)
}

/// Runs the load on a store of its own. The time begins when the store is made, and ends before its histories are taken.
pub fn run<R: Threads + Wait + Sync + Clock>(
    rt: &R,
    alloc: Global,
    state: RandomState,
    load: Load,
) -> Result<Ran>
    ensures shards { IfOk result (λ ran. vec_len ran.histories ≡ load.shards) }
    ensures legal { IfOk result (λ ran. EachLegal (map (λ history. history.items) ran.histories.items)) }
{
    let (store, mut root) = Store::make(alloc, state, load.shards)?;
    let passes = passes(alloc, &store, &mut root, load.callers)?;
    let start = Instant::now(rt)?;
    let reports = side_by_side(rt, &store, load, passes)?;
    let time = start.elapsed(rt)?;
    let sum = joined(&store, &mut root, reports)?;
    let histories = store.close(alloc, root)?;
    Ok(Ran {
        histories,
        sum,
        time,
    })
}

/// How many accesses there are in all.
pub(crate) fn count(histories: &[Vec<Entry>]) -> usize {
    histories
        .iter()
        .fold(0usize, |count, history| count.wrapping_add(history.len()))
}
