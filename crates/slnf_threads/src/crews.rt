//! The actors of an epoch, and their passes.
ghost use Rattle.std.specs.Prelude.{◌≡◌, ◌≢◌, ◌+◌, ◌-◌, ◌^◌, ◌<◌, ◌≤◌, ℕ, All, Some, None, Ok, length, map, slice_get, IfOk, IfSome, OnOk};
ghost use Rattle.std.specs.List.{AllByRecursion};
ghost use Rattle.slnf_plan.specs.declared.plan.InstancePlan.{InstancePlan};
ghost use Rattle.slnf_turns.specs.Passes.{IsRoot};
ghost use Rattle.slnf_store.specs.Stores.{IsOf, shards_of};
ghost use Rattle.slnf_flight.specs.Actors.{era_of_epoch};
ghost use Rattle.slnf_crew.specs.declared.items.ActorItems.{ActorItems};
ghost use Rattle.slnf_crew.specs.Errands.{items_work};
ghost use Rattle.slnf_ledger.specs.Ledger.{places_in};
ghost use Rattle.slnf_threads.specs.Crews.{EachAt, Pairwise, IsSent, IsNewPass, SomeSpent};
ghost use Rattle.slnf_threads.specs.Passing.{after_splits, after_joins, clock_after};
ghost use Rattle.slnf_threads.specs.Reports.{IsReady, IsReport};

use crate::epochs::run_epoch;
use crate::reports::{Desk, Report};
use slnf_base::NoMemory;
use slnf_bucket::BucketError;
use slnf_crew::{ActorItems, errand_for};
use slnf_instance::{Instance, Work};
use slnf_ledger::{Ledger, place_of};
use slnf_plan::{Epoch, Plan};
use slnf_store::{Gate, Store, StorePass};
use std::alloc::Global;
use std::sync::Wait;
use std::thread;
use std::thread::Threads;

/// A desk for each actor of an epoch, in order. Lanes have come as far as the ledger tells.
pub(crate) fn seat<'a, 'b>(
    alloc: Global,
    plan: &Plan,
    epoch: &Epoch,
    ledger: &Ledger,
    items: &'b [ActorItems<'a>],
    store: &Store,
    root: &mut StorePass,
) -> Result<Vec<Desk<'b, ActorItems<'a>>>, NoMemory>
    requires fits { (k : ℕ) (item : ActorItems) (i : InstancePlan) → slice_get items.now k ≡ Some item
        → slice_get epoch.now.instances k ≡ Some i → places_in ledger.now i.lane ≤ (items_work item).count }
    requires shards { plan.now.shards ≡ shards_of store.now }
    requires here { IsOf store.now root.old }
    requires root { IsRoot root.old.known }
    requires actors { length items.now ≤ length (era_of_epoch epoch.now).actors }
    requires few { length root.old.known.before + length items.now < 2 ^ 32 - 2 }
    ensures here { OnOk result (IsOf store.now root.new) }
    ensures root { OnOk result (root.new.known ≡ after_splits (length items.now) root.old.known) }
    ensures clock { OnOk result (root.new.clock ≡ root.old.clock) }
    ensures count { IfOk result (λ desks. length desks.items ≡ length items.now) }
    ensures ready { IfOk result (λ desks. All (λ d. IsReady items_work store.now d.instance d.errand d.pass)
        desks.items) }
    ensures sent { IfOk result (λ desks. EachAt (λ k d. IsSent plan.now epoch.now (places_in ledger.now) items.now k d.instance) 0
        desks.items) }
    ensures passes { IfOk result (λ desks. EachAt (λ k d. IsNewPass store.now root.old k d.pass) 0 desks.items) }
{
    let mut desks = Vec::with_capacity(alloc, items.len())?;
    for number in 0..items.len() {
        let item = &items[number];
        let at = place_of(epoch.instances.as_slice(), ledger, number);
        let errand = errand_for(plan, epoch, number, at, item.count());
        let instance = Instance::make(alloc, item, errand)?;
        let pass = store.split(root);
        desks.push(Desk {
            instance,
            errand,
            pass,
        })?;
    }
    Ok(desks)
}

/// Lets all actors work side by side, each in a thread of its own, or one after another where no thread can be made.
pub(crate) fn side_by_side<R: Threads + Wait + Sync, G: Gate + Sync>(
    rt: &R,
    store: &Store,
    gate: &G,
    desks: Vec<Desk<'_, ActorItems<'_>>>,
) -> Result<Vec<Report>, NoMemory>
    requires { All (λ d. IsReady items_work store.now d.instance d.errand d.pass) desks.items }
    ensures { IfOk result (λ reports. Pairwise
        (λ d r. IsReport items_work store.now d.instance d.pass r.pass r.outcome) desks.entry.items reports.items) }
{
    let reports = thread::map_vec(
        rt,
        desks,
        &|desk: Desk<'_, ActorItems<'_>>| -> Report
            requires { IsReady items_work store.now desk.instance desk.errand desk.pass }
            ensures { IsReport items_work store.entry.now desk.entry.instance desk.entry.pass result.pass result.outcome }
        { run_epoch(rt, store, gate, desk) },
    )?;
    Ok(reports)
}

/// Takes back all passes, and answers what the actors did. It answers `None` where stamps were spent.
pub(crate) fn gather(
    alloc: Global,
    store: &Store,
    root: &mut StorePass,
    reports: Vec<Report>,
) -> Result<Option<Vec<Work>>, NoMemory>
    requires here { IsOf store.now root.old }
    requires root { IsRoot root.old.known }
    requires reports { AllByRecursion (λ r. IsOf store.now r.pass × (r.pass.known.number ≢ 0)) reports.items }
    ensures here { IsOf store.now root.new }
    ensures root { OnOk result
        (root.new.known ≡ after_joins (map (λ r. r.pass.known) reports.items) root.old.known) }
    ensures clock { OnOk result
        (root.new.clock ≡ clock_after (map (λ r. r.pass.clock) reports.items) root.old.clock) }
    ensures all { IfOk result (λ works. IfSome works (λ done. map Ok done.items ≡ map (λ r. r.outcome) reports.items)) }
    ensures spent { IfOk result (λ works. works ≡ None → SomeSpent (map (λ r. r.outcome) reports.items)) }
{
    let mut works = Vec::with_capacity(alloc, reports.len())?;
    let mut spent = false;
    for report in reports {
        let Report { pass, outcome } = report;
        store.join(root, pass);
        match outcome {
            Ok(work) => works.push(work)?,
            Err(BucketError::NoMemory) => return Err(NoMemory),
            Err(BucketError::StampsSpent(_)) => spent = true,
        }
    }
    if spent {
        return Ok(None);
    }
    Ok(Some(works))
}
