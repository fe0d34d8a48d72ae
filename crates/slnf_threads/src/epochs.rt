//! One actor's epoch on the shared store.
ghost use Rattle.std.specs.Prelude.{◌≡◌, ◌≢◌, [], None, OnOk, IfErr};
ghost use Rattle.slnf_bucket.specs.Bucket.{last_stamp};
ghost use Rattle.slnf_store.specs.Passes.{own_entries};
ghost use Rattle.slnf_store.specs.Stores.{IsOf, shards_of};
ghost use Rattle.slnf_turns.specs.Passes.{KeepsKin};
ghost use Rattle.slnf_instance.specs.Instances.{ask_by, StandsBy};
ghost use Rattle.slnf_threads.specs.Reports.{job_by, IsRefused, IsReady, IsReport};
ghost use Rattle.slnf_threads.specs.Worked.{IsWorked};

use crate::reports::{Desk, Report};
use crate::takes::left_at;
use crate::turns::{MOST, front, turn};
use slnf_bucket::BucketError;
use slnf_instance::{Errand, Instance, Items};
use slnf_store::{Gate, Store, StorePass};
use std::sync::Wait;

/// Lets an actor make its accesses until it wants none.
fn work<T: Items, R: Wait, G: Gate>(
    rt: &R,
    store: &Store,
    gate: &G,
    errand: &Errand,
    instance: &mut Instance<'_, T>,
    pass: &mut StorePass,
) -> Result<(), BucketError>
    requires { IsReady T.work store.now instance.old errand.now pass.old }
    ensures here { IsOf store.now pass.new }
    ensures kin { KeepsKin pass.old.known pass.new.known }
    ensures clock { pass.new.clock ≡ last_stamp pass.old.clock (own_entries pass.new) }
    ensures errand { instance.new.errand ≡ instance.old.errand }
    ensures worked { IsWorked (job_by T.work instance.old) [] (own_entries pass.new) }
    ensures stands { StandsBy T.work (job_by T.work instance.old) (own_entries pass.new) instance.new }
    ensures done { OnOk result (ask_by instance.new ≡ None) }
    ensures refused { IfErr result (λ refusal. IsRefused (shards_of store.now) pass.new refusal) }
{
    let mut made: u64 = 0;
    for _ in rt.forever() {
        if instance.wanted().is_none() {
            break;
        }
        let most = left_at(MOST, errand.stop, made);
        let count = front(instance.round(), errand.shards, most);
        gate.between(pass.incarnation(), made);
        turn(rt, store, gate, instance, pass, count)?;
        made = made.saturating_add(count as u64);
    }
    Ok(())
}

/// Lets an actor work on the shared store to its ending, in the list of its pass. Before each turn the gate's `between`
/// is called, with no turn held. All accesses of a round to one shard are made in one turn. No clause says that the
/// turns come.
pub fn run_epoch<T: Items, R: Wait, G: Gate>(
    rt: &R,
    store: &Store,
    gate: &G,
    desk: Desk<'_, T>,
) -> Report
    requires { IsReady T.work store.now desk.instance desk.errand desk.pass }
    ensures { IsReport T.work store.now desk.entry.instance desk.entry.pass result.pass result.outcome }
{
    let Desk {
        mut instance,
        errand,
        mut pass,
    } = desk;
    match work(rt, store, gate, &errand, &mut instance, &mut pass) {
        Ok(()) => Report {
            pass,
            outcome: Ok(instance.finish()),
        },
        Err(refusal) => Report {
            pass,
            outcome: Err(refusal),
        },
    }
}
