//! The tables of epochs and their instances.
ghost use Rattle.std.specs.Prelude.{◌≡◌, ◌+◌, ◌≤◌, map, IfOk};
ghost use Rattle.toml.specs.View.{table_view};
ghost use Rattle.slnf_plan.specs.Ranges.{sweep_count};
ghost use Rattle.slnf_plan.specs.Refusals.{Gives};
ghost use Rattle.slnf_plan.specs.Plans.{places, epoch_keys, active_row, stop_count, sweep_of, sweep_row, schedule_row, epoch_rows, epoch_table};
ghost use Rattle.slnf_plan.specs.declared.plan.Epoch.{Epoch};

use crate::count::Count;
use crate::function_kind::FunctionKind;
use crate::instances::instances_at;
use crate::kinds::{Kind, as_table, defaulted, known, optional};
use crate::lists::ListOf;
use crate::plan::{Epoch, SweepPlan};
use crate::refusal::{Cause, Fault};
use crate::values::{LongNumber, Number, Truth};
use slnf_base::Row;
use std::alloc::{AllocError, Global};
use toml::{Table, Value};

/// The table of an epoch, for a function with so many backends.
#[derive(Drop)]
pub(crate) struct EpochTable {
    pub kind: FunctionKind,
    pub backends: u32,
}

impl Kind for EpochTable {
    type Item = Epoch;

    ghost Plain = { Epoch };

    ghost plain = { λ epoch. epoch };

    ghost reads = { λ kind d. epoch_table kind.kind kind.backends d };

    #[tactic(auto, unfolding(crate::specs::Plans::epoch_table))]
    fn read(&self, alloc: Global, value: &Value) -> Result<Epoch, Fault> {
        let table = as_table(value)?;
        known(alloc, table, epoch_keys(self.kind))?;
        epoch(alloc, table, self.kind, self.backends)
    }
}

const NAT_KEYS: [&str; 4] = ["instances", "sweep", "sweep_stop", "schedule"];

const FIREWALL_KEYS: [&str; 2] = ["instances", "schedule"];

const BALANCER_KEYS: [&str; 3] = ["instances", "active", "schedule"];

// The keys of an epoch, some of which one function alone has.
fn epoch_keys(kind: FunctionKind) -> &'static [&'static str]
    ensures { map (λ k. k.now) result.now ≡ epoch_keys kind }
{
    match kind {
        FunctionKind::Nat => &NAT_KEYS,
        FunctionKind::Firewall => &FIREWALL_KEYS,
        FunctionKind::Balancer => &BALANCER_KEYS,
    }
}

#[tactic(auto, unfolding(crate::specs::Plans::epoch_rows))]
fn epoch(alloc: Global, table: &Table, kind: FunctionKind, backends: u32) -> Result<Epoch, Fault>
    ensures { Gives (λ e. e) result (epoch_rows kind backends (table_view table.now)) }
{
    let instances = instances_at(alloc, table)?;
    let active = active_at(alloc, table, kind, backends)?;
    let sweep = sweep_at(alloc, table, kind)?;
    let actors = actor_count(instances.len(), sweep);
    let schedule = schedule_at(alloc, table, actors)?;
    Ok(Epoch {
        instances,
        active,
        sweep,
        schedule,
    })
}

// The instances, and the sweep after them.
fn actor_count(instances: usize, sweep: SweepPlan) -> u32
    requires { instances ≤ 32 }
    ensures { result ≡ instances + sweep_count sweep }
{
    let instances = instances as u32;
    match sweep {
        SweepPlan::No => instances,
        SweepPlan::Yes { .. } => instances + 1,
    }
}

#[tactic(auto, unfolding(crate::specs::Plans::active_row))]
fn active_at(
    alloc: Global,
    table: &Table,
    kind: FunctionKind,
    backends: u32,
) -> Result<Row<u32>, Fault>
    ensures { Gives (λ r. r) result (active_row kind backends (table_view table.now)) }
{
    match kind {
        FunctionKind::Nat => Ok(Row::from_vec(Vec::new(alloc))),
        FunctionKind::Firewall => Ok(Row::from_vec(Vec::new(alloc))),
        FunctionKind::Balancer => {
            let all = places(alloc, backends)?;
            let active = ListOf {
                count: Count {
                    empty: Some(Cause::NoBackend),
                    most: Some(64),
                },
                element: Number {
                    cause: Cause::OutOfRange,
                    low: 0,
                    end: backends,
                },
            };
            defaulted(alloc, table, "active", &active, all)
        }
    }
}

// The places from 0 on, so many.
fn places(alloc: Global, count: u32) -> Result<Row<u32>, AllocError>
    ensures { IfOk result (λ r. r ≡ places count) }
{
    let mut all = Vec::new(alloc);
    for place in 0..count {
        all.push(place)?;
    }
    Ok(Row::from_vec(all))
}

#[tactic(auto, unfolding(crate::specs::Plans::sweep_row))]
fn sweep_at(alloc: Global, table: &Table, kind: FunctionKind) -> Result<SweepPlan, Fault>
    ensures { Gives (λ s. s) result (sweep_row kind (table_view table.now)) }
{
    match kind {
        FunctionKind::Firewall => Ok(SweepPlan::No),
        FunctionKind::Balancer => Ok(SweepPlan::No),
        FunctionKind::Nat => {
            let sweep = defaulted(alloc, table, "sweep", &Truth, false)?;
            let end = stop_count(sweep);
            let stop = optional(alloc, table, "sweep_stop", &LongNumber { end })?;
            Ok(sweep_of(sweep, stop))
        }
    }
}

// How many numbers a sweep's stop can be.
fn stop_count(sweep: bool) -> u64
    ensures { result ≡ stop_count sweep }
{
    if sweep { 0x100_0000_0001 } else { 0 }
}

fn sweep_of(sweep: bool, stop: Option<u64>) -> SweepPlan
    ensures { result ≡ sweep_of sweep stop }
{
    if sweep {
        SweepPlan::Yes { stop }
    } else {
        SweepPlan::No
    }
}

#[tactic(auto, unfolding(crate::specs::Plans::schedule_row))]
fn schedule_at(alloc: Global, table: &Table, actors: u32) -> Result<Row<u32>, Fault>
    ensures { Gives (λ r. r) result (schedule_row actors (table_view table.now)) }
{
    let schedule = ListOf {
        count: Count {
            empty: None,
            most: None,
        },
        element: Number {
            cause: Cause::ScheduleActor,
            low: 0,
            end: actors,
        },
    };
    let none = Row::from_vec(Vec::new(alloc));
    defaulted(alloc, table, "schedule", &schedule, none)
}
