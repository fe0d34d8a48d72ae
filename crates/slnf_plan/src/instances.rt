//! The tables of an epoch's instances.
ghost use Rattle.std.specs.Prelude.{◌≤◌, ◌≡◌, ◌==◌, List, [], length, IfOk};
ghost use Rattle.std.specs.List.{list_any};
ghost use Rattle.toml.specs.View.{view, table_view, items_view};
ghost use Rattle.slnf_plan.specs.Refusals.{Gives};
ghost use Rattle.slnf_plan.specs.Tables.{elements};
ghost use Rattle.slnf_plan.specs.Plans.{instance_rows, instance_table, instance_list, instances_row};
ghost use Rattle.slnf_plan.specs.declared.plan.InstancePlan.{InstancePlan};

use crate::count::Count;
use crate::kinds::{Kind, as_table, known, optional, required};
use crate::lists::{counted, under_place};
use crate::plan::InstancePlan;
use crate::refusal::{Cause, Fault};
use crate::values::{LongNumber, Number};
use slnf_base::Row;
use std::alloc::Global;
use toml::{Table, Value};

/// An epoch's instances.
#[tactic(auto, unfolding(crate::specs::Plans::instances_row))]
pub(crate) fn instances_at(alloc: Global, table: &Table) -> Result<Row<InstancePlan>, Fault>
    ensures gives { Gives (λ r. r) result (instances_row (table_view table.now)) }
    ensures few { IfOk result (λ r. length r ≤ 32) }
{
    required(alloc, table, "instances", &InstanceList)
}

#[derive(Drop)]
struct InstanceList;

impl Kind for InstanceList {
    type Item = Row<InstancePlan>;

    ghost Plain = { List InstancePlan };

    ghost plain = { λ r. r };

    ghost reads = { λ _ d. instance_list d };

    #[tactic(auto, unfolding(crate::specs::Plans::instance_list))]
    fn read(&self, alloc: Global, value: &Value) -> Result<Row<InstancePlan>, Fault> {
        let count = Count {
            empty: None,
            most: Some(32),
        };
        let values = counted(count, value)?;
        Ok(Row::from_vec(instances(alloc, values)?))
    }
}

// Each instance in order, on a lane that none before it has.
fn instances(alloc: Global, values: &[Value]) -> Result<Vec<InstancePlan>, Fault>
    ensures { Gives (λ v. v.items) result (elements instance_table [] (items_view values.now)) }
{
    let mut items = Vec::new(alloc);
    for value in values {
        let item = instance_after(alloc, items.as_slice(), value);
        let item = under_place(alloc, items.len(), item)?;
        items.push(item)?;
    }
    Ok(items)
}

#[tactic(auto, unfolding(crate::specs::Plans::instance_table))]
fn instance_after(
    alloc: Global,
    earlier: &[InstancePlan],
    value: &Value,
) -> Result<InstancePlan, Fault>
    ensures { Gives (λ i. i) result (instance_table earlier.now (view value.now)) }
{
    let table = as_table(value)?;
    known(alloc, table, &["lane", "quota", "stop"])?;
    let instance = instance(alloc, table)?;
    if has_lane(earlier, instance.lane) {
        return Err(Fault::of(Cause::LaneTwice).under(alloc, "lane"));
    }
    Ok(instance)
}

fn has_lane(instances: &[InstancePlan], lane: u32) -> bool
    ensures { result ≡ list_any (λ i. i.lane == lane) instances.now }
{
    instances.iter().any(|i| i.lane == lane)
}

#[tactic(auto, unfolding(crate::specs::Plans::instance_rows))]
fn instance(alloc: Global, table: &Table) -> Result<InstancePlan, Fault>
    ensures { Gives (λ i. i) result (instance_rows (table_view table.now)) }
{
    let lanes = Number {
        cause: Cause::OutOfRange,
        low: 0,
        end: 32,
    };
    let lane = required(alloc, table, "lane", &lanes)?;
    let quota = optional(alloc, table, "quota", &LongNumber { end: 1_048_577 })?;
    let stops = LongNumber {
        end: 0x100_0000_0001,
    };
    let stop = optional(alloc, table, "stop", &stops)?;
    Ok(InstancePlan { lane, quota, stop })
}
