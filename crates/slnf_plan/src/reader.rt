//! A plan from the bytes of its text.
ghost use Rattle.std.specs.Prelude.{◌≡◌, ◌≤◌, Ok, IfOk, IfErr, IsTrue};
ghost use Rattle.toml.specs.View.{table_view};
ghost use Rattle.slnf_plan.specs.Plain.{plain, plain_function};
ghost use Rattle.slnf_plan.specs.Plans.{backend_count, shards_row, batch_row, epochs_row, plan_rows, plan_of};
ghost use Rattle.slnf_plan.specs.Ranges.{fits_function};
ghost use Rattle.slnf_plan.specs.Reading.{plan_of_bytes, error_of, Refuses};
ghost use Rattle.slnf_plan.specs.Refusals.{Gives};

use crate::count::Count;
use crate::epochs::EpochTable;
use crate::error::PlanError;
use crate::function_kind::FunctionKind;
use crate::functions::function_at;
use crate::kinds::{defaulted, demanded, known, required};
use crate::lists::ListOf;
use crate::plan::{Epoch, FunctionPlan, Plan};
use crate::refusal::{Cause, Fault, Refusal};
use crate::values::{Number, OneOf};
use slnf_base::{Row, Text};
use std::alloc::Global;
use toml::Table;

/// The plan that a TOML text spells, or its first refusal with its path. Want of memory comes where memory
/// ran out, and says nothing of the text.
pub fn read_plan(alloc: Global, bytes: &[u8]) -> Result<Plan, PlanError>
    ensures plan { IfOk result (λ p. plan_of_bytes bytes.now ≡ Ok (plain p)) }
    ensures refused { IfErr result (Refuses (plan_of_bytes bytes.now)) }
{
    let table = match toml::table_from_slice(alloc, bytes) {
        Ok(table) => table,
        Err(error) => {
            if error.is_memory() {
                return Err(PlanError::NoMemory);
            }
            return Err(PlanError::NotToml(Text::from_string(String::new(alloc))));
        }
    };
    match plan_of(alloc, &table) {
        Ok(plan) => Ok(plan),
        Err(Fault::Memory) => Err(PlanError::NoMemory),
        Err(Fault::Refused(refusal)) => Err(error_of(alloc, refusal)),
    }
}

#[tactic(auto, unfolding(crate::specs::Plans::plan_of))]
fn plan_of(alloc: Global, table: &Table) -> Result<Plan, Fault>
    ensures { Gives plain result (plan_of (table_view table.now)) }
{
    let listed = [
        "function", "shards", "batch", "nat", "firewall", "balancer", "epoch",
    ];
    known(alloc, table, &listed)?;
    plan(alloc, table)
}

const FUNCTIONS: [(&str, FunctionKind); 3] = [
    ("nat", FunctionKind::Nat),
    ("firewall", FunctionKind::Firewall),
    ("balancer", FunctionKind::Balancer),
];

#[tactic(auto, unfolding(crate::specs::Plans::plan_rows))]
fn plan(alloc: Global, table: &Table) -> Result<Plan, Fault>
    ensures { Gives plain result (plan_rows (table_view table.now)) }
{
    let kind = required(alloc, table, "function", &OneOf { words: &FUNCTIONS })?;
    let shards = shards_at(alloc, table)?;
    let batch = batch_at(alloc, table)?;
    let function = function_at(alloc, table, kind)?;
    let epochs = epochs_at(alloc, table, kind, &function)?;
    Ok(Plan {
        function,
        shards,
        batch,
        epochs,
    })
}

#[tactic(auto, unfolding(crate::specs::Plans::shards_row))]
fn shards_at(alloc: Global, table: &Table) -> Result<u32, Fault>
    ensures gives { Gives (λ n. n) result (shards_row (table_view table.now)) }
    ensures in_range { IfOk result (λ n. (1 ≤ n) × (n ≤ 64)) }
{
    let shards = Number {
        cause: Cause::OutOfRange,
        low: 1,
        end: 65,
    };
    defaulted(alloc, table, "shards", &shards, 4)
}

#[tactic(auto, unfolding(crate::specs::Plans::batch_row))]
fn batch_at(alloc: Global, table: &Table) -> Result<u32, Fault>
    ensures gives { Gives (λ n. n) result (batch_row (table_view table.now)) }
    ensures in_range { IfOk result (λ n. (1 ≤ n) × (n ≤ 32)) }
{
    let batch = Number {
        cause: Cause::OutOfRange,
        low: 1,
        end: 33,
    };
    defaulted(alloc, table, "batch", &batch, 1)
}

#[tactic(auto, unfolding(crate::specs::Plans::epochs_row))]
fn epochs_at(
    alloc: Global,
    table: &Table,
    kind: FunctionKind,
    function: &FunctionPlan,
) -> Result<Row<Epoch>, Fault>
    requires { IsTrue (fits_function function.now) }
    ensures { Gives (λ r. r) result (epochs_row kind (backend_count (plain_function function.now)) (table_view table.now)) }
{
    let epochs = ListOf {
        count: Count {
            empty: Some(Cause::NoEpoch),
            most: Some(1000),
        },
        element: EpochTable {
            kind,
            backends: backend_count(function),
        },
    };
    demanded(alloc, table, "epoch", Cause::NoEpoch, &epochs)
}

fn backend_count(function: &FunctionPlan) -> u32
    requires { IsTrue (fits_function function.now) }
    ensures { result ≡ backend_count (plain_function function.now) }
{
    match function {
        FunctionPlan::Nat(_) => 0,
        FunctionPlan::Firewall { .. } => 0,
        FunctionPlan::Balancer(service) => service.backends.len() as u32,
    }
}

fn error_of(alloc: Global, refusal: Refusal) -> PlanError
    ensures { result ≡ error_of refusal }
{
    let Refusal { cause, path } = refusal;
    let path = match path {
        Some(path) => path,
        None => Text::from_string(String::new(alloc)),
    };
    match cause {
        Cause::MissingKey => PlanError::MissingKey(path),
        Cause::UnknownKey => PlanError::UnknownKey(path),
        Cause::WrongType => PlanError::WrongType(path),
        Cause::BadAddress => PlanError::BadAddress(path),
        Cause::BadPrefix => PlanError::BadPrefix(path),
        Cause::OutOfRange => PlanError::OutOfRange(path),
        Cause::LaneTwice => PlanError::LaneTwice(path),
        Cause::NoBackend => PlanError::NoBackend(path),
        Cause::NoEpoch => PlanError::NoEpoch(path),
        Cause::ScheduleActor => PlanError::ScheduleActor(path),
    }
}
