//! Plans: which function runs, and in which epochs its instances work. A plan is read from a TOML text.
#![tactic(auto)]

mod count;
mod epochs;
mod error;
mod function_kind;
mod functions;
mod instances;
mod kinds;
mod lists;
mod plan;
mod reader;
mod refusal;
mod texts;
mod values;

pub use error::PlanError;
pub use plan::{Epoch, FunctionPlan, InstancePlan, Plan, SweepPlan};
pub use reader::read_plan;

#[cfg(test)]
mod cases;
#[cfg(test)]
mod tests;
