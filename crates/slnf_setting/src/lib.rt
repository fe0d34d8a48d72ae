//! The setting of any plan: definitions, laws and worked rows.
#![tactic(auto)]

mod theorems;
mod types;

pub use theorems::{
    plan_begins_so, plan_has_one_box, plan_passes_few, plan_runs_so, plan_schedules_so,
};
pub use types::know_types;
