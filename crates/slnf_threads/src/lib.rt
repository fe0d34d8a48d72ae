//! A plan's run on the shared store: its actors at work side by side in threads.
#![tactic(auto)]

mod crews;
mod epochs;
mod journals;
mod parted;
mod plans;
mod reports;
mod takes;
mod theorems;
mod turns;

pub use epochs::run_epoch;
pub use parted::PartedOutcome;
pub use plans::run_plan;
pub use reports::{Desk, Report};
pub use theorems::parts_are_runs;
