//! The loops that run a plan's epochs over its lanes.
#![tactic(auto)]

mod crews;
mod epochs;
mod plans;
mod turns;

pub use plans::step_plan;
pub use slnf_flight::Outcome;
