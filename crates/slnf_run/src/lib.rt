//! Runs of machines over one store, the schedule that makes them, and the one ordinary box that explains them. It has
//! definitions and their laws alone.
#![tactic(auto)]
