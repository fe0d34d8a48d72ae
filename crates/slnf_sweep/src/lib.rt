//! The sweep of a NAT's store: after an epoch it takes away the claims of earlier epochs that have no flow.
#![tactic(auto)]

mod flights;
mod sweeps;
#[cfg(test)]
mod tests;
mod theorems;

pub use flights::SweepFlight;
pub use sweeps::Sweep;
pub use theorems::sweep_is_bounded;
