//! The load balancer: its machine, and the ordinary box that it refines.
#![tactic(auto)]

mod flights;
mod functions;
mod theorems;

pub use flights::{LbFlight, LbState};
pub use functions::LbFunction;
pub use theorems::paths_are_one_balancer;

#[cfg(test)]
mod tests;
