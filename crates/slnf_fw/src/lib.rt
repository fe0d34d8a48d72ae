//! The stateful firewall: its machine, the ordinary firewall that explains what its packets do, and the bound of their
//! accesses.
#![tactic(auto)]

mod flights;
mod functions;
#[cfg(test)]
mod tests;
mod theorems;
mod values;

pub use flights::{FwFlight, FwState};
pub use functions::FwFunction;
pub use theorems::{failed_write_shows_another, firewall_bound, firewall_is_one_box};
