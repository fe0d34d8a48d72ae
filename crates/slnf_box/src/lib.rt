//! The functions as ordinary boxes: what a NAT, a firewall and a balancer do with one packet after another, and each as a
//! box with ordered maps.
#![tactic(auto)]

mod balancer;
mod choices;
mod conns;
mod firewall;
mod pairs;
mod policies;
mod pools;
mod services;
mod translator;

pub use balancer::LbBox;
pub use choices::{Choice, Tracked};
pub use firewall::FwBox;
pub use policies::Policy;
pub use pools::{candidate, is_inbound, is_outbound, port_count};
pub use services::{is_forward, is_return};
pub use translator::NatBox;

#[cfg(test)]
mod tests;
