//! Worked runs of whole plans: the definitions give the journals, the verdicts and the places that are written out by hand.
#![tactic(auto)]

mod balancers;
mod bodies;
mod firewalls;
mod nats;

pub use balancers::balancer_examples;
pub use bodies::wrong_bodies;
pub use firewalls::firewall_examples;
pub use nats::nat_examples;
