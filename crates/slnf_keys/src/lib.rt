//! The keys and the values that the functions keep in the store, and the one number of each.
#![tactic(auto)]

pub mod apart;
mod keys;
mod layout;
#[cfg(test)]
mod tests;
mod values;

pub use keys::{ConnKey, FlowKey, PinKey, PortKey};
pub use values::{Claim, Conn, FlowTo, Pin};
