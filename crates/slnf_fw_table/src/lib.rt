//! The stateful firewall's rules and its table of transitions, after the connection diagram of RFC 793.
#![tactic(auto)]

mod connections;
mod permission;
mod rules;

pub use connections::{Kind, Move, Side, State, kind_of, transition};
pub use permission::permits;
pub use rules::{Opening, Rule};
