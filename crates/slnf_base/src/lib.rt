//! The types that all layers share: addresses, packets, verdicts, and vectors that contracts see as lists.
#![tactic(auto)]

mod addresses;
mod memory;
mod packets;
mod plans;
mod rows;
mod texts;

pub use addresses::{Pair, Prefix, know_pair};
pub use memory::NoMemory;
pub use packets::{Change, Link, Packet, Proto, Reason, Verdict};
pub use plans::{Pool, Service};
pub use rows::Row;
pub use texts::Text;
