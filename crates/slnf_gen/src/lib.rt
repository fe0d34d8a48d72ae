//! A load that is made from a number: a NAT's plan and a capture for each lane, the same on every machine.
#![tactic(auto)]

mod captures;
mod load;
mod packets;
mod plan;
#[cfg(test)]
mod tests;

pub use load::{Load, make_load};
pub use packets::law_of_headers;
