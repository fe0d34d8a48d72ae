//! The shards' histories, merged by threads: each merges a range of stamps.
#![tactic(auto)]

mod cuts;
mod merges;
mod parts;
#[cfg(test)]
mod tests;

pub use merges::merge_in_parts;
pub use parts::Parts;
