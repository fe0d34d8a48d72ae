//! The shards' histories, merged into one list of accesses.
#![tactic(auto)]

mod merges;

pub use merges::merge;
