//! The buckets of all shards: each access goes to the bucket of its key's shard, and their histories merge to the
//! journal.
#![tactic(auto)]

mod shards;
#[cfg(test)]
mod tests;
mod theorems;

pub use shards::Shards;
pub use theorems::shards_keep_parts;
