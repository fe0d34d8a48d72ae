//! One shard's part of the store: a hashed map and its history.
#![tactic(auto)]

mod buckets;
mod errors;
#[cfg(test)]
mod tests;

pub use buckets::Bucket;
pub use errors::BucketError;
