//! The rules of a list of entries that speak of no actor: their order and shards, and their replies.
#![tactic(auto)]

mod orders;
mod replies;
#[cfg(test)]
mod tests;

pub use orders::first_disorder;
pub use replies::first_false_reply;
