//! One actor of a list of entries that is followed: which entries are its next, and how far it came.
#![tactic(auto)]

mod batches;
mod hands;
mod progress;
#[cfg(test)]
mod tests;

pub use hands::Hand;
