//! One actor's part of a run: the items that it takes in batches, and its accesses one after another.
#![tactic(auto)]

mod answers;
mod batches;
mod endings;
mod errands;
mod hands;
mod instances;
mod items;
mod rounds;
#[cfg(test)]
mod tests;

pub use batches::begin_next;
pub use endings::{Ending, Work};
pub use errands::Errand;
pub use instances::Instance;
pub use items::{Items, Standing};
