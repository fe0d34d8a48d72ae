//! Whether a list of entries is a run of a plan, and if not, which rule it breaks first, and where.
#![tactic(auto)]

mod actors;
mod checks;
mod entries;
mod epochs;
mod refusals;
#[cfg(test)]
mod tests;

pub use checks::first_break;
pub use refusals::{At, Refusal};
