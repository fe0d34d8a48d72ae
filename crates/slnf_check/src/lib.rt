//! Whether files are those of a true run: the rules that they must keep, and the first that is broken.
#![tactic(auto)]

mod boxes;
mod checks;
mod compare;
mod given;
mod laws;
mod outputs;
mod refusals;
#[cfg(test)]
mod tests;

pub use boxes::box_lines;
pub use checks::{Accepted, check, follow};
pub use given::{Given, RunFiles};
pub use laws::{checks_tell, follows_tell};
pub use refusals::CheckError;
pub use slnf_follow::{At, Refusal};
