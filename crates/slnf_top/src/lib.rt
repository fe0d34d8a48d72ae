//! The commands: files in, files out, and a status.
#![tactic(auto)]

#[cfg(test)]
mod cases;
#[cfg(test)]
mod check_tests;
mod checks;
mod commands;
mod forms;
mod inputs;
#[cfg(test)]
mod letters;
#[cfg(test)]
mod limit_tests;
#[cfg(test)]
mod load_tests;
mod loads;
mod names;
mod outputs;
mod products;
mod statuses;
mod steps;
#[cfg(test)]
mod tests;
mod words;

pub use commands::{top, top_plain};
pub use statuses::Status;
