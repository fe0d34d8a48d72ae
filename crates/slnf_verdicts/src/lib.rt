//! The verdict of each packet of a run, by the run's journal alone.
#![tactic(auto)]

mod batches;
mod parts;
mod replays;
mod rows;
mod standings;
mod tasks;
#[cfg(test)]
mod tests;
mod verdicts;

pub use verdicts::verdicts_of;
