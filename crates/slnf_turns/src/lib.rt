//! A ticket lock for each shard, and the proof that what the values have grown by is what their callers added.
#![tactic(auto)]

mod chronicles;
mod passes;
mod plays;
mod rule;
#[cfg(test)]
mod tests;
mod turns;
mod views;

pub use chronicles::Chronicle;
pub use passes::{Held, Kept, Pass};
pub use turns::Turns;
pub use views::{Joined, Line, Listed, Noted, Sight, Stage, View};
