//! Batches: how many next packets make one, whether the next packet joins one, and in which order a round asks.
#![tactic(auto)]

mod cuts;
mod firsts;
mod groups;

pub use cuts::cut;
pub use firsts::joins;
pub use groups::group;
