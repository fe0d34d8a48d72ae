//! The rules of runs, entry by entry: what may come next after a list of entries, the first rule that a list breaks with
//! its place, and the state of one who follows a list in one pass.
#![tactic(auto)]

mod broken;
mod laws;

pub use broken::Broken;
pub use laws::{followers_tell, lists_have_one_answer, runs_are_local};
