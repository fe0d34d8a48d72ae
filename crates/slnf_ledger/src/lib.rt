//! The verdicts of each lane's packets, from epoch to epoch, and how far each lane has come.
#![tactic(auto)]

mod ledgers;
mod lefts;
mod works;

pub use ledgers::Ledger;
pub use lefts::left_in;
pub use works::{add_work, add_works, place_of};
