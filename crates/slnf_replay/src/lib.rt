//! What the one ordinary box of a plan's function answers to the packets of a run, by the run's journal.
#![tactic(auto)]

mod answers;
mod boxes;
mod choices;
mod follows;
mod functions;
mod hands;
mod laws;
mod packets;
mod places;
mod replays;
mod seats;

pub use laws::boxes_answer_as_written;
pub use replays::box_lines;
