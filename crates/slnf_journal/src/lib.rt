//! The texts of a run: the journal, the verdicts, the summary line and the lines of its ordinary box.
#![tactic(auto)]

mod box_lines;
mod entries;
mod errors;
mod fields;
mod lines;
mod parts;
mod read;
#[cfg(test)]
mod read_tests;
mod summary;
mod verdicts;

pub use box_lines::{BoxLine, write_box_lines};
pub use entries::write_journal;
pub use errors::JournalError;
pub use read::{read_journal, written_journals_are_read};
pub use summary::{summary_adds_up, write_summary};
pub use verdicts::write_verdicts;
