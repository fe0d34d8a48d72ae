use slnf_access::Entry;
use slnf_base::{Row, Verdict};

/// What a run gives: its journal, the verdict of each lane's packets, and how many packets no instance took.
#[derive(Debug, Drop)]
pub struct Outcome {
    pub journal: Row<Entry>,
    pub verdicts: Row<Row<Verdict>>,
    pub left: u64,
}
