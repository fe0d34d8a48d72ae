use slnf_base::Verdict;

/// How an actor ended.
#[derive(Clone, Copy, Debug, PartialEq, Eq)]
pub enum Ending {
    /// No items are left.
    Finished,
    /// It has taken its quota of items.
    Drained,
    /// It has made as many accesses as its stop says.
    Stopped,
}

/// What an actor did: the verdicts of the items that it took, from its first one on, and its ending.
#[derive(Debug, Drop)]
pub struct Work {
    pub verdicts: Vec<Verdict>,
    pub ending: Ending,
}
