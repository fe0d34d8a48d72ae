ghost use Rattle.std.specs.Prelude.{◌≡◌, IfOk};

use slnf_base::{NoMemory, Row, Verdict};
use slnf_flight::Outcome;
use slnf_ranges::Parts;
use std::alloc::Global;

/// What a run in threads gives: its journal in parts, the verdict of each lane's packets, and how many packets no
/// instance took.
#[derive(Debug, Drop)]
pub struct PartedOutcome {
    pub journal: Parts,
    pub verdicts: Row<Row<Verdict>>,
    pub left: u64,
}

impl PartedOutcome {
    /// The same with its journal in one piece.
    pub fn joined(self, alloc: Global) -> Result<Outcome, NoMemory>
        ensures journal { IfOk result (λ outcome. outcome.journal ≡ self.journal) }
        ensures verdicts { IfOk result (λ outcome. outcome.verdicts ≡ self.verdicts) }
        ensures left { IfOk result (λ outcome. outcome.left ≡ self.left) }
    {
        let PartedOutcome {
            journal,
            verdicts,
            left,
        } = self;
        Ok(Outcome {
            journal: journal.joined(alloc)?,
            verdicts,
            left,
        })
    }
}
