//! The laws of the answers: they stand as the contract of a function that does nothing.
ghost use Rattle.std.specs.Prelude.{◌≡◌, ◌⊎◌, ℕ, List};
ghost use Rattle.slnf_access.specs.declared.requests.Entry.{Entry};
ghost use Rattle.slnf_plan.specs.declared.plan.Plan.{Plan};
ghost use Rattle.slnf_flight.specs.declared.lanes.Lane.{Lane};
ghost use Rattle.slnf_follow.specs.declared.refusals.Refusal.{Refusal};
ghost use Rattle.slnf_check.specs.declared.given.Given.{Given};
ghost use Rattle.slnf_check.specs.declared.given.RunFiles.{RunFiles};
ghost use Rattle.slnf_check.specs.Checks.{IsJournalOf, IsRefusedJournal, AreTrue, AreRefused};

/// Bytes are the journal of one run, or they are refused by one rule at one place, and never both.
pub fn follows_tell()
    ensures some { (plan : Plan) (lanes : List Lane) (bytes : List ℕ)
        → ((entries : List Entry) × IsJournalOf plan lanes bytes entries)
        ⊎ ((refusal : Refusal) × IsRefusedJournal plan lanes bytes refusal) }
    ensures apart { (plan : Plan) (lanes : List Lane) (bytes : List ℕ) (entries : List Entry) (refusal : Refusal)
        → IsJournalOf plan lanes bytes entries → IsRefusedJournal plan lanes bytes refusal → ⊥ }
    ensures one_run { (plan : Plan) (lanes : List Lane) (bytes : List ℕ) (one other : List Entry)
        → IsJournalOf plan lanes bytes one → IsJournalOf plan lanes bytes other → one ≡ other }
    ensures one_refusal { (plan : Plan) (lanes : List Lane) (bytes : List ℕ) (one other : Refusal)
        → IsRefusedJournal plan lanes bytes one → IsRefusedJournal plan lanes bytes other → one ≡ other }
{}

/// Files are those of one true run, or they are refused by one rule at one place, and never both. So a check accepts
/// exactly the files of a true run, and refuses exactly where a rule is broken, unless memory is wanting.
pub fn checks_tell()
    ensures some { (plan : Plan) (lanes : List Lane) (given : List Given) (files : RunFiles)
        → ((entries : List Entry) × AreTrue plan lanes given files entries)
        ⊎ ((refusal : Refusal) × AreRefused plan lanes given files refusal) }
    ensures apart { (plan : Plan) (lanes : List Lane) (given : List Given) (files : RunFiles) (entries : List Entry)
        (refusal : Refusal) → AreTrue plan lanes given files entries → AreRefused plan lanes given files refusal → ⊥ }
    ensures one_run { (plan : Plan) (lanes : List Lane) (given : List Given) (files : RunFiles)
        (one other : List Entry) → AreTrue plan lanes given files one → AreTrue plan lanes given files other
        → one ≡ other }
    ensures one_refusal { (plan : Plan) (lanes : List Lane) (given : List Given) (files : RunFiles)
        (one other : Refusal) → AreRefused plan lanes given files one → AreRefused plan lanes given files other
        → one ≡ other }
{}
