ghost use Rattle.std.specs.Prelude.{◌≡◌, ◌++◌, OnOk, IfOk};

use crate::lines::Lines;
use crate::verdicts::push_verdict_line;
use slnf_base::{NoMemory, Verdict};
use std::alloc::Global;

/// What the one ordinary box answers to a packet of a run: the number of the entry that is the packet's place,
/// counted from 1, the packet's lane and its number there, and the box's verdict.
#[derive(Clone, Copy, Debug, PartialEq, Eq)]
pub struct BoxLine {
    pub place: usize,
    pub lane: u32,
    pub number: u64,
    pub verdict: Verdict,
}

ghost use Rattle.slnf_journal.specs.BoxLines.{box_line_text, box_lines_text};

/// The box's text: one line for each answer.
pub fn write_box_lines(alloc: Global, answers: &[BoxLine]) -> Result<Vec<u8>, NoMemory>
    ensures { IfOk result (λ bytes. bytes.items ≡ box_lines_text answers.now) }
{
    let mut lines = Lines::new(alloc);
    for answer in answers {
        push_box_line(&mut lines, answer)?;
    }
    Ok(lines.into_bytes())
}

#[tactic(auto, unfolding(crate::specs::BoxLines::box_line_text))]
fn push_box_line(lines: &mut Lines, answer: &BoxLine) -> Result<(), NoMemory>
    ensures { OnOk result (lines.new ≡ lines.old ++ box_line_text answer.now) }
{
    lines.push_decimal(answer.place)?;
    lines.push_word(b" ")?;
    push_verdict_line(
        lines,
        answer.lane as usize,
        answer.number as usize,
        &answer.verdict,
    )
}
