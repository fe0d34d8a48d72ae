ghost use Rattle.std.specs.Prelude.{◌≡◌, ◌++◌, OnOk, IfOk};
ghost use Rattle.slnf_journal.specs.Verdicts.{change_text, verdict_text, verdict_line, lane_text, verdicts_text};

use crate::lines::Lines;
use slnf_base::{Change, NoMemory, Row, Verdict};
use std::alloc::Global;

/// The verdicts' text: its first line, and one line for each packet, lane by lane.
pub fn write_verdicts(alloc: Global, verdicts: &[Row<Verdict>]) -> Result<Vec<u8>, NoMemory>
    ensures { IfOk result (λ bytes. bytes.items ≡ verdicts_text verdicts.now) }
{
    let mut lines = Lines::new(alloc);
    lines.push_word(b"slnf verdicts 1\n")?;
    for (lane, verdicts) in verdicts.iter().enumerate() {
        push_lane(&mut lines, lane, verdicts.as_slice())?;
    }
    Ok(lines.into_bytes())
}

fn push_lane(lines: &mut Lines, lane: usize, verdicts: &[Verdict]) -> Result<(), NoMemory>
    ensures { OnOk result (lines.new ≡ lines.old ++ lane_text lane 0 verdicts.now) }
{
    for (number, verdict) in verdicts.iter().enumerate() {
        push_verdict_line(lines, lane, number, verdict)?;
    }
    Ok(())
}

#[tactic(auto, unfolding(crate::specs::Verdicts::verdict_line))]
pub(crate) fn push_verdict_line(
    lines: &mut Lines,
    lane: usize,
    number: usize,
    verdict: &Verdict,
) -> Result<(), NoMemory>
    ensures { OnOk result (lines.new ≡ lines.old ++ verdict_line lane number verdict.now) }
{
    lines.push_decimal(lane)?;
    lines.push_word(b" ")?;
    lines.push_decimal(number)?;
    lines.push_word(b" ")?;
    push_verdict(lines, verdict)?;
    lines.push_word(b"\n")
}

#[tactic(auto, unfolding(crate::specs::Verdicts::verdict_text))]
fn push_verdict(lines: &mut Lines, verdict: &Verdict) -> Result<(), NoMemory>
    ensures { OnOk result (lines.new ≡ lines.old ++ verdict_text verdict.now) }
{
    match verdict {
        Verdict::Emit(change) => {
            lines.push_word(b"emit ")?;
            push_change(lines, change)
        }
        Verdict::Dropped(reason) => {
            lines.push_word(b"drop ")?;
            lines.push_decimal(reason.number())
        }
        Verdict::Lost => lines.push_word(b"lost"),
        Verdict::Left => lines.push_word(b"left"),
    }
}

#[tactic(auto, unfolding(crate::specs::Verdicts::change_text))]
fn push_change(lines: &mut Lines, change: &Change) -> Result<(), NoMemory>
    ensures { OnOk result (lines.new ≡ lines.old ++ change_text change.now) }
{
    match change {
        Change::Keep => lines.push_word(b"keep"),
        Change::Source(pair) => {
            lines.push_word(b"source ")?;
            lines.push_pair(*pair)
        }
        Change::Dest(pair) => {
            lines.push_word(b"dest ")?;
            lines.push_pair(*pair)
        }
    }
}
