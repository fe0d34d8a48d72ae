ghost use Rattle.std.specs.Prelude.{◌≡◌, ◌+◌, ◌++◌, List, IfOk};
ghost use Rattle.slnf_base.specs.declared.packets.Verdict.{Verdict};
ghost use Rattle.slnf_run.specs.Verdicts.{left_in};
ghost use Rattle.slnf_journal.specs.Summary.{ends_as, count_of, count_in, emitted_in, dropped_in, lost_in, packets_in, summary_text};

use crate::lines::Lines;
use slnf_base::{NoMemory, Row, Verdict};
use slnf_flight::Outcome;
use std::alloc::Global;

/// The ways in which packets that an instance took end.
#[derive(Clone, Copy, Debug, PartialEq, Eq)]
enum Ending {
    Emitted,
    Dropped,
    Lost,
}

/// The summary line of a run, whose packets that no instance took are counted in `outcome.left`.
#[tactic(auto, unfolding(crate::specs::Summary::summary_text))]
pub fn write_summary(alloc: Global, outcome: &Outcome) -> Result<Vec<u8>, NoMemory>
    requires { outcome.now.left ≡ left_in outcome.now.verdicts }
    ensures { IfOk result (λ bytes. bytes.items ≡ summary_text outcome.now.verdicts outcome.now.journal) }
{
    let lanes = outcome.verdicts.as_slice();
    let mut lines = Lines::new(alloc);
    lines.push_word(b"packets ")?;
    lines.push_decimal(packets_in(lanes))?;
    lines.push_word(b" emitted ")?;
    lines.push_decimal(count_in(Ending::Emitted, lanes))?;
    lines.push_word(b" dropped ")?;
    lines.push_decimal(count_in(Ending::Dropped, lanes))?;
    lines.push_word(b" lost ")?;
    lines.push_decimal(count_in(Ending::Lost, lanes))?;
    lines.push_word(b" left ")?;
    lines.push_decimal(outcome.left)?;
    lines.push_word(b" entries ")?;
    lines.push_decimal(outcome.journal.len())?;
    lines.push_word(b"\n")?;
    Ok(lines.into_bytes())
}

/// A law: each packet is emitted, dropped, lost or left.
pub fn summary_adds_up()
    ensures { (lanes : List (List Verdict)) → packets_in lanes ≡ emitted_in lanes + dropped_in lanes + lost_in lanes + left_in lanes }
{}

/// How many packets there are.
fn packets_in(lanes: &[Row<Verdict>]) -> u128
    ensures { result ≡ packets_in lanes.now }
{
    let mut count = 0;
    for verdicts in lanes {
        count += verdicts.len() as u128;
    }
    count
}

/// How many packets of all lanes end so.
fn count_in(ending: Ending, lanes: &[Row<Verdict>]) -> u128
    ensures { result ≡ count_in ending lanes.now }
{
    let mut count = 0;
    for verdicts in lanes {
        count += count_of(ending, verdicts.as_slice()) as u128;
    }
    count
}

/// How many packets of a lane end so.
fn count_of(ending: Ending, verdicts: &[Verdict]) -> usize
    ensures { result ≡ count_of ending verdicts.now }
{
    let mut count = 0;
    for verdict in verdicts {
        if ends_as(ending, verdict) {
            count += 1;
        }
    }
    count
}

/// Whether a verdict ends so.
fn ends_as(ending: Ending, verdict: &Verdict) -> bool
    ensures { result ≡ ends_as ending verdict.now }
{
    match verdict {
        Verdict::Emit(_) => ending == Ending::Emitted,
        Verdict::Dropped(_) => ending == Ending::Dropped,
        Verdict::Lost => ending == Ending::Lost,
        Verdict::Left => false,
    }
}
