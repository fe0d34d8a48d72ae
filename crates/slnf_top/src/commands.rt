//! The commands.
ghost use Rattle.std.specs.Prelude.{◌≡◌, ◌≤◌, ℕ, List, length, map, string_bytes};
ghost use Rattle.slnf_shelf.specs.Shelf.{Faults};
ghost use Rattle.slnf_run.specs.Verdicts.{left_in};
ghost use Rattle.slnf_check.specs.Given.{AreGiven, AreSized};
ghost use Rattle.slnf_top.specs.Words.{Run, Step, Load, plan_named, load_named, spelled, command_of, plain_command_of};
ghost use Rattle.slnf_top.specs.Reached.{Holds};
ghost use Rattle.slnf_top.specs.Reads.{WereInputsRead};
ghost use Rattle.slnf_top.specs.Written.{Order, IsOutcome, run_in};
ghost use Rattle.slnf_top.specs.Outcome.{Ended, ended_by};
ghost use Rattle.slnf_top.specs.Served.{IsServed};

use crate::checks::{answer, check};
use crate::forms::{CommandWords, LoadWords, PlanWords};
use crate::inputs::{Inputs, read_inputs};
use crate::loads::run_load;
use crate::outputs::write_files;
use crate::statuses::Status;
use crate::steps::{outcome_of, outcome_side_by_side, run_of};
use crate::words::{plain_command_words, run_words};
use slnf_check::{checks_tell, follows_tell};
use slnf_flight::Outcome;
use slnf_shelf::Shelf;
use slnf_store::Gate;
use std::alloc::Global;
use std::hash::RandomState;
use std::sync::Wait;
use std::thread::Threads;

/// Runs the command of the words, which don't hold the program's name, on the shelf's files, and says how it ended.
/// The store's maps are hashed with `state`, which no clause speaks of.
///
/// `run PLAN OUT IN..` does what `step` does, with the actors of each epoch side by side in threads, so that the order of
/// their accesses is any. No clause says that it returns. All other words are those of `top_plain`. The gate can hold an
/// actor between two accesses; it is for tests.
pub fn top<R: Threads + Wait + Sync, S: Shelf, G: Gate + Sync>(
    rt: &R,
    alloc: Global,
    state: RandomState,
    words: &[String],
    shelf: &mut S,
    gate: &G,
) -> Status
    ensures served { IsServed (command_of (map string_bytes words.now)) result
        (S.faults shelf.old) (S.faults shelf.new) (S.holds shelf.old) (S.holds shelf.new) }
{
    match run_words(words) {
        None => top_plain(alloc, state, words, shelf),
        Some(words) => status_of(run(rt, alloc, state, shelf, &words, gate)),
    }
}

/// The same where `run` is no command. It always returns.
///
/// `step PLAN OUT IN..` reads the plan and its 1 to 32 captures whole, the lanes 0, 1 and so on, and runs the plan
/// over them by its written schedule. It writes `OUT.0.pcap` and so on for each lane in order, then `OUT.verdicts`,
/// `OUT.journal`, and the summary line to `-`. One IN may stand twice, and an output may have an input's name.
///
/// `check PLAN OUT IN..` reads the plan, its captures and the files that a run made, `OUT.journal`, `OUT.verdicts` and
/// the output captures, and writes to `-` how many entries it accepts, or names the first rule that is broken.
/// `box PLAN OUT IN..` reads the journal alone, and writes to `-` what the one ordinary box answers to its packets.
///
/// `load NUMBER LANES PACKETS` makes a NAT's plan and a capture for each lane from the number, runs them in the same
/// way, and writes the summary line to `-` alone. It leaves no packet.
pub fn top_plain<S: Shelf>(
    alloc: Global,
    state: RandomState,
    words: &[String],
    shelf: &mut S,
) -> Status
    ensures served { IsServed (plain_command_of (map string_bytes words.now)) result
        (S.faults shelf.old) (S.faults shelf.new) (S.holds shelf.old) (S.holds shelf.new) }
{
    // The laws by which an answer is exact.
    checks_tell();
    follows_tell();
    match plain_command_words(words) {
        None => Status::Usage,
        Some(command) => run_command(alloc, state, shelf, command),
    }
}

/// Runs the command, and says how it ended.
fn run_command<S: Shelf>(
    alloc: Global,
    state: RandomState,
    shelf: &mut S,
    command: CommandWords<'_>,
) -> Status
    ensures { Ended (spelled command.entry) result
        (S.faults shelf.old) (S.faults shelf.new) (S.holds shelf.old) (S.holds shelf.new) }
{
    match command {
        CommandWords::Step(words) => status_of(step(alloc, state, shelf, &words)),
        CommandWords::Check(words) => check(alloc, state, shelf, &words),
        CommandWords::Box(words) => answer(alloc, state, shelf, &words),
        CommandWords::Load(words) => status_of(load(alloc, state, shelf, &words)),
    }
}

/// Reads the inputs, runs the plan by its schedule, and writes the run's files. Says how many packets the run leaves.
fn step<S: Shelf>(
    alloc: Global,
    state: RandomState,
    shelf: &mut S,
    words: &PlanWords<'_>,
) -> Result<u64, Status>
    ensures { Ended (Step (plan_named words.now)) (ended_by result)
        (S.faults shelf.old) (S.faults shelf.new) (S.holds shelf.old) (S.holds shelf.new) }
{
    let inputs = read_inputs(alloc, shelf, words.plan, words.captures)?;
    let outcome = outcome_of(alloc, state, &inputs.plan, inputs.captures.lanes.as_slice())?;
    write_run(alloc, shelf, words, &inputs, &outcome)
}

/// The same with the actors of each epoch side by side.
fn run<R: Threads + Wait + Sync, S: Shelf, G: Gate + Sync>(
    rt: &R,
    alloc: Global,
    state: RandomState,
    shelf: &mut S,
    words: &PlanWords<'_>,
    gate: &G,
) -> Result<u64, Status>
    ensures { Ended (Run (plan_named words.now)) (ended_by result)
        (S.faults shelf.old) (S.faults shelf.new) (S.holds shelf.old) (S.holds shelf.new) }
{
    let inputs = read_inputs(alloc, shelf, words.plan, words.captures)?;
    let lanes = inputs.captures.lanes.as_slice();
    let outcome = outcome_side_by_side(rt, alloc, state, &inputs.plan, lanes, gate)?;
    write_run(alloc, shelf, words, &inputs, &outcome)
}

/// Writes the files of the run that has this outcome. Says how many packets it leaves.
fn write_run<S: Shelf>(
    alloc: Global,
    shelf: &mut S,
    words: &PlanWords<'_>,
    inputs: &Inputs,
    outcome: &Outcome,
) -> Result<u64, Status>
    requires few { length inputs.now.captures.given ≤ 32 }
    requires given { AreGiven inputs.now.captures.given }
    requires sized { AreSized inputs.now.captures.given outcome.now.verdicts }
    requires left { outcome.now.left ≡ left_in outcome.now.verdicts }
    ensures { (order : Order) (before : Faults) (held : Holds)
        → IsOutcome order inputs.now.plan inputs.now.captures.lanes outcome.now
        → WereInputsRead (plan_named words.now) inputs.now before (S.faults shelf.old) held (S.holds shelf.old)
        → Ended (run_in order (plan_named words.now)) (ended_by result)
        before (S.faults shelf.new) held (S.holds shelf.new) }
{
    let run = run_of(alloc, words.out, inputs, outcome)?;
    write_files(shelf, run.files.as_slice())?;
    Ok(run.left)
}

/// Makes the load, runs it and writes its summary. Says how many packets the run leaves.
fn load<S: Shelf>(
    alloc: Global,
    state: RandomState,
    shelf: &mut S,
    words: &LoadWords,
) -> Result<u64, Status>
    ensures { Ended (Load (load_named words.now)) (ended_by result)
        (S.faults shelf.old) (S.faults shelf.new) (S.holds shelf.old) (S.holds shelf.new) }
{
    let run = run_load(alloc, state, words)?;
    write_files(shelf, run.files.as_slice())?;
    Ok(run.left)
}

/// How a command ended that left so many packets, or was refused.
fn status_of(ended: Result<u64, Status>) -> Status
    ensures { result ≡ ended_by ended }
{
    match ended {
        Ok(0) => Status::Ok,
        Ok(_) => Status::Left,
        Err(status) => status,
    }
}
