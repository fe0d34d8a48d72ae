//! The files that a run made, checked, and what its ordinary box answers.
ghost use Rattle.std.specs.Prelude.{◌≡◌, ◌≤◌, length, List, IfOk, IfErr, OnOk};
ghost use Rattle.slnf_flight.specs.Lanes.{packet_count};
ghost use Rattle.slnf_check.specs.Given.{AreRead};
ghost use Rattle.slnf_check.specs.Checks.{IsRefusedJournal, AreRefused};
ghost use Rattle.slnf_top.specs.declared.statuses.Status.TheVariants as status;
ghost use Rattle.slnf_shelf.specs.Shelf.{Faults};
ghost use Rattle.slnf_top.specs.declared.inputs.Tally.{Tally};
ghost use Rattle.slnf_top.specs.Words.{Command, Check, Box, plan_named};
ghost use Rattle.slnf_top.specs.Readings.{inputs_of, no_tally};
ghost use Rattle.slnf_top.specs.Reached.{Holds};
ghost use Rattle.slnf_top.specs.Reads.{WereRead};
ghost use Rattle.slnf_top.specs.Checked.{BreaksBy, IsFound, TellsAccepted, TellsLines};
ghost use Rattle.slnf_top.specs.Outcome.{Ended};

use crate::forms::PlanWords;
use crate::inputs::{Inputs, read_inputs};
use crate::outputs::{File, write_files};
use crate::products::{read_journal_file, read_products};
use crate::statuses::Status;
use slnf_check::RunFiles;
use slnf_shelf::Shelf;
use std::alloc::Global;
use std::hash::RandomState;

/// Reads the plan, its captures and what a run made, and writes how many entries were accepted, or says which rule is
/// broken.
pub fn check<S: Shelf>(
    alloc: Global,
    state: RandomState,
    shelf: &mut S,
    words: &PlanWords<'_>,
) -> Status
    ensures { Ended (Check (plan_named words.now)) result
        (S.faults shelf.old) (S.faults shelf.new) (S.holds shelf.old) (S.holds shelf.new) }
{
    match accept(alloc, state, shelf, words) {
        Ok(()) => Status::Ok,
        Err(status) => status,
    }
}

/// The same, with an error where the files aren't accepted.
fn accept<S: Shelf>(
    alloc: Global,
    state: RandomState,
    shelf: &mut S,
    words: &PlanWords<'_>,
) -> Result<(), Status>
    ensures accepted { OnOk result (Ended (Check (plan_named words.now)) status.Ok
        (S.faults shelf.old) (S.faults shelf.new) (S.holds shelf.old) (S.holds shelf.new)) }
    ensures ended { IfErr result (λ ended. Ended (Check (plan_named words.now)) ended
        (S.faults shelf.old) (S.faults shelf.new) (S.holds shelf.old) (S.holds shelf.new)) }
{
    let inputs = read_inputs(alloc, shelf, words.plan, words.captures)?;
    let files = read_products(alloc, shelf, words.out, words.captures)?;
    let accepted = accepted_file(alloc, state, &inputs, &files)?;
    write_found(shelf, accepted)
}

/// The file that tells how many entries of a run's journal were accepted, or why the files aren't.
fn accepted_file(
    alloc: Global,
    state: RandomState,
    inputs: &Inputs,
    files: &RunFiles,
) -> Result<File, Status>
    requires few_lanes { length inputs.now.captures.lanes ≤ 32 }
    requires few_packets { packet_count inputs.now.captures.lanes ≤ 1048576 }
    requires read { AreRead inputs.now.captures.given inputs.now.captures.lanes }
    requires outputs { length files.now.outputs ≡ length inputs.now.captures.given }
    ensures accepted { IfOk result
        (TellsAccepted inputs.now.plan inputs.now.captures.lanes inputs.now.captures.given files.now) }
    ensures refused { IfErr result (BreaksBy
        (AreRefused inputs.now.plan inputs.now.captures.lanes inputs.now.captures.given files.now)) }
{
    let lanes = inputs.captures.lanes.as_slice();
    let given = inputs.captures.given.as_slice();
    let accepted = slnf_check::check(alloc, state, &inputs.plan, lanes, given, files)?;
    let count = accepted.entries;
    let text = format!(in alloc; "accepted entries {count}\n")?;
    let bytes = Vec::from_slice(alloc, text.as_bytes())?;
    Ok(File::of(String::from_str(alloc, "-")?, bytes))
}

/// Reads the plan, its captures and the journal of a run, and writes what the one ordinary box answers, or says which rule
/// is broken.
pub fn answer<S: Shelf>(
    alloc: Global,
    state: RandomState,
    shelf: &mut S,
    words: &PlanWords<'_>,
) -> Status
    ensures { Ended (Box (plan_named words.now)) result
        (S.faults shelf.old) (S.faults shelf.new) (S.holds shelf.old) (S.holds shelf.new) }
{
    match replay(alloc, state, shelf, words) {
        Ok(()) => Status::Ok,
        Err(status) => status,
    }
}

/// The same, with an error where the journal isn't a run's.
fn replay<S: Shelf>(
    alloc: Global,
    state: RandomState,
    shelf: &mut S,
    words: &PlanWords<'_>,
) -> Result<(), Status>
    ensures answered { OnOk result (Ended (Box (plan_named words.now)) status.Ok
        (S.faults shelf.old) (S.faults shelf.new) (S.holds shelf.old) (S.holds shelf.new)) }
    ensures ended { IfErr result (λ ended. Ended (Box (plan_named words.now)) ended
        (S.faults shelf.old) (S.faults shelf.new) (S.holds shelf.old) (S.holds shelf.new)) }
{
    let inputs = read_inputs(alloc, shelf, words.plan, words.captures)?;
    let journal = read_journal_file(alloc, shelf, words.out)?;
    let lines = lines_file(alloc, state, &inputs, journal.as_slice())?;
    write_found(shelf, lines)
}

/// Writes what was found of the files of a run, behind their reading.
fn write_found<S: Shelf>(shelf: &mut S, file: File) -> Result<(), Status>
    ensures { (command : Command) (last : Tally) (before : Faults) (held : Holds)
        → WereRead (inputs_of command) no_tally last before (S.faults shelf.old) held (S.holds shelf.old)
        → IsFound command held file
        → OnOk result (Ended command status.Ok before (S.faults shelf.new) held (S.holds shelf.new))
        × IfErr result (λ ended. Ended command ended before (S.faults shelf.new) held (S.holds shelf.new)) }
{
    write_files(shelf, &[file])
}

/// The file that tells what the one ordinary box answers to the packets of a run's journal, or why it is no run's.
fn lines_file(
    alloc: Global,
    state: RandomState,
    inputs: &Inputs,
    journal: &[u8],
) -> Result<File, Status>
    requires few_packets { packet_count inputs.now.captures.lanes ≤ 1048576 }
    ensures answered { IfOk result (TellsLines inputs.now.plan inputs.now.captures.lanes journal.now) }
    ensures refused { IfErr result
        (BreaksBy (IsRefusedJournal inputs.now.plan inputs.now.captures.lanes journal.now)) }
{
    let lanes = inputs.captures.lanes.as_slice();
    let lines = slnf_check::box_lines(alloc, state, &inputs.plan, lanes, journal)?;
    Ok(File::of(String::from_str(alloc, "-")?, lines))
}
