ghost use Rattle.std.specs.Prelude.{◌≡◌, ◌≤◌, ◌⊎◌, ℕ, List, IfOk, OnOk, IfErr, length, string_bytes};
ghost use Rattle.slnf_shelf.specs.Shelf.{Moves, Rose, SameOthers, Writes};
ghost use Rattle.slnf_run.specs.Verdicts.{left_in};
ghost use Rattle.slnf_flight.specs.Output.{output_of};
ghost use Rattle.slnf_top.specs.Names.{capture_name};
ghost use Rattle.slnf_check.specs.Given.{IsGiven, AreGiven, AreSized};
ghost use Rattle.slnf_top.specs.Files.{capture_files, files_of, summary_file, names_of, IsNamed, WritesFiles, Wrote, WroteOne};
ghost use Rattle.slnf_top.specs.Effects.{RoseAt};
ghost use Rattle.slnf_top.specs.Refused.{StopsWriting, StaysUnless, StopsWithin, StopsAt};

use crate::names;
use crate::statuses::Status;
use slnf_base::{NoMemory, Row, Text, Verdict};
use slnf_check::Given;
use slnf_flight::{Outcome, write_output};
use slnf_journal::{write_journal, write_summary, write_verdicts};
use slnf_shelf::{Call, Shelf, ShelfError, write_whole};
use std::alloc::Global;

/// A file that a run writes: its name and what it is to hold.
#[derive(Debug, Drop)]
pub struct File {
    pub name: Text,
    pub text: Row<u8>,
}

impl File {
    /// The file of a name and a text.
    pub(crate) fn of(name: String, text: Vec<u8>) -> File
        ensures { result ≡ record { name = string_bytes name; text = text.items } }
    {
        File {
            name: Text::from_string(name),
            text: Row::from_vec(text),
        }
    }
}

/// The files of a run, in the order in which they are written.
pub fn files_of(
    alloc: Global,
    out: &str,
    given: &[Given],
    outcome: &Outcome,
) -> Result<Vec<File>, NoMemory>
    requires lanes { length given.now ≤ 32 }
    requires given { AreGiven given.now }
    requires sized { AreSized given.now outcome.now.verdicts }
    requires left { outcome.now.left ≡ left_in outcome.now.verdicts }
    ensures { IfOk result (λ files. files.items
        ≡ files_of out.now given.now outcome.now.verdicts outcome.now.journal) }
{
    let lanes = outcome.verdicts.as_slice();
    let mut files = capture_files(alloc, out, given, lanes)?;
    let verdicts = write_verdicts(alloc, lanes)?;
    files.push(File::of(names::verdicts_name(alloc, out)?, verdicts))?;
    let journal = write_journal(alloc, outcome.journal.as_slice())?;
    files.push(File::of(names::journal_name(alloc, out)?, journal))?;
    files.push(summary_file(alloc, outcome)?)?;
    Ok(files)
}

/// The summary's file.
pub fn summary_file(alloc: Global, outcome: &Outcome) -> Result<File, NoMemory>
    requires left { outcome.now.left ≡ left_in outcome.now.verdicts }
    ensures { IfOk result (λ file. file ≡ summary_file outcome.now.verdicts outcome.now.journal) }
{
    let summary = write_summary(alloc, outcome)?;
    Ok(File::of(String::from_str(alloc, "-")?, summary))
}

/// The output captures of the lanes, in order.
fn capture_files(
    alloc: Global,
    out: &str,
    given: &[Given],
    lanes: &[Row<Verdict>],
) -> Result<Vec<File>, NoMemory>
    requires few { length given.now ≤ 32 }
    requires given { AreGiven given.now }
    requires sized { AreSized given.now lanes.now }
    ensures { IfOk result (λ files. files.items ≡ capture_files out.now 0 given.now lanes.now) }
{
    let mut files = Vec::new(alloc);
    for (lane, one) in given.iter().enumerate() {
        let file = capture_file(alloc, out, lane as u32, one, lanes[lane].as_slice())?;
        files.push(file)?;
    }
    Ok(files)
}

/// The output capture of a lane.
fn capture_file(
    alloc: Global,
    out: &str,
    lane: u32,
    given: &Given,
    verdicts: &[Verdict],
) -> Result<File, NoMemory>
    requires given { IsGiven given.now }
    requires sized { length verdicts.now ≡ length given.now.capture.packets }
    ensures { IfOk result (λ file. file ≡ record {
      name = capture_name out.now lane;
      text = output_of given.now.bytes given.now.capture verdicts.now;
    }) }
{
    let text = write_output(alloc, given.bytes.as_slice(), &given.capture, verdicts)?;
    Ok(File::of(names::capture_name(alloc, out, lane)?, text))
}

/// Writes these files one after another. After a fault those before the one that was being written stand whole, and
/// those behind it are as before.
pub fn write_files<S: Shelf>(shelf: &mut S, files: &[File]) -> Result<(), Status>
    ensures counts { Moves (WritesFiles files.now) (S.faults shelf.old) (S.faults shelf.new) }
    ensures no_fault { OnOk result (S.faults shelf.new ≡ S.faults shelf.old) }
    ensures still { IfErr result (StaysUnless Status.WriteFault (S.faults shelf.old) (S.faults shelf.new)) }
    ensures others { (other : List ℕ) → ¬ IsNamed files.now other
        → S.holds shelf.new other ≡ S.holds shelf.old other }
    ensures written { OnOk result (Wrote files.now (S.holds shelf.old) (S.holds shelf.new)) }
    ensures stopped { IfErr result
        (StopsWriting (RoseAt (names_of files.now) (S.faults shelf.old) (S.faults shelf.new))) }
    ensures at_one { IfErr result (StopsAt files.now (S.faults shelf.old) (S.faults shelf.new)
        (S.holds shelf.old) (S.holds shelf.new)) }
{
    for file in files {
        write_file(shelf, file)?;
    }
    Ok(())
}

/// Writes one file whole.
fn write_file<S: Shelf>(shelf: &mut S, file: &File) -> Result<(), Status>
    ensures counts { Moves (Writes file.now.name) (S.faults shelf.old) (S.faults shelf.new) }
    ensures no_fault { OnOk result (S.faults shelf.new ≡ S.faults shelf.old) }
    ensures still { IfErr result (StaysUnless Status.WriteFault (S.faults shelf.old) (S.faults shelf.new)) }
    ensures others { SameOthers file.now.name (S.holds shelf.old) (S.holds shelf.new) }
    ensures written { OnOk result (WroteOne file.now (S.holds shelf.old) (S.holds shelf.new)) }
    ensures stopped { IfErr result (StopsWriting
        (Rose Call.Begin file.now.name (S.faults shelf.old) (S.faults shelf.new)
        ⊎ Rose Call.Append file.now.name (S.faults shelf.old) (S.faults shelf.new))) }
    ensures within { IfErr result (StopsWithin file.now (S.faults shelf.old) (S.faults shelf.new)
        (S.holds shelf.old) (S.holds shelf.new)) }
{
    match write_whole(shelf, file.name.as_str(), file.text.as_slice()) {
        Ok(()) => Ok(()),
        Err(ShelfError::Failed) => Err(Status::WriteFault),
        Err(ShelfError::NoMemory) => Err(Status::NoMemory),
    }
}
