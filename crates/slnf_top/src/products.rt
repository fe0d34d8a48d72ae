//! What a run made, read back.
ghost use Rattle.std.specs.Prelude.{◌≡◌, ◌≤◌, ◌<◌, ◌^◌, ◌∷◌, [], length, map, OnOk, IfOk, IfErr, IfSome, string_bytes};
ghost use Rattle.slnf_top.specs.Names.{capture_name, capture_names, journal_name, verdicts_name};
ghost use Rattle.slnf_top.specs.Readings.{ProductFile, journal_file, outputs_in, products_by};
ghost use Rattle.slnf_top.specs.Inputs.{AreTexts};
ghost use Rattle.slnf_top.specs.Reads.{WerePassed, WereStopped, AreFilesOf};
ghost use Rattle.slnf_top.specs.declared.products.Product.TheVariants.{Verdicts as OfVerdicts, Output as OfOutput};

use crate::inputs::{CAPTURE_LIMIT, read_within};
use crate::names;
use crate::statuses::Status;
use slnf_base::Row;
use slnf_check::RunFiles;
use slnf_shelf::Shelf;
use std::alloc::Global;

/// Limit 5: the bytes of a journal that is read back.
const JOURNAL_LIMIT: u64 = 2_147_483_648;

/// Limit 6: the bytes of verdicts that are read back.
const VERDICTS_LIMIT: u64 = 67_108_864;

/// The kinds of files that a run makes and that are read back.
#[derive(Clone, Copy, Debug)]
pub enum Product {
    Journal,
    Verdicts,
    Output,
}

impl Product {
    ghost use Rattle.slnf_top.specs.Readings.{limit_of, most_of};

    /// The number of its limit.
    fn limit(self) -> u8
        ensures { result ≡ limit_of self }
    {
        match self {
            Product::Journal => 5,
            Product::Verdicts => 6,
            Product::Output => 2,
        }
    }

    /// How many bytes it has at most.
    fn most(self) -> u64
        ensures value { result ≡ most_of self }
        ensures fits { result < 2 ^ 32 }
    {
        match self {
            Product::Journal => JOURNAL_LIMIT,
            Product::Verdicts => VERDICTS_LIMIT,
            Product::Output => CAPTURE_LIMIT,
        }
    }
}

/// Reads all that a run made under the names that begin with `out`: the journal, the verdicts, and an output capture for
/// each of the captures, in order.
pub fn read_products<S: Shelf>(
    alloc: Global,
    shelf: &mut S,
    out: &str,
    captures: &[String],
) -> Result<RunFiles, Status>
    requires { length captures.now ≤ 32 }
    ensures read { OnOk result (WerePassed (products_by out.now (map string_bytes captures.now))
        (S.faults shelf.old) (S.faults shelf.new) (S.holds shelf.old) (S.holds shelf.new)) }
    ensures told { IfOk result (AreFilesOf out.now (map string_bytes captures.now) (S.holds shelf.old)) }
    ensures refused { IfErr result (WereStopped (products_by out.now (map string_bytes captures.now))
        (S.faults shelf.old) (S.faults shelf.new) (S.holds shelf.old) (S.holds shelf.new)) }
{
    let journal = read_journal_file(alloc, shelf, out)?;
    let verdicts = read_verdicts_file(alloc, shelf, out)?;
    let outputs = read_outputs(alloc, shelf, out, captures)?;
    Ok(RunFiles {
        journal,
        verdicts,
        outputs,
    })
}

/// Reads the journal of a run.
pub fn read_journal_file<S: Shelf>(
    alloc: Global,
    shelf: &mut S,
    out: &str,
) -> Result<Row<u8>, Status>
    ensures read { OnOk result (WerePassed (journal_file out.now ∷ [])
        (S.faults shelf.old) (S.faults shelf.new) (S.holds shelf.old) (S.holds shelf.new)) }
    ensures told { IfOk result (λ bytes. IfSome (S.holds shelf.old (journal_name out.now)) (λ held. bytes ≡ held)) }
    ensures refused { IfErr result (WereStopped (journal_file out.now ∷ [])
        (S.faults shelf.old) (S.faults shelf.new) (S.holds shelf.old) (S.holds shelf.new)) }
{
    let name = names::journal_name(alloc, out)?;
    read_product(alloc, shelf, Product::Journal, name.as_str())
}

/// Reads the verdicts of a run.
fn read_verdicts_file<S: Shelf>(alloc: Global, shelf: &mut S, out: &str) -> Result<Row<u8>, Status>
    ensures read { OnOk result (WerePassed (ProductFile OfVerdicts (verdicts_name out.now) ∷ [])
        (S.faults shelf.old) (S.faults shelf.new) (S.holds shelf.old) (S.holds shelf.new)) }
    ensures told { IfOk result (λ bytes. IfSome (S.holds shelf.old (verdicts_name out.now)) (λ held. bytes ≡ held)) }
    ensures refused { IfErr result (WereStopped (ProductFile OfVerdicts (verdicts_name out.now) ∷ [])
        (S.faults shelf.old) (S.faults shelf.new) (S.holds shelf.old) (S.holds shelf.new)) }
{
    let name = names::verdicts_name(alloc, out)?;
    read_product(alloc, shelf, Product::Verdicts, name.as_str())
}

/// Reads an output capture for each of the captures, in order.
fn read_outputs<S: Shelf>(
    alloc: Global,
    shelf: &mut S,
    out: &str,
    captures: &[String],
) -> Result<Row<Row<u8>>, Status>
    requires { length captures.now ≤ 32 }
    ensures read { OnOk result (WerePassed (outputs_in (capture_names out.now 0 (map string_bytes captures.now)))
        (S.faults shelf.old) (S.faults shelf.new) (S.holds shelf.old) (S.holds shelf.new)) }
    ensures told { IfOk result
        (AreTexts (map (S.holds shelf.old) (capture_names out.now 0 (map string_bytes captures.now)))) }
    ensures refused { IfErr result (WereStopped (outputs_in (capture_names out.now 0 (map string_bytes captures.now)))
        (S.faults shelf.old) (S.faults shelf.new) (S.holds shelf.old) (S.holds shelf.new)) }
{
    let mut outputs = Vec::new(alloc);
    for lane in 0..captures.len() {
        outputs.push(read_output(alloc, shelf, out, lane as u32)?)?;
    }
    Ok(Row::from_vec(outputs))
}

/// Reads the output capture of a lane.
fn read_output<S: Shelf>(
    alloc: Global,
    shelf: &mut S,
    out: &str,
    lane: u32,
) -> Result<Row<u8>, Status>
    ensures read { OnOk result (WerePassed (ProductFile OfOutput (capture_name out.now lane) ∷ [])
        (S.faults shelf.old) (S.faults shelf.new) (S.holds shelf.old) (S.holds shelf.new)) }
    ensures told { IfOk result (λ bytes.
        IfSome (S.holds shelf.old (capture_name out.now lane)) (λ held. bytes ≡ held)) }
    ensures refused { IfErr result (WereStopped (ProductFile OfOutput (capture_name out.now lane) ∷ [])
        (S.faults shelf.old) (S.faults shelf.new) (S.holds shelf.old) (S.holds shelf.new)) }
{
    let name = names::capture_name(alloc, out, lane)?;
    read_product(alloc, shelf, Product::Output, name.as_str())
}

/// Reads a file that a run made, within the limit of its kind.
fn read_product<S: Shelf>(
    alloc: Global,
    shelf: &mut S,
    product: Product,
    name: &str,
) -> Result<Row<u8>, Status>
    ensures read { OnOk result (WerePassed (ProductFile product name.now ∷ [])
        (S.faults shelf.old) (S.faults shelf.new) (S.holds shelf.old) (S.holds shelf.new)) }
    ensures told { IfOk result (λ bytes. IfSome (S.holds shelf.old name.now) (λ held. bytes ≡ held)) }
    ensures refused { IfErr result (WereStopped (ProductFile product name.now ∷ [])
        (S.faults shelf.old) (S.faults shelf.new) (S.holds shelf.old) (S.holds shelf.new)) }
{
    read_within(alloc, shelf, name, product.limit(), product.most())
}
