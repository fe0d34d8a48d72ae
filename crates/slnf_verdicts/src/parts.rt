ghost use Rattle.std.specs.Prelude.{◌≡◌, ◌==◌, ◌<◌, ℕ, length, IfOk, OnOk};
ghost use Rattle.std.specs.List.{list_all};
ghost use Rattle.slnf_run.specs.Parts.{part_of};
ghost use Rattle.slnf_verdicts.specs.Parts.{part_in};
ghost use Rattle.slnf_verdicts.specs.Tables.{lists, list_at};

use slnf_access::Entry;
use slnf_base::NoMemory;
use std::alloc::Global;

/// The entries of a journal by their incarnations: all of incarnation 0, or by number.
#[derive(Debug, Drop)]
pub(crate) enum Parts<'a> {
    Alone(&'a [Entry]),
    Each(Vec<Vec<Entry>>),
}

/// Adds empty parts until the incarnation has one.
fn reach(alloc: Global, parts: &mut Vec<Vec<Entry>>, incarnation: usize) -> Result<(), NoMemory>
    ensures inside { OnOk result (incarnation < length parts.new.items) }
    ensures same { OnOk result ((i : ℕ) → list_at (lists parts.new.items) i ≡ list_at (lists parts.old.items) i) }
{
    while parts.len() <= incarnation {
        parts.push(Vec::new(alloc))?;
    }
    Ok(())
}

/// The entries of each incarnation, in order, by its number.
fn each_part(alloc: Global, journal: &[Entry]) -> Result<Vec<Vec<Entry>>, NoMemory>
    ensures { IfOk result (λ parts. (i : ℕ) → list_at (lists parts.items) i ≡ part_of i journal.now) }
{
    let mut parts = Vec::new(alloc);
    for entry in journal {
        let incarnation = entry.incarnation as usize;
        reach(alloc, &mut parts, incarnation)?;
        let part = &mut parts[incarnation];
        part.push(*entry)?;
    }
    Ok(parts)
}

/// Whether all entries are of incarnation 0.
fn is_alone(journal: &[Entry]) -> bool
    ensures { result ≡ list_all (λ e. e.incarnation == 0) journal.now }
{
    journal.iter().all(|entry| entry.incarnation == 0)
}

/// The entries of each incarnation, in order. Those of a plan's only actor aren't copied.
pub(crate) fn parts_of(alloc: Global, journal: &[Entry]) -> Result<Parts<'_>, NoMemory>
    ensures { IfOk result (λ parts. (i : ℕ) → part_in parts i ≡ part_of i journal.now) }
{
    if is_alone(journal) {
        return Ok(Parts::Alone(journal));
    }
    Ok(Parts::Each(each_part(alloc, journal)?))
}

/// The part of an incarnation. One without an entry has none.
pub(crate) fn part_at<'a>(parts: &'a Parts<'_>, incarnation: usize) -> &'a [Entry]
    ensures { result.now ≡ part_in parts.now incarnation }
{
    match parts {
        Parts::Alone(journal) => { if incarnation == 0 { journal } else { &[] } }
        Parts::Each(parts) => match parts.get(incarnation) {
            Some(part) => part.as_slice(),
            None => &[],
        },
    }
}
