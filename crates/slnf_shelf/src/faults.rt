ghost use Rattle.std.specs.Prelude.{◌≡◌, [], ◌∷◌, ◌++◌, OnOk, OnErr};
ghost use Rattle.slnf_shelf.specs.Shelf.{Moves, Only, Rose};
ghost use Rattle.slnf_shelf.specs.Calls.{fault_count};

use crate::shelf::{Call, ShelfError};
use slnf_base::{NoMemory, Text};
use std::alloc::Global;

/// A fault that a call of this kind met at this name.
#[derive(Debug, Drop)]
pub struct Fault {
    pub call: Call,
    pub name: Text,
}

/// Notes a fault, and gives the error of its call: want of memory where there is no room for the note.
pub fn note_fault(alloc: Global, faults: &mut Vec<Fault>, call: Call, name: &str) -> ShelfError
    ensures counts { Moves (Only call name.now) (fault_count faults.old.items) (fault_count faults.new.items) }
    ensures cause { result ≡ ShelfError.Failed
        → Rose call name.now (fault_count faults.old.items) (fault_count faults.new.items) }
    ensures no_memory { result ≡ ShelfError.NoMemory
        → fault_count faults.new.items ≡ fault_count faults.old.items }
{
    match add_fault(alloc, faults, call, name) {
        Ok(()) => ShelfError::Failed,
        Err(NoMemory) => ShelfError::NoMemory,
    }
}

fn add_fault(alloc: Global, faults: &mut Vec<Fault>, call: Call, name: &str) -> Result<(), NoMemory>
    ensures ok { OnOk result (faults.new.items ≡ faults.old.items ++ record { call = call; name = name.now } ∷ []) }
    ensures err { OnErr result (faults.new.items ≡ faults.old.items) }
{
    let name = Text::from_string(String::from_str(alloc, name)?);
    faults.push(Fault { call, name })?;
    Ok(())
}
