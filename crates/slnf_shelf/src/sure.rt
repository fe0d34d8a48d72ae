ghost use Rattle.std.specs.Prelude.{◌≡◌, ◌≢◌, ◌≤◌, ◌<◌, ◌⊎◌, ◌↔◌, ◌++◌, ℕ, List, [], Some, length, take, unwrap_or, IsOk, IsErrOf, IsOkUnless, IfOk, IfSome, OnOk, OnErr};
ghost use Rattle.slnf_shelf.specs.Shelf.{Moves, Only, Rose, SameFiles, SameOthers, Gives, no_faults, set_to, with_more};
ghost use Rattle.slnf_shelf.specs.Files.{find_file, held_in, KeepsOthers};

use crate::files::{Stored, add_to_file, content_of, copy_from, put_file};
use crate::shelf::{Call, Shelf, ShelfError};
use slnf_base::{NoMemory, Row};
use std::alloc::Global;
use std::marker::Model;

/// Files in memory whose calls meet no fault. A file that isn't there is read as one that holds nothing.
/// Clauses see the files.
///
/// The commands don't use it. It shows that a shelf may meet no fault at all: over it no count ever rises, so that a
/// caller has no fault to expect but want of memory.
#[derive(Debug, Drop)]
pub struct SureShelf {
    alloc: Global,
    files: Vec<Stored>,
}

impl Model for SureShelf {
    ghost use Rattle.std.specs.Prelude.{List};
    ghost use Rattle.slnf_shelf.specs.declared.files.Stored.{Stored};

    ghost Value = { List Stored };

    ghost view = { λ shelf. shelf.files.items };
}

impl SureShelf {
    /// A shelf with no file.
    pub fn make(alloc: Global) -> SureShelf
        ensures { result ≡ [] }
    {
        SureShelf {
            alloc,
            files: Vec::new(alloc),
        }
    }

    /// Gives the file of this name these bytes, and makes it where there is none.
    pub fn put(&mut self, name: &str, bytes: &[u8]) -> Result<(), NoMemory>
        ensures ok { OnOk result (find_file name.now self.new ≡ Some bytes.now) }
        ensures others { KeepsOthers name.now self.old self.new }
        ensures err { OnErr result (self.new ≡ self.old) }
    {
        let bytes = Vec::from_slice(self.alloc, bytes)?;
        put_file(self.alloc, &mut self.files, name, Row::from_vec(bytes))
    }
}

impl Shelf for SureShelf {
    ghost holds = { λ files. held_in files };

    ghost faults = { λ _. no_faults };

    fn read(&mut self, name: &str, at: u64, into: &mut [u8]) -> Result<usize, ShelfError>
        ensures counts { Moves (Only Call.Read name.now) no_faults no_faults }
        ensures cause { IsErrOf result ShelfError.Failed → Rose Call.Read name.now no_faults no_faults }
        ensures no_fault { OnOk result (no_faults ≡ no_faults) }
        ensures no_memory { IsErrOf result ShelfError.NoMemory → no_faults ≡ no_faults }
        ensures files { SameFiles (held_in self.old) (held_in self.new) }
        ensures fits { IfOk result (λ count. count ≤ length into.old) }
        ensures bytes { IfOk result (λ count. IfSome (held_in self.old name.now) (λ held. Gives held at into.new count)) }
        ensures end { IfOk result (λ count. IfSome (held_in self.old name.now) (λ held.
            (count ≡ 0) ↔ ((length into.old ≡ 0) ⊎ (length held ≤ at)))) }

        // It always answers.
        ensures sure { IsOk result }
        ensures kept { self.new ≡ self.old }
    {
        match content_of(self.files.as_slice(), name) {
            Some(bytes) => Ok(copy_from(bytes, at, into)),
            None => Ok(0),
        }
    }

    fn begin(&mut self, name: &str) -> Result<(), ShelfError>
        ensures counts { Moves (Only Call.Begin name.now) no_faults no_faults }
        ensures cause { IsErrOf result ShelfError.Failed → Rose Call.Begin name.now no_faults no_faults }
        ensures no_fault { OnOk result (no_faults ≡ no_faults) }
        ensures no_memory { IsErrOf result ShelfError.NoMemory → no_faults ≡ no_faults }
        ensures others { SameOthers name.now (held_in self.old) (held_in self.new) }
        ensures ok { OnOk result (held_in self.new name.now ≡ set_to [] (held_in self.old name.now)) }
        ensures err { OnErr result ((held_in self.new name.now ≡ held_in self.old name.now)
            ⊎ (held_in self.new name.now ≡ set_to [] (held_in self.old name.now))) }

        // It meets no fault. The file is there afterwards.
        ensures sure { IsOkUnless result ShelfError.NoMemory }
        ensures found { OnOk result (find_file name.now self.new ≡ Some []) }
        ensures rest { KeepsOthers name.now self.old self.new }
        ensures kept { OnErr result (self.new ≡ self.old) }
    {
        let nothing = Row::from_vec(Vec::new(self.alloc));
        put_file(self.alloc, &mut self.files, name, nothing)?;
        Ok(())
    }

    fn append(&mut self, name: &str, piece: &[u8]) -> Result<usize, ShelfError>
        ensures counts { Moves (Only Call.Append name.now) no_faults no_faults }
        ensures cause { IsErrOf result ShelfError.Failed → Rose Call.Append name.now no_faults no_faults }
        ensures no_fault { OnOk result (no_faults ≡ no_faults) }
        ensures no_memory { IsErrOf result ShelfError.NoMemory → no_faults ≡ no_faults }
        ensures others { SameOthers name.now (held_in self.old) (held_in self.new) }
        ensures fits { IfOk result (λ count. count ≤ length piece.now) }
        ensures some { IfOk result (λ count. 0 < length piece.now → 0 < count) }
        ensures ok { IfOk result (λ count. held_in self.new name.now ≡ with_more (take count piece.now) (held_in self.old name.now)) }
        ensures err { OnErr result ((count : ℕ) × (held_in self.new name.now ≡ with_more (take count piece.now) (held_in self.old name.now))) }

        // It meets no fault, and takes the whole piece. The file is there afterwards.
        ensures sure { IsOkUnless result ShelfError.NoMemory }
        ensures whole { IfOk result (λ count. count ≡ length piece.now) }
        ensures found { OnOk result (find_file name.now self.new ≡ Some (unwrap_or (find_file name.now self.old) [] ++ piece.now)) }
        ensures rest { KeepsOthers name.now self.old self.new }
        ensures kept { OnErr result (self.new ≡ self.old) }
    {
        add_to_file(self.alloc, &mut self.files, name, piece)?;
        Ok(piece.len())
    }
}
