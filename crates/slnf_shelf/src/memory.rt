ghost use Rattle.std.specs.Prelude.{◌≡◌, ◌≢◌, ◌≤◌, ◌<◌, ◌+◌, ◌-◌, ◌^◌, ◌⊎◌, ◌↔◌, ◌==◌, ℕ, List, [], Option, Some, false, length, take, unwrap_or, ◌++◌, min, All, IsErrOf, IsTrue, IfOk, IfSome, OnOk, OnErr};
ghost use Rattle.slnf_shelf.specs.Shelf.{Moves, Only, Rose, SameFiles, SameOthers, Gives, set_to, with_more};
ghost use Rattle.slnf_shelf.specs.Calls.{fault_count};
ghost use Rattle.slnf_shelf.specs.Files.{find_file, held_in, KeepsOthers};
ghost use Rattle.slnf_shelf.specs.Listed.{is_listed};

use crate::calls::{Fail, Made};
use crate::faults::{Fault, note_fault};
use crate::files::{Stored, add_to_file, content_of, copy_from, put_file};
use crate::shelf::{Call, Shelf, ShelfError};
use slnf_base::{NoMemory, Row};
use std::alloc::Global;
use std::marker::Model;

/// Files in memory, of which the listed calls fail. Clauses see the files, the list, the calls made and the
/// faults.
#[derive(Debug, Drop)]
pub struct MemoryShelf {
    alloc: Global,
    files: Vec<Stored>,
    fails: Vec<Fail>,
    made: Made,
    faults: Vec<Fault>,
}

impl Model for MemoryShelf {
    ghost use Rattle.slnf_shelf.specs.Memory.{Memory};

    ghost Value = { Memory };

    ghost view = { λ shelf. record { files = shelf.files.items; fails = shelf.fails.items; made = shelf.made; faults = shelf.faults.items } };
}

impl MemoryShelf {
    ghost use Rattle.slnf_shelf.specs.Memory.{with_call, next_number, KeepsRest};

    /// A shelf with no file. Of each kind of call the calls with the listed numbers will fail.
    pub fn make(alloc: Global, fails: Vec<Fail>) -> MemoryShelf
        requires { All (λ fail. fail.count < 2 ^ 64 - 1) fails.items }
        ensures files { result.files ≡ [] }
        ensures fails { result.fails ≡ fails.items }
        ensures made { result.made ≡ record { reads = 0; begins = 0; appends = 0 } }
        ensures faults { result.faults ≡ [] }
    {
        MemoryShelf {
            alloc,
            files: Vec::new(alloc),
            fails,
            made: Made {
                reads: 0,
                begins: 0,
                appends: 0,
            },
            faults: Vec::new(alloc),
        }
    }

    /// Gives the file of this name these bytes, and makes it where there is none.
    pub fn put(&mut self, name: &str, bytes: &[u8]) -> Result<(), NoMemory>
        ensures ok { OnOk result (find_file name.now self.new.files ≡ Some bytes.now) }
        ensures others { KeepsOthers name.now self.old.files self.new.files }
        ensures err { OnErr result (self.new.files ≡ self.old.files) }
        ensures rest { KeepsRest self.old self.new }
    {
        let bytes = Vec::from_slice(self.alloc, bytes)?;
        put_file(self.alloc, &mut self.files, name, Row::from_vec(bytes))
    }

    /// Counts a call of this kind, and notes a fault where the list has it.
    fn enter(&mut self, call: Call, name: &str) -> Result<(), ShelfError>
        ensures counts { Moves (Only call name.now) (fault_count self.old.faults) (fault_count self.new.faults) }
        ensures cause { IsErrOf result ShelfError.Failed
            → Rose call name.now (fault_count self.old.faults) (fault_count self.new.faults) }
        ensures no_fault { OnOk result (fault_count self.new.faults ≡ fault_count self.old.faults) }
        ensures no_memory { IsErrOf result ShelfError.NoMemory
            → fault_count self.new.faults ≡ fault_count self.old.faults }
        ensures failed { IsErrOf result ShelfError.Failed
            → IsTrue (is_listed self.old.fails call (next_number self.old.made call)) }
        ensures passed { OnOk result (is_listed self.old.fails call (next_number self.old.made call) ≡ false) }
        ensures kept { self.new.files ≡ self.old.files }
        ensures fails { self.new.fails ≡ self.old.fails }
        ensures made { self.new.made ≡ with_call call self.old.made }
    {
        let number = self.made.count(call);
        if is_in_list(self.fails.as_slice(), call, number) {
            return Err(note_fault(self.alloc, &mut self.faults, call, name));
        }
        Ok(())
    }
}

fn is_in_list(fails: &[Fail], call: Call, number: u64) -> bool
    ensures { result ≡ is_listed fails.now call number }
{
    fails
        .iter()
        .any(|fail| fail.call == call && fail.count == number)
}

impl Shelf for MemoryShelf {
    ghost use Rattle.slnf_shelf.specs.Memory.{Memory, with_call, fails_at};

    ghost holds = { λ shelf. held_in shelf.files };

    ghost faults = { λ shelf. fault_count shelf.faults };

    fn read(&mut self, name: &str, at: u64, into: &mut [u8]) -> Result<usize, ShelfError>
        ensures counts { Moves (Only Call.Read name.now) (fault_count self.old.faults) (fault_count self.new.faults) }
        ensures cause { IsErrOf result ShelfError.Failed
            → Rose Call.Read name.now (fault_count self.old.faults) (fault_count self.new.faults) }
        ensures no_fault { OnOk result (fault_count self.new.faults ≡ fault_count self.old.faults) }
        ensures no_memory { IsErrOf result ShelfError.NoMemory
            → fault_count self.new.faults ≡ fault_count self.old.faults }
        ensures files { SameFiles (held_in self.old.files) (held_in self.new.files) }
        ensures fits { IfOk result (λ count. count ≤ length into.old) }
        ensures bytes { IfOk result (λ count. IfSome (held_in self.old.files name.now) (λ held. Gives held at into.new count)) }
        ensures end { IfOk result (λ count. IfSome (held_in self.old.files name.now) (λ held.
            (count ≡ 0) ↔ ((length into.old ≡ 0) ⊎ (length held ≤ at)))) }

        // It fails exactly where the list has this call or the file isn't there.
        ensures failed { IsErrOf result ShelfError.Failed → IsTrue (fails_at self.old Call.Read name.now) }
        ensures passed { OnOk result (fails_at self.old Call.Read name.now ≡ false) }
        ensures kept { self.new.files ≡ self.old.files }
        ensures fails { self.new.fails ≡ self.old.fails }
        ensures made { self.new.made ≡ with_call Call.Read self.old.made }
    {
        self.enter(Call::Read, name)?;
        match content_of(self.files.as_slice(), name) {
            Some(bytes) => Ok(copy_from(bytes, at, into)),
            None => Err(note_fault(self.alloc, &mut self.faults, Call::Read, name)),
        }
    }

    fn begin(&mut self, name: &str) -> Result<(), ShelfError>
        ensures counts { Moves (Only Call.Begin name.now) (fault_count self.old.faults) (fault_count self.new.faults) }
        ensures cause { IsErrOf result ShelfError.Failed
            → Rose Call.Begin name.now (fault_count self.old.faults) (fault_count self.new.faults) }
        ensures no_fault { OnOk result (fault_count self.new.faults ≡ fault_count self.old.faults) }
        ensures no_memory { IsErrOf result ShelfError.NoMemory
            → fault_count self.new.faults ≡ fault_count self.old.faults }
        ensures others { SameOthers name.now (held_in self.old.files) (held_in self.new.files) }
        ensures ok { OnOk result (held_in self.new.files name.now ≡ set_to [] (held_in self.old.files name.now)) }
        ensures err { OnErr result ((held_in self.new.files name.now ≡ held_in self.old.files name.now)
            ⊎ (held_in self.new.files name.now ≡ set_to [] (held_in self.old.files name.now))) }

        // It fails exactly where the list has this call. The file is there afterwards.
        ensures failed { IsErrOf result ShelfError.Failed → IsTrue (fails_at self.old Call.Begin name.now) }
        ensures passed { OnOk result (fails_at self.old Call.Begin name.now ≡ false) }
        ensures found { OnOk result (find_file name.now self.new.files ≡ Some []) }
        ensures rest { KeepsOthers name.now self.old.files self.new.files }
        ensures kept { OnErr result (self.new.files ≡ self.old.files) }
        ensures fails { self.new.fails ≡ self.old.fails }
        ensures made { self.new.made ≡ with_call Call.Begin self.old.made }
    {
        self.enter(Call::Begin, name)?;
        let nothing = Row::from_vec(Vec::new(self.alloc));
        put_file(self.alloc, &mut self.files, name, nothing)?;
        Ok(())
    }

    fn append(&mut self, name: &str, piece: &[u8]) -> Result<usize, ShelfError>
        ensures counts { Moves (Only Call.Append name.now) (fault_count self.old.faults) (fault_count self.new.faults) }
        ensures cause { IsErrOf result ShelfError.Failed
            → Rose Call.Append name.now (fault_count self.old.faults) (fault_count self.new.faults) }
        ensures no_fault { OnOk result (fault_count self.new.faults ≡ fault_count self.old.faults) }
        ensures no_memory { IsErrOf result ShelfError.NoMemory
            → fault_count self.new.faults ≡ fault_count self.old.faults }
        ensures others { SameOthers name.now (held_in self.old.files) (held_in self.new.files) }
        ensures fits { IfOk result (λ count. count ≤ length piece.now) }
        ensures some { IfOk result (λ count. 0 < length piece.now → 0 < count) }
        ensures ok { IfOk result (λ count. held_in self.new.files name.now ≡ with_more (take count piece.now) (held_in self.old.files name.now)) }
        ensures err { OnErr result ((count : ℕ) × (held_in self.new.files name.now ≡ with_more (take count piece.now) (held_in self.old.files name.now))) }

        // It fails exactly where the list has this call, and else takes the whole piece. The file is there
        // afterwards.
        ensures failed { IsErrOf result ShelfError.Failed → IsTrue (fails_at self.old Call.Append name.now) }
        ensures passed { OnOk result (fails_at self.old Call.Append name.now ≡ false) }
        ensures whole { IfOk result (λ count. count ≡ length piece.now) }
        ensures found { OnOk result (find_file name.now self.new.files
            ≡ Some (unwrap_or (find_file name.now self.old.files) [] ++ piece.now)) }
        ensures rest { KeepsOthers name.now self.old.files self.new.files }
        ensures kept { OnErr result (self.new.files ≡ self.old.files) }
        ensures fails { self.new.fails ≡ self.old.fails }
        ensures made { self.new.made ≡ with_call Call.Append self.old.made }
    {
        self.enter(Call::Append, name)?;
        add_to_file(self.alloc, &mut self.files, name, piece)?;
        Ok(piece.len())
    }
}
