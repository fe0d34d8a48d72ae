ghost use Rattle.std.specs.Prelude.{◌≡◌, ◌≤◌, ◌<◌, ◌^◌, ◌⊎◌, ◌↔◌, ℕ, List, [], Option, length, take, IsErrOf, IfOk, IfSome, OnOk, OnErr};

use slnf_base::NoMemory;
use std::alloc::{AllocError, AllocFailed};
use std::error::Error;
use std::fmt;

/// The kinds of calls of a shelf.
#[derive(Clone, Copy, Debug, PartialEq, Eq)]
pub enum Call {
    Read,
    Begin,
    Append,
}

/// A call of a shelf met a fault, or memory was wanting.
#[derive(Clone, Copy, Debug, PartialEq, Eq)]
pub enum ShelfError {
    Failed,
    NoMemory,
}

impl fmt::Display for ShelfError {
    fn fmt<W: fmt::Write>(&self, f: &mut fmt::Formatter<W>) -> fmt::Result {
        match self {
            ShelfError::Failed => write!(f, "the file can't be read or written"),
            ShelfError::NoMemory => write!(f, "no memory"),
        }
    }
}

impl Error for ShelfError {}

impl From<AllocError> for ShelfError {
    ghost use Rattle.slnf_shelf.specs.declared.shelf.ShelfError.TheVariants.{NoMemory};

    ghost from_gives = { λ _ error. error ≡ NoMemory };

    fn from(_error: AllocError) -> ShelfError {
        ShelfError::NoMemory
    }
}

impl<T: Drop> From<AllocFailed<T>> for ShelfError {
    ghost use Rattle.slnf_shelf.specs.declared.shelf.ShelfError.TheVariants.{NoMemory};

    ghost from_gives = { λ _ error. error ≡ NoMemory };

    fn from(_error: AllocFailed<T>) -> ShelfError {
        ShelfError::NoMemory
    }
}

/// Files by name. A name is a text, which clauses see as its bytes.
///
/// A shelf may tell what stands under a name, and it counts the faults of each kind of call at each name.
/// Where it tells nothing, the clauses on bytes say nothing.
pub trait Shelf {
    ghost use Rattle.slnf_shelf.specs.declared.shelf.Call.{Call};
    ghost use Rattle.slnf_shelf.specs.Shelf.{Moves, Only, Rose, SameFiles, SameOthers, Gives, set_to, with_more};

    // The bytes under a name, or `None` where the shelf doesn't tell them.
    ghost holds: { Self → List ℕ → Option (List ℕ) };

    // How many faults calls of this kind met at this name.
    ghost faults: { Self → Call → List ℕ → ℕ };

    /// Reads bytes from the place `at` on to the front of `into`, and answers how many. None are read only
    /// where the file ends or `into` is empty. What `into` holds behind them may be anything.
    fn read(&mut self, name: &str, at: u64, into: &mut [u8]) -> Result<usize, ShelfError>
        requires { at ≤ 2 ^ 32 }
        ensures counts { Moves (Only Call.Read name.now) (faults self.old) (faults self.new) }
        ensures cause { IsErrOf result ShelfError.Failed → Rose Call.Read name.now (faults self.old) (faults self.new) }
        ensures no_fault { OnOk result (faults self.new ≡ faults self.old) }
        ensures no_memory { IsErrOf result ShelfError.NoMemory → faults self.new ≡ faults self.old }
        ensures files { SameFiles (holds self.old) (holds self.new) }
        ensures fits { IfOk result (λ count. count ≤ length into.old) }
        ensures bytes { IfOk result (λ count. IfSome (holds self.old name.now) (λ held. Gives held at into.new count)) }
        ensures end { IfOk result (λ count. IfSome (holds self.old name.now) (λ held.
            (count ≡ 0) ↔ ((length into.old ≡ 0) ⊎ (length held ≤ at)))) };

    /// Makes the file hold nothing, and makes it where there is none. After an error it is as before or
    /// empty.
    fn begin(&mut self, name: &str) -> Result<(), ShelfError>
        ensures counts { Moves (Only Call.Begin name.now) (faults self.old) (faults self.new) }
        ensures cause { IsErrOf result ShelfError.Failed → Rose Call.Begin name.now (faults self.old) (faults self.new) }
        ensures no_fault { OnOk result (faults self.new ≡ faults self.old) }
        ensures no_memory { IsErrOf result ShelfError.NoMemory → faults self.new ≡ faults self.old }
        ensures others { SameOthers name.now (holds self.old) (holds self.new) }
        ensures ok { OnOk result (holds self.new name.now ≡ set_to [] (holds self.old name.now)) }
        ensures err { OnErr result ((holds self.new name.now ≡ holds self.old name.now)
            ⊎ (holds self.new name.now ≡ set_to [] (holds self.old name.now))) };

    /// Adds bytes from the front of the piece to the end of the file, which is made where there is none, and
    /// answers how many: 1 or more of a piece that isn't empty. After an error some of the piece may
    /// have been added.
    fn append(&mut self, name: &str, piece: &[u8]) -> Result<usize, ShelfError>
        ensures counts { Moves (Only Call.Append name.now) (faults self.old) (faults self.new) }
        ensures cause { IsErrOf result ShelfError.Failed → Rose Call.Append name.now (faults self.old) (faults self.new) }
        ensures no_fault { OnOk result (faults self.new ≡ faults self.old) }
        ensures no_memory { IsErrOf result ShelfError.NoMemory → faults self.new ≡ faults self.old }
        ensures others { SameOthers name.now (holds self.old) (holds self.new) }
        ensures fits { IfOk result (λ count. count ≤ length piece.now) }
        ensures some { IfOk result (λ count. 0 < length piece.now → 0 < count) }
        ensures ok { IfOk result (λ count. holds self.new name.now ≡ with_more (take count piece.now) (holds self.old name.now)) }
        ensures err { OnErr result ((count : ℕ) × (holds self.new name.now ≡ with_more (take count piece.now) (holds self.old name.now))) };
}

impl From<NoMemory> for ShelfError {
    ghost use Rattle.slnf_shelf.specs.declared.shelf.ShelfError.TheVariants.{NoMemory as WantsMemory};

    ghost from_gives = { λ _ error. error ≡ WantsMemory };

    fn from(_error: NoMemory) -> ShelfError {
        ShelfError::NoMemory
    }
}
