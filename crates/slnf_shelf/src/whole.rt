ghost use Rattle.std.specs.Prelude.{◌≡◌, ◌≤◌, ◌<◌, ◌+◌, ◌^◌, ◌⊎◌, ℕ, length, take, vec_len, IsErrOf, IfOk, IfSome, OnOk, OnErr};
ghost use Rattle.std.specs.Io.{StartsWith};
ghost use Rattle.slnf_shelf.specs.Shelf.{Moves, Only, Writes, Rose, SameFiles, SameOthers, WritesFront, WritesSome, set_to, with_more};
ghost use Rattle.slnf_shelf.specs.declared.whole.WholeError.TheVariants.{Failed as WholeFailed, NoMemory as WholeNoMemory};

use crate::shelf::{Call, Shelf, ShelfError};
use slnf_base::Row;
use std::alloc::{AllocError, AllocFailed, Global};
use std::error::Error;
use std::fmt;

/// How many bytes of a file are read at once.
const PIECE: usize = 65536;

/// Why a file wasn't read whole: it has more bytes than the limit, a read met a fault, or memory was wanting.
#[derive(Clone, Copy, Debug, PartialEq, Eq)]
pub enum WholeError {
    OverLimit,
    Failed,
    NoMemory,
}

impl fmt::Display for WholeError {
    fn fmt<W: fmt::Write>(&self, f: &mut fmt::Formatter<W>) -> fmt::Result {
        match self {
            WholeError::OverLimit => write!(f, "the file is too long"),
            WholeError::Failed => write!(f, "the file can't be read"),
            WholeError::NoMemory => write!(f, "no memory"),
        }
    }
}

impl Error for WholeError {}

impl From<ShelfError> for WholeError {
    ghost use Rattle.slnf_shelf.specs.Whole.{whole_error};

    ghost from_gives = { λ shelf error. error ≡ whole_error shelf };

    fn from(error: ShelfError) -> WholeError {
        match error {
            ShelfError::Failed => WholeError::Failed,
            ShelfError::NoMemory => WholeError::NoMemory,
        }
    }
}

impl From<AllocError> for WholeError {
    ghost from_gives = { λ _ error. error ≡ WholeNoMemory };

    fn from(_error: AllocError) -> WholeError {
        WholeError::NoMemory
    }
}

impl<T: Drop> From<AllocFailed<T>> for WholeError {
    ghost from_gives = { λ _ error. error ≡ WholeNoMemory };

    fn from(_error: AllocFailed<T>) -> WholeError {
        WholeError::NoMemory
    }
}

/// Reads a file until a read gives nothing or one byte more than the limit was read.
pub fn read_whole<S: Shelf>(
    alloc: Global,
    shelf: &mut S,
    name: &str,
    limit: u64,
) -> Result<Row<u8>, WholeError>
    requires { limit < 2 ^ 32 }
    ensures counts { Moves (Only Call.Read name.now) (S.faults shelf.old) (S.faults shelf.new) }
    ensures cause { IsErrOf result WholeError.Failed
        → Rose Call.Read name.now (S.faults shelf.old) (S.faults shelf.new) }
    ensures no_fault { OnOk result (S.faults shelf.new ≡ S.faults shelf.old) }
    ensures over_limit { IsErrOf result WholeError.OverLimit → S.faults shelf.new ≡ S.faults shelf.old }
    ensures no_memory { IsErrOf result WholeError.NoMemory → S.faults shelf.new ≡ S.faults shelf.old }
    ensures files { SameFiles (S.holds shelf.old) (S.holds shelf.new) }
    ensures fits { IfOk result (λ bytes. length bytes ≤ limit) }
    ensures bytes { IfOk result (λ bytes. IfSome (S.holds shelf.old name.now) (λ held. bytes ≡ held)) }
    ensures over { IsErrOf result WholeError.OverLimit
        → IfSome (S.holds shelf.old name.now) (λ held. limit < length held) }
{
    let mut buffer = vec![in alloc; 0u8; PIECE]?;
    read_by(alloc, shelf, name, limit, buffer.as_mut_slice())
}

/// The same, by way of a buffer.
fn read_by<S: Shelf>(
    alloc: Global,
    shelf: &mut S,
    name: &str,
    limit: u64,
    buffer: &mut [u8],
) -> Result<Row<u8>, WholeError>
    requires limit { limit < 2 ^ 32 }
    requires room { 0 < length buffer.old }
    ensures counts { Moves (Only Call.Read name.now) (S.faults shelf.old) (S.faults shelf.new) }
    ensures cause { IsErrOf result WholeError.Failed
        → Rose Call.Read name.now (S.faults shelf.old) (S.faults shelf.new) }
    ensures no_fault { OnOk result (S.faults shelf.new ≡ S.faults shelf.old) }
    ensures over_limit { IsErrOf result WholeError.OverLimit → S.faults shelf.new ≡ S.faults shelf.old }
    ensures no_memory { IsErrOf result WholeError.NoMemory → S.faults shelf.new ≡ S.faults shelf.old }
    ensures files { SameFiles (S.holds shelf.old) (S.holds shelf.new) }
    ensures fits { IfOk result (λ bytes. length bytes ≤ limit) }
    ensures bytes { IfOk result (λ bytes. IfSome (S.holds shelf.old name.now) (λ held. bytes ≡ held)) }
    ensures over { IsErrOf result WholeError.OverLimit
        → IfSome (S.holds shelf.old name.now) (λ held. limit < length held) }
{
    let most = limit as usize + 1;
    let mut bytes = Vec::new(alloc);
    while bytes.len() < most {
        let room = buffer.len().min(most - bytes.len());
        let count = read_more(shelf, name, &mut bytes, &mut buffer[..room])?;
        if count == 0 {
            return Ok(Row::from_vec(bytes));
        }
    }
    Err(WholeError::OverLimit)
}

/// Reads on once behind the bytes that were read, by way of a buffer.
fn read_more<S: Shelf>(
    shelf: &mut S,
    name: &str,
    bytes: &mut Vec<u8>,
    buffer: &mut [u8],
) -> Result<usize, ShelfError>
    requires place { vec_len bytes.old ≤ 2 ^ 32 }
    requires room { 0 < length buffer.old }
    ensures counts { Moves (Only Call.Read name.now) (S.faults shelf.old) (S.faults shelf.new) }
    ensures cause { IsErrOf result ShelfError.Failed
        → Rose Call.Read name.now (S.faults shelf.old) (S.faults shelf.new) }
    ensures no_fault { OnOk result (S.faults shelf.new ≡ S.faults shelf.old) }
    ensures no_memory { IsErrOf result ShelfError.NoMemory → S.faults shelf.new ≡ S.faults shelf.old }
    ensures files { SameFiles (S.holds shelf.old) (S.holds shelf.new) }
    ensures fits { IfOk result (λ count. count ≤ length buffer.old) }
    ensures len { IfOk result (λ count. vec_len bytes.new ≡ vec_len bytes.old + count) }
    ensures front { IfOk result (λ count. IfSome (S.holds shelf.old name.now) (λ held.
        StartsWith held bytes.old.items → StartsWith held bytes.new.items)) }
    ensures end { IfOk result (λ count. count ≡ 0 → IfSome (S.holds shelf.old name.now) (λ held.
        StartsWith held bytes.old.items → bytes.new.items ≡ held)) }
{
    let count = shelf.read(name, bytes.len() as u64, buffer)?;
    bytes.extend_from_slice(&buffer[..count])?;
    Ok(count)
}

/// Begins a file and appends the text until nothing of it rests: a text of no bytes is begun alone. After an
/// error the file holds a front of the text, or is as before, and the second only where its begin met a fault or
/// memory was wanting.
pub fn write_whole<S: Shelf>(shelf: &mut S, name: &str, text: &[u8]) -> Result<(), ShelfError>
    ensures counts { Moves (Writes name.now) (S.faults shelf.old) (S.faults shelf.new) }
    ensures cause { IsErrOf result ShelfError.Failed
        → Rose Call.Begin name.now (S.faults shelf.old) (S.faults shelf.new)
        ⊎ Rose Call.Append name.now (S.faults shelf.old) (S.faults shelf.new) }
    ensures no_fault { OnOk result (S.faults shelf.new ≡ S.faults shelf.old) }
    ensures no_memory { IsErrOf result ShelfError.NoMemory → S.faults shelf.new ≡ S.faults shelf.old }
    ensures others { SameOthers name.now (S.holds shelf.old) (S.holds shelf.new) }
    ensures ok { OnOk result (S.holds shelf.new name.now ≡ set_to text.now (S.holds shelf.old name.now)) }
    ensures err { OnErr result (WritesSome text.now (S.holds shelf.old name.now) (S.holds shelf.new name.now)) }
    ensures begun { IsErrOf result ShelfError.Failed → ¬ Rose Call.Begin name.now (S.faults shelf.old) (S.faults shelf.new)
        → WritesFront text.now (S.holds shelf.old name.now) (S.holds shelf.new name.now) }
{
    shelf.begin(name)?;
    append_whole(shelf, name, text)
}

/// Appends a text to a file until nothing of it rests. After an error the file has a front of the text
/// behind what it held.
fn append_whole<S: Shelf>(shelf: &mut S, name: &str, text: &[u8]) -> Result<(), ShelfError>
    ensures counts { Moves (Only Call.Append name.now) (S.faults shelf.old) (S.faults shelf.new) }
    ensures cause { IsErrOf result ShelfError.Failed
        → Rose Call.Append name.now (S.faults shelf.old) (S.faults shelf.new) }
    ensures no_fault { OnOk result (S.faults shelf.new ≡ S.faults shelf.old) }
    ensures no_memory { IsErrOf result ShelfError.NoMemory → S.faults shelf.new ≡ S.faults shelf.old }
    ensures others { SameOthers name.now (S.holds shelf.old) (S.holds shelf.new) }
    ensures ok { OnOk result (S.holds shelf.new name.now ≡ with_more text.now (S.holds shelf.old name.now)) }
    ensures err { OnErr result ((count : ℕ) × (S.holds shelf.new name.now
        ≡ with_more (take count text.now) (S.holds shelf.old name.now))) }
{
    let mut written = 0;
    while written < text.len() {
        written += shelf.append(name, &text[written..])?;
    }
    Ok(())
}
