ghost use Rattle.std.specs.Prelude.{◌≡◌, ◌⊎◌, ◌↔◌, ◌≤◌, ◌++◌, [], length, position, unwrap_or, OnOk, OnErr};
ghost use Rattle.std.specs.Str.{bytes_eq};
ghost use Rattle.std.specs.Option.{option_copied};
ghost use Rattle.slnf_shelf.specs.Shelf.{Gives};
ghost use Rattle.slnf_shelf.specs.Files.{find_file, KeepsOthers};

use slnf_base::{NoMemory, Row, Text};
use std::alloc::Global;
use std::mem;

/// A file in memory.
#[derive(Debug, Drop)]
pub struct Stored {
    pub name: Text,
    pub bytes: Row<u8>,
}

/// The bytes of the file of this name.
pub fn content_of<'a>(files: &'a [Stored], name: &str) -> Option<&'a [u8]>
    ensures { option_copied result ≡ find_file name.now files.now }
{
    let place = place_of(files, name)?;
    Some(files[place].bytes.as_slice())
}

fn place_of(files: &[Stored], name: &str) -> Option<usize>
    ensures { result ≡ position (λ file. bytes_eq file.name name.now) files.now }
{
    files.iter().position(|file| file.name.as_str() == name)
}

/// Copies bytes from the place `at` on to the front of `into`, as many as there are and fit.
pub fn copy_from(bytes: &[u8], at: u64, into: &mut [u8]) -> usize
    ensures fits { result ≤ length into.old }
    ensures bytes { Gives bytes.now at into.new result }
    ensures end { (result ≡ 0) ↔ ((length into.old ≡ 0) ⊎ (length bytes.now ≤ at)) }
{
    let start = at.min(bytes.len() as u64) as usize;
    let count = into.len().min(bytes.len() - start);
    into[..count].copy_from_slice(&bytes[start..start + count]);
    count
}

/// Gives the file of this name these bytes, and makes it where there is none.
pub fn put_file(
    alloc: Global,
    files: &mut Vec<Stored>,
    name: &str,
    bytes: Row<u8>,
) -> Result<(), NoMemory>
    ensures ok { OnOk result (find_file name.now files.new.items ≡ Some bytes) }
    ensures others { KeepsOthers name.now files.old.items files.new.items }
    ensures err { OnErr result (files.new.items ≡ files.old.items) }
{
    match place_of(files.as_slice(), name) {
        Some(place) => files[place].bytes = bytes,
        None => {
            let name = Text::from_string(String::from_str(alloc, name)?);
            files.push(Stored { name, bytes })?;
        }
    }
    Ok(())
}

/// Adds the piece to the file of this name, and makes it where there is none.
pub fn add_to_file(
    alloc: Global,
    files: &mut Vec<Stored>,
    name: &str,
    piece: &[u8],
) -> Result<(), NoMemory>
    ensures ok { OnOk result (find_file name.now files.new.items
        ≡ Some (unwrap_or (find_file name.now files.old.items) [] ++ piece.now)) }
    ensures others { KeepsOthers name.now files.old.items files.new.items }
    ensures err { OnErr result (files.new.items ≡ files.old.items) }
{
    match place_of(files.as_slice(), name) {
        Some(place) => add_bytes(alloc, &mut files[place].bytes, piece),
        None => {
            let bytes = Vec::from_slice(alloc, piece)?;
            put_file(alloc, files, name, Row::from_vec(bytes))
        }
    }
}

fn add_bytes(alloc: Global, bytes: &mut Row<u8>, piece: &[u8]) -> Result<(), NoMemory>
    ensures ok { OnOk result (bytes.new ≡ bytes.old ++ piece.now) }
    ensures err { OnErr result (bytes.new ≡ bytes.old) }
{
    let mut items = mem::replace(bytes, Row::from_vec(Vec::new(alloc))).into_vec();
    let added = items.extend_from_slice(piece);
    *bytes = Row::from_vec(items);
    added?;
    Ok(())
}
