ghost use Rattle.std.specs.Prelude.{◌≡◌, ◌≤◌, None, [], length, IfOk};
ghost use Rattle.slnf_shelf.specs.Calls.{fault_count};

use crate::faults::{Fault, note_fault};
use crate::shelf::{Call, Shelf, ShelfError};
use std::alloc::Global;
use std::fs::{File, OpenOptions};
use std::io::{ErrorKind, Print, Read, Seek, SeekFrom, Write};
use std::marker::Model;
use std::rt::Files;
use std::{fs, io};

/// The name of standard output, which can't be read.
const STANDARD_OUTPUT: &str = "-";

/// The files of the runtime, and standard output under the name `-`. It tells no content. Clauses see the
/// faults that were met so far.
#[derive(Drop)]
pub struct FileShelf<'a, R: Files + Print> {
    rt: &'a R,
    alloc: Global,
    faults: Vec<Fault>,
}

impl<'a, R: Files + Print> Model for FileShelf<'a, R> {
    ghost use Rattle.std.specs.Prelude.{List};
    ghost use Rattle.slnf_shelf.specs.declared.faults.Fault.{Fault};

    ghost Value = { List Fault };

    ghost view = { λ shelf. shelf.faults.items };
}

impl<'a, R: Files + Print> FileShelf<'a, R> {
    /// A shelf that met no fault so far.
    pub fn make(rt: &'a R, alloc: Global) -> FileShelf<'a, R>
        ensures { result ≡ [] }
    {
        FileShelf {
            rt,
            alloc,
            faults: Vec::new(alloc),
        }
    }
}

impl<'a, R: Files + Print> Shelf for FileShelf<'a, R> {
    ghost holds = { λ _ _. None };

    ghost faults = { λ faults. fault_count faults };

    fn read(&mut self, name: &str, at: u64, into: &mut [u8]) -> Result<usize, ShelfError> {
        match read_file(self.rt, name, at, into) {
            Ok(count) => Ok(count),
            Err(_) => Err(note_fault(self.alloc, &mut self.faults, Call::Read, name)),
        }
    }

    fn begin(&mut self, name: &str) -> Result<(), ShelfError> {
        match begin_file(self.rt, name) {
            Ok(()) => Ok(()),
            Err(_) => Err(note_fault(self.alloc, &mut self.faults, Call::Begin, name)),
        }
    }

    fn append(&mut self, name: &str, piece: &[u8]) -> Result<usize, ShelfError> {
        match append_file(self.rt, name, piece) {
            Ok(()) => Ok(piece.len()),
            Err(_) => Err(note_fault(self.alloc, &mut self.faults, Call::Append, name)),
        }
    }
}

fn read_file<R: Files>(rt: &R, name: &str, at: u64, into: &mut [u8]) -> io::Result<usize>
    ensures { IfOk result (λ count. count ≤ length into.old) }
{
    if name == STANDARD_OUTPUT {
        return Err(io::Error::from(ErrorKind::Unsupported));
    }
    let mut file = File::open(rt, name)?;
    let _ = file.seek(SeekFrom::Start(at))?;
    fill_from(&mut file, into)
}

/// Reads until the buffer is full or there is no more.
fn fill_from<T: Read>(reader: &mut T, into: &mut [u8]) -> io::Result<usize>
    ensures { IfOk result (λ count. count ≤ length into.old) }
{
    let mut filled = 0;
    while filled < into.len() {
        let count = reader.read(&mut into[filled..])?;
        if count == 0 {
            break;
        }
        filled += count;
    }
    Ok(filled)
}

fn begin_file<R: Files>(rt: &R, name: &str) -> io::Result<()> {
    if name != STANDARD_OUTPUT {
        let _ = fs::create(rt, name)?;
    }
    Ok(())
}

fn append_file<R: Files + Print>(rt: &R, name: &str, piece: &[u8]) -> io::Result<()> {
    if name == STANDARD_OUTPUT {
        return write_to(&mut io::writer(rt), piece);
    }
    let mut file = OpenOptions::new().append(true).create(true).open(rt, name)?;
    write_to(&mut file, piece)
}

/// Writes the whole piece. A write of no bytes is an error.
fn write_to<W: Write>(writer: &mut W, piece: &[u8]) -> io::Result<()> {
    let mut written = 0;
    while written < piece.len() {
        let count = writer.write(&piece[written..])?;
        if count == 0 {
            return Err(io::Error::from(ErrorKind::WriteZero));
        }
        written += count;
    }
    writer.flush()
}

#[cfg(test)]
mod tests {
    use super::*;

    /// Gives and takes two bytes at a time, and fails after `left` calls.
    #[derive(Drop)]
    struct Slow {
        left: u8,
    }

    impl Slow {
        fn answer(&mut self, length: usize) -> io::Result<usize>
            ensures { IfOk result (λ count. count ≤ length) }
        {
            if self.left == 0 {
                return Err(io::Error::from(ErrorKind::Other));
            }
            self.left -= 1;
            Ok(length.min(2))
        }
    }

    impl Read for Slow {
        fn read(&mut self, buf: &mut [u8]) -> io::Result<usize> {
            self.answer(buf.len())
        }
    }

    impl Write for Slow {
        fn write(&mut self, buf: &[u8]) -> io::Result<usize> {
            self.answer(buf.len())
        }

        fn flush(&mut self) -> io::Result<()> {
            Ok(())
        }
    }

    #[test]
    fn short_reads_and_writes_go_on_and_an_error_stands(rt: HostRuntime) {
        let mut buffer = [0; 7];
        assert!(rt; matches!(fill_from(&mut Slow { left: 4 }, &mut buffer), Ok(7)));
        assert!(rt; fill_from(&mut Slow { left: 3 }, &mut buffer).is_err());
        assert!(rt; write_to(&mut Slow { left: 4 }, &buffer).is_ok());
        assert!(rt; write_to(&mut Slow { left: 3 }, &buffer).is_err());
    }
}
