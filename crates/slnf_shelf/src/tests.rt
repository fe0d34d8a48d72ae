use crate::{
    Call, Fail, FileShelf, MemoryShelf, Shelf, ShelfError, SureShelf, WholeError, read_whole,
    write_whole,
};
use std::alloc::Global;
use std::fs;
use std::rt::Files;
use std::test::Fail as TestError;

/// Whether the file has this text, of at most 200,000 bytes.
fn has<S: Shelf>(alloc: Global, shelf: &mut S, name: &str, text: &[u8]) -> bool {
    match read_whole(alloc, shelf, name, 200_000) {
        Ok(bytes) => bytes.as_slice() == text,
        Err(_) => false,
    }
}

fn is_written<S: Shelf>(alloc: Global, shelf: &mut S, name: &str, text: &[u8]) -> bool {
    write_whole(shelf, name, text).is_ok() && has(alloc, shelf, name, text)
}

fn is_over<S: Shelf>(alloc: Global, shelf: &mut S, name: &str, limit: u8) -> bool {
    let read = read_whole(alloc, shelf, name, u64::from(limit));
    matches!(read, Err(WholeError::OverLimit))
}

fn fails<S: Shelf>(shelf: &mut S, call: Call, name: &str) -> bool {
    let failed = match call {
        Call::Read => shelf.read(name, 0, &mut [0; 4]).map(|_| ()),
        Call::Begin => shelf.begin(name),
        Call::Append => shelf.append(name, b"piece").map(|_| ()),
    };
    matches!(failed, Err(ShelfError::Failed))
}

#[test]
fn a_listed_append_fails_once(rt: HostRuntime) -> Result<(), TestError> {
    let alloc = rt.alloc();
    let call = Call::Append;
    let mut shelf = MemoryShelf::make(alloc, [Fail { call, count: 2 }].to_vec(alloc)?);
    shelf.put("plan", b"four")?;
    assert!(rt; has(alloc, &mut shelf, "plan", b"four"));
    assert!(rt; is_written(alloc, &mut shelf, "first", b"1"));
    assert!(rt; write_whole(&mut shelf, "second", b"2").is_err());
    assert!(rt; has(alloc, &mut shelf, "second", b""));
    assert!(rt; fails(&mut shelf, Call::Read, "third"));
    assert!(rt; is_written(alloc, &mut shelf, "third", b"3"));
    Ok(())
}

#[test]
fn a_sure_shelf_reads_a_missing_file_as_empty(rt: HostRuntime) -> Result<(), TestError> {
    let alloc = rt.alloc();
    let mut shelf = SureShelf::make(alloc);
    shelf.put("plan", b"four")?;
    for (name, text) in [("plan", b"four".as_slice()), ("journal", b"")] {
        assert!(rt; has(alloc, &mut shelf, name, text));
        assert!(rt; is_written(alloc, &mut shelf, name, b"1 0 0\n"));
    }
    Ok(())
}

#[test]
fn real_files_are_written_and_read(rt: HostRuntime) -> Result<(), TestError> {
    let alloc = rt.alloc();
    let mut shelf = FileShelf::make(&rt, alloc);
    let long = vec![in alloc; 7u8; 200_000]?;
    for text in [long.as_slice(), b"short", b""] {
        assert!(rt; is_written(alloc, &mut shelf, "file", text));
    }
    assert!(rt; shelf.append("made", b"12345").is_ok());
    assert!(rt; is_over(alloc, &mut shelf, "made", 4));
    assert!(rt; has(alloc, &mut shelf, "made", b"12345"));
    assert!(rt; shelf.begin("made").is_ok());
    assert!(rt; has(alloc, &mut shelf, "made", b""));
    Ok(())
}

#[test]
fn standard_output_is_no_file(rt: HostRuntime) {
    let mut shelf = FileShelf::make(&rt, rt.alloc());
    assert!(rt; write_whole(&mut shelf, "-", b"to standard output\n").is_ok());
    assert!(rt; fails(&mut shelf, Call::Read, "-"));
    assert!(rt; fs::metadata(&rt, "-").is_err());
}

fn is_there<R: Files>(rt: &R, name: &str) -> bool {
    fs::metadata(rt, name).is_ok()
}

#[test]
fn faults_of_real_files_change_nothing(rt: HostRuntime) -> Result<(), TestError> {
    let alloc = rt.alloc();
    let mut shelf = FileShelf::make(&rt, alloc);
    fs::create_dir(&rt, "folder")?;
    fs::write(&rt, "there", "here")?;
    for name in ["folder", "", "no\0name", "missing/file", "there/file"] {
        for call in [Call::Read, Call::Begin, Call::Append] {
            assert!(rt; fails(&mut shelf, call, name), "{name} {call:?}");
        }
    }
    assert!(rt; has(alloc, &mut shelf, "there", b"here"));
    fs::remove_file(&rt, "there")?;
    assert!(rt; fails(&mut shelf, Call::Read, "there"));
    assert!(rt; !is_there(&rt, "there"));
    assert!(rt; !is_there(&rt, "/dev/full") || fails(&mut shelf, Call::Append, "/dev/full"));
    Ok(())
}
