use crate::{JournalError, read_journal, write_journal};
use slnf_access::{Entry, Key, Reply, Request, Value};
use slnf_base::Row;
use std::alloc::{AllocError, Global};
use std::io::BufRead;
use std::process::Abort;
use std::test::Fail;

const KEY: Key = Key(0x0411_0000_0000_0000_0000_c000_0201_0fa0);

const BACKEND: Value = Value(0x0a01_0001_0035);

/// The journal of a flow's two packets at a balancer.
const USUAL: &str = "slnf journal 1
1 0 0 0 read 04110000000000000000c00002010fa0 absent
2 0 0 0 put 04110000000000000000c00002010fa0 000000000000000000000a0100010035 done 2
3 0 0 1 read 04110000000000000000c00002010fa0 found 000000000000000000000a0100010035 2
";

#[test]
fn a_journal_is_read_and_written_back(rt: HostRuntime) -> Result<(), Fail> {
    let entries = read_journal(rt.alloc(), USUAL.as_bytes())?;
    let wanted = [
        Entry {
            stamp: 1,
            shard: 0,
            incarnation: 0,
            item: 0,
            request: Request::Read { key: KEY },
            reply: Reply::Absent,
        },
        Entry {
            stamp: 2,
            shard: 0,
            incarnation: 0,
            item: 0,
            request: Request::PutIfAbsent {
                key: KEY,
                value: BACKEND,
            },
            reply: Reply::Done(2),
        },
        Entry {
            stamp: 3,
            shard: 0,
            incarnation: 0,
            item: 1,
            request: Request::Read { key: KEY },
            reply: Reply::Found(BACKEND, 2),
        },
    ];
    assert_eq!(rt; entries.as_slice(), wanted.as_slice());
    let text = write_journal(rt.alloc(), entries.as_slice())?;
    assert_eq!(rt; text.as_slice(), USUAL.as_bytes());
    Ok(())
}

/// A line that begins with `=` is a text with the gap `@`. Each line behind it fills the gap: behind the bar
/// stands the piece for it, and before the bar the error's number, line and field, or 0 and the number of
/// entries. In texts `;` stands for a line feed, `~` for a carriage return, `_` for a blank at a line's end, and K and V for 32 digits.
const CASES: &str = r#"
# The first line.
=@
1|
1|slnf journal 1
1|slnf journal 9;
1|slnf journal 10;
1|slnf journal 1 ;
1|slnf journal 1~;
1|;slnf journal 1;
1|SLNF journal 1;
0 0|slnf journal 1;
# Missing fields, and lines that no line feed ends.
=slnf journal 1;@
2 2|1
3 2 1|;
3 2 1| ;
3 2 1| 1 0 0 0 read K absent;
3 2 2|1;
3 2 3|1 0;
3 2 4|1 0 0;
3 2 5|1 0 0 0;
3 2 6|1 0 0 0 read;
3 2 7|1 0 0 0 read K;
# Stamps.
=slnf journal 1;@ 0 0 0 read K absent;
0 1|1
0 1|4611686018427387903
3 2 1|4611686018427387904
3 2 1|18446744073709551617
3 2 1|100000000000000000000
3 2 1|0
3 2 1|01
3 2 1|+1
3 2 1|-1
3 2 1|1~
3 2 1|a
3 2 1|
3 2 2|1_
# Shards, incarnations and items.
=slnf journal 1;1 @ 0 0 read K absent;
0 1|0
0 1|63
3 2 2|64
3 2 2|00
=slnf journal 1;1 0 @ 0 read K absent;
0 1|4294967295
3 2 3|4294967296
=slnf journal 1;1 0 0 @ read K absent;
0 1|4294967295
3 2 4|4294967296
# Requests.
=slnf journal 1;1 0 0 0 @ absent;
0 1|read K
0 1|put K V
0 1|replace K 1 V
0 1|delete K 4611686018427387903
3 2 5|
3 2 5|Read K
3 2 5|reads K
3 2 6|read
3 2 6|read 04110000000000000000C00002010FA0
3 2 6|read 4110000000000000000c00002010fa0
3 2 6|read 004110000000000000000c00002010fa0
3 2 6|read 0411000000000000000gc00002010fa0
3 2 7|read K V
3 2 7|put K
3 2 8|put K V V
3 2 7|replace K 0 V
3 2 7|replace K V 1
3 2 8|replace K 1
3 2 7|delete K
3 2 7|delete K 4611686018427387904
# Replies.
=slnf journal 1;1 0 0 0 read K @
0 1|absent;
0 1|done 1;
0 1|found V 1;
2 2|absent
2 2|done 0
3 2 7|absen;
3 2 7|absent~;
3 2 8|absent ;
3 2 8|absent x;
3 2 8|done;
3 2 8|done 0;
3 2 9|done 1 ;
3 2 8|found 1 V;
3 2 9|found V;
3 2 9|found V 02;
3 2 10|found V 1 1;
# Lines behind it.
0 2|absent;1 0 0 0 put K V absent;
2 3|absent;2
3 3 1|absent;;
3 3 2|absent;2 64;2
3 4 5|absent;1 0 0 0 read K absent;1 0 0 0 get K absent;;
"#;

/// Adds a piece of a text, with what its signs stand for.
fn add_piece(text: &mut String, piece: &str) -> Result<(), AllocError> {
    for c in piece.chars() {
        match c {
            ';' => text.push('\n')?,
            '~' => text.push('\r')?,
            '_' => text.push(' ')?,
            '=' => {}
            'K' => text.push_str("04110000000000000000c00002010fa0")?,
            'V' => text.push_str("000000000000000000000a0100010035")?,
            _ => text.push(c)?,
        }
    }
    Ok(())
}

/// The text with the piece in its gap.
fn filled(alloc: Global, text: &str, piece: &str) -> Result<String, Fail> {
    let (head, tail) = text.split_once('@').ok_or("a gap")?;
    let mut filled = String::new(alloc);
    add_piece(&mut filled, head)?;
    add_piece(&mut filled, piece)?;
    add_piece(&mut filled, tail)?;
    Ok(filled)
}

/// What a reading told, as the cases write it.
fn told(alloc: Global, found: &Result<Row<Entry>, JournalError>) -> Result<String, AllocError> {
    match found {
        Ok(entries) => format!(in alloc; "0 {}", entries.len()),
        Err(JournalError::BadHeader) => format!(in alloc; "1"),
        Err(JournalError::NoNewline(line)) => format!(in alloc; "2 {line}"),
        Err(JournalError::BadField(line, field)) => format!(in alloc; "3 {line} {field}"),
        Err(JournalError::NoMemory) => format!(in alloc; "no memory"),
    }
}

/// The text with the piece in its gap is told so.
fn check_case(
    rt: &impl Abort,
    alloc: Global,
    text: &str,
    piece: &str,
    wanted: &str,
) -> Result<(), Fail> {
    let journal = filled(alloc, text, piece)?;
    let found = told(alloc, &read_journal(alloc, journal.as_bytes()))?;
    assert!(rt; found.as_str() == wanted, "{found}: {journal}");
    Ok(())
}

#[test]
fn each_error_of_a_journal_has_its_place(rt: HostRuntime) -> Result<(), Fail> {
    let mut text = String::new(rt.alloc());
    let mut cases = 0u32;
    for line in CASES.as_bytes().lines(rt.alloc()) {
        let line = line?;
        if line.starts_with('=') {
            text = line;
        } else if let Some((wanted, piece)) = line.split_once('|') {
            check_case(&rt, rt.alloc(), text.as_str(), piece, wanted)?;
            cases = cases.saturating_add(1);
        }
    }
    assert!(rt; cases == 81, "{cases}");
    Ok(())
}
