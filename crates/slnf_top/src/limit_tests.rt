//! Each limit but that of journals passed by one, and memory that is wanting, over files that are computed as they are read.
ghost use Rattle.std.specs.Prelude.{◌≡◌, ◌≤◌, length, None};
ghost use Rattle.slnf_shelf.specs.Shelf.{no_faults};

use super::*;
use slnf_shelf::{Shelf, ShelfError};
use std::alloc::Global;
use std::hash::RandomState;
use std::test::Fail as Failed;

const PLAN: &[u8] =
    b"function = \"balancer\"\n[balancer]\nproto = \"udp\"\nservice = \"198.51.100.10:53\"\n\
    backends = [\"10.1.0.1:53\"]\n[[epoch]]\ninstances = [{ lane = 0 }]\n";

const HEADER: [u8; 24] =
    *b"\xd4\xc3\xb2\xa1\x02\x00\x04\x00\x00\x00\x00\x00\x00\x00\x00\x00\x00\x00\x04\x00\x65\x00\x00\x00";

/// What a file holds: the plan, 1,048,577 bytes that are no capture, a capture of so many bytes whose records are
/// empty, or a capture of 67,108,864 bytes with 256 records: 255 of 262,144 bytes, and one of 258,024.
#[derive(Clone, Copy)]
enum Content {
    Plan,
    Blank,
    Empty(u64),
    Full,
}

/// A shelf that computes what its files hold, keeps nothing and meets no fault.
#[derive(Debug, Drop)]
struct Computed;

/// What stands under a name.
fn content_of(name: &str) -> Content {
    if name == "plan" {
        Content::Plan
    } else if name == "blank" {
        Content::Blank
    } else if name == "header" {
        Content::Empty(24)
    } else if name == "one" {
        Content::Empty(40)
    } else if name == "many" {
        Content::Empty(24 + 16 * 1_048_576)
    } else if name.ends_with(".journal") || name == "open.verdicts" {
        Content::Empty(24)
    } else if name == "long" || name == "wide.verdicts" || name == "open.0.pcap" {
        Content::Empty(67_108_865)
    } else {
        Content::Full
    }
}

fn size_of(content: Content) -> u64 {
    match content {
        Content::Plan => PLAN.len() as u64,
        Content::Blank => 1_048_577,
        Content::Empty(size) => size,
        Content::Full => 67_108_864,
    }
}

/// Puts a byte of the file into the buffer, which holds the file from the place `at` on, if it is there.
fn put_byte(into: &mut [u8], at: u64, place: u64, byte: u8)
    ensures { length into.new ≡ length into.old }
{
    if at <= place && place - at < into.len() as u64 {
        into[(place - at) as usize] = byte;
    }
}

/// Puts these bytes there, from the file's first place on.
fn put_front(into: &mut [u8], at: u64, front: &[u8])
    ensures { length into.new ≡ length into.old }
{
    for (place, byte) in front.iter().enumerate() {
        put_byte(into, at, place as u64, *byte);
    }
}

/// Puts the captured lengths of the 256 records there.
fn put_lengths(into: &mut [u8], at: u64)
    ensures { length into.new ≡ length into.old }
{
    for record in 0..255u64 {
        put_byte(into, at, 24 + 262_160 * record + 10, 0x04);
    }
    let last = 24 + 262_160 * 255;
    put_byte(into, at, last + 8, 0xe8);
    put_byte(into, at, last + 9, 0xef);
    put_byte(into, at, last + 10, 0x03);
}

/// Fills the buffer with the bytes from this place on, and answers how many there are.
fn fill(content: Content, at: u64, into: &mut [u8]) -> usize
    ensures { result ≤ length into.old }
{
    let rest = size_of(content).saturating_sub(at);
    into.fill(0);
    match content {
        Content::Plan => put_front(into, at, PLAN),
        Content::Blank => (),
        Content::Empty(_) => put_front(into, at, &HEADER),
        Content::Full => {
            put_front(into, at, &HEADER);
            put_lengths(into, at);
        }
    }
    if rest < into.len() as u64 {
        rest as usize
    } else {
        into.len()
    }
}

impl Shelf for Computed {
    ghost holds = { λ _ _. None };

    ghost faults = { λ _. no_faults };

    fn read(&mut self, name: &str, at: u64, into: &mut [u8]) -> Result<usize, ShelfError> {
        if name == "wanting" {
            return Err(ShelfError::NoMemory);
        }
        Ok(fill(content_of(name), at, into))
    }

    fn begin(&mut self, _name: &str) -> Result<(), ShelfError> {
        Ok(())
    }

    fn append(&mut self, _name: &str, piece: &[u8]) -> Result<usize, ShelfError> {
        Ok(piece.len())
    }
}

/// The words of a run, and the status and the fault line that it ends with.
#[derive(Clone, Copy)]
struct Case {
    words: &'static [&'static str],
    code: u8,
    line: &'static str,
}

static CASES: [Case; 6] = [
    Case {
        words: &["step", "blank", "out", "header"],
        code: 10,
        line: "slnf: over limit 1\n",
    },
    Case {
        words: &["step", "plan", "out", "header", "long"],
        code: 10,
        line: "slnf: over limit 2\n",
    },
    Case {
        words: &["step", "plan", "out", "many", "one"],
        code: 10,
        line: "slnf: over limit 4\n",
    },
    Case {
        words: &["check", "plan", "wide", "header"],
        code: 10,
        line: "slnf: over limit 6\n",
    },
    Case {
        words: &["check", "plan", "open", "header"],
        code: 10,
        line: "slnf: over limit 2\n",
    },
    Case {
        words: &["step", "plan", "out", "wanting"],
        code: 7,
        line: "slnf: no memory\n",
    },
];

/// Whether a run ends as it must.
fn ends_so(alloc: Global, state: RandomState, case: &Case) -> Result<bool, Failed> {
    let mut words = Vec::new(alloc);
    for word in case.words {
        words.push(String::from_str(alloc, word)?)?;
    }
    let status = top_plain(alloc, state, words.as_slice(), &mut Computed);
    let line = format!(in alloc; "{status}")?;
    Ok(line.as_str() == case.line && status.code() == case.code)
}

/// Limits 1, 2, 4 and 6, also of an output that is read back, and memory that is wanting.
#[test]
fn limits(rt: HostRuntime) -> Result<(), Failed> {
    let state = RandomState::new(&rt)?;
    for (place, case) in CASES.iter().enumerate() {
        assert!(rt; ends_so(rt.alloc(), state, case)?, "case {place}");
    }
    Ok(())
}

/// Limit 3: four captures of limit 2, and a header more.
#[test]
fn captures_limit(rt: HostRuntime) -> Result<(), Failed> {
    let case = Case {
        words: &[
            "step", "plan", "out", "header", "full", "full", "full", "full",
        ],
        code: 10,
        line: "slnf: over limit 3\n",
    };
    assert!(rt; ends_so(rt.alloc(), RandomState::new(&rt)?, &case)?);
    Ok(())
}
