//! Verdicts as letters.
use slnf_base::{Change, Reason, Row, Verdict};
use std::alloc::{AllocError, Global};

/// The letter of a verdict.
fn letter(verdict: &Verdict) -> char {
    match verdict {
        Verdict::Emit(change) => changed(change),
        Verdict::Dropped(reason) => dropped(reason),
        Verdict::Lost => 'l',
        Verdict::Left => '-',
    }
}

fn changed(change: &Change) -> char {
    match change {
        Change::Keep => 'k',
        Change::Source(pair) => match pair.port {
            53 => 'f',
            40000 => '0',
            40001 => '1',
            _ => '?',
        },
        Change::Dest(pair) => match pair.addr {
            0x0a01_0001 => 'x',
            0x0a01_0002 => 'y',
            0x0a00_0005 => 'i',
            _ => '?',
        },
    }
}

fn dropped(reason: &Reason) -> char {
    match reason {
        Reason::Fragment => 'F',
        Reason::NoPort => 'O',
        Reason::NoFlow => 'N',
        Reason::NoConn => 'C',
        Reason::DeniedState => 'S',
        Reason::NotPinned => 'P',
        _ => '?',
    }
}

/// The verdicts as letters, with a bar between two lanes.
pub(crate) fn letters(alloc: Global, lanes: &[Row<Verdict>]) -> Result<String, AllocError> {
    let mut text = String::new(alloc);
    for (number, verdicts) in lanes.iter().enumerate() {
        if number > 0 {
            text.push('|')?;
        }
        for verdict in verdicts.as_slice() {
            text.push(letter(verdict))?;
        }
    }
    Ok(text)
}
