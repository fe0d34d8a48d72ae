//! The program: the words of the command line, the real files, and an exit status.
#![tactic(auto)]

use slnf_shelf::FileShelf;
use slnf_store::NoGate;
use slnf_top::{Status, top};
use std::env;
use std::hash::RandomState;
use std::io::{self, ErrorKind};
use std::process::ExitCode;

fn main(rt: HostRuntime) -> ExitCode {
    let status = match begin(&rt) {
        Ok(start) => {
            let mut shelf = FileShelf::make(&rt, rt.alloc());
            let words = start.words.as_slice();
            top(&rt, rt.alloc(), start.state, words, &mut shelf, &NoGate)
        }
        Err(status) => status,
    };
    // The exit status tells how the command ended, also where its line can't be written.
    let _ = eprint!(rt; "{status}");
    ExitCode::from(status.code())
}

/// What a command begins with: the program's words, and the state that its store is hashed with.
#[derive(Drop)]
struct Start {
    words: Vec<String>,
    state: RandomState,
}

/// The program's words and a state, or how the program ends that can't have them.
fn begin(rt: &HostRuntime) -> Result<Start, Status> {
    let args = match env::args(rt) {
        Ok(args) => args,
        Err(error) => return Err(wanting_or(&error, Status::Usage)),
    };
    let words: Vec<String> = match args.skip(1).collect(rt.alloc()) {
        Ok(words) => words,
        Err(_) => return Err(Status::NoMemory),
    };
    // What comes in may be chosen by anyone, so the store is hashed with keys that nobody knows.
    let state = match RandomState::new(rt) {
        Ok(state) => state,
        Err(error) => return Err(wanting_or(&error, Status::ReadFault)),
    };
    Ok(Start { words, state })
}

/// How the program ends that met this error before its command: memory was wanting, or else as told. Words that aren't
/// UTF-8 are of no form, and random bytes that can't be had are a read fault.
fn wanting_or(error: &io::Error, other: Status) -> Status {
    match error.kind() {
        ErrorKind::OutOfMemory => Status::NoMemory,
        _ => other,
    }
}
