//! A measure of a plan's run alone: the loop that `run` calls, or the one that `step` calls, on lanes that are read before.
#![tactic(auto)]

mod inputs;

use crate::inputs::{Inputs, are_few, read_inputs};
use anyhow::{Context, Result, bail};
use slnf_flight::Outcome;
use slnf_orch::step_plan;
use slnf_shelf::FileShelf;
use slnf_store::NoGate;
use slnf_threads::{PartedOutcome, run_plan};
use std::alloc::Global;
use std::env;
use std::hash::RandomState;
use std::sync::Wait;
use std::thread::Threads;
use std::time::Instant;

fn main(rt: HostRuntime) -> Result<()> {
    let words: Vec<String> = env::args(&rt)?.skip(1).collect(rt.alloc())?;
    let [how, plan, captures @ ..] = words.as_slice() else {
        bail!("step or run, a plan, and its captures");
    };
    let mut shelf = FileShelf::make(&rt, rt.alloc());
    let inputs = read_inputs(rt.alloc(), &mut shelf, plan.as_str(), captures)?;
    let state = RandomState::new(&rt)?;
    let start = Instant::now(&rt)?;
    let ran = ran_of(&rt, rt.alloc(), state, how.as_str(), &inputs)?;
    let nanoseconds = start.elapsed(&rt)?.as_nanos();
    eprintln!(rt; "nanoseconds {nanoseconds}")?;
    let entries = ran.entries();
    let left = ran.left();
    println!(rt; "entries {entries} left {left}")?;
    Ok(())
}

/// What a run came to.
#[derive(Drop)]
enum Ran {
    SideBySide(PartedOutcome),
    BySchedule(Outcome),
}

impl Ran {
    /// How many entries the journal has. A count that no memory has room for stands still.
    fn entries(&self) -> usize {
        match self {
            Ran::SideBySide(outcome) => {
                let mut entries: usize = 0;
                for part in outcome.journal.as_slice() {
                    entries = entries.saturating_add(part.len());
                }
                entries
            }
            Ran::BySchedule(outcome) => outcome.journal.len(),
        }
    }

    /// How many packets no instance took.
    fn left(&self) -> u64 {
        match self {
            Ran::SideBySide(outcome) => outcome.left,
            Ran::BySchedule(outcome) => outcome.left,
        }
    }
}

/// Runs the plan in threads, or by its written schedule.
fn ran_of<R: Threads + Wait + Sync>(
    rt: &R,
    alloc: Global,
    state: RandomState,
    how: &str,
    inputs: &Inputs,
) -> Result<Ran> {
    let lanes = inputs.lanes.as_slice();
    if lanes.len() > 32 || !are_few(lanes, 1_048_576) {
        bail!("at most 32 lanes with 1,048,576 packets");
    }
    match how {
        "run" => Ok(Ran::SideBySide(run_plan(
            rt,
            alloc,
            state,
            &inputs.plan,
            lanes,
            &NoGate,
        ).context("memory")?)),
        "step" => Ok(Ran::BySchedule(step_plan(alloc, state, &inputs.plan, lanes).context(
            "memory",
        )?)),
        _ => bail!("step or run"),
    }
}
