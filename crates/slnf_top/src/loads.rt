//! Runs of a load.
ghost use Rattle.std.specs.Prelude.{◌≡◌, ◌≤◌, ◌*◌, All, IfOk, IsOk, Ok, map};
ghost use Rattle.slnf_pcap.specs.Captures.{capture_of};
ghost use Rattle.slnf_plan.specs.Plain.{plain};
ghost use Rattle.slnf_plan.specs.Reading.{plan_of_bytes};
ghost use Rattle.slnf_top.specs.Words.{load_named};
ghost use Rattle.slnf_top.specs.Inputs.{IsLaneOf, AreLanesOf};
ghost use Rattle.slnf_top.specs.Files.{summary_alone};
ghost use Rattle.slnf_top.specs.Written.{BySchedule, load_source, IsLoad, IsRunFrom};

use crate::forms::LoadWords;
use crate::outputs::summary_file;
use crate::steps::{Run, outcome_of};
use slnf_base::{NoMemory, Row};
use slnf_flight::{Lane, make_lane};
use slnf_gen::make_load;
use slnf_pcap::{PcapError, read_capture};
use slnf_plan::{Plan, PlanError, read_plan};
use std::alloc::Global;
use std::hash::RandomState;

/// The plan of a load, and the lanes of its captures.
#[derive(Debug, Drop)]
pub struct LoadInputs {
    pub plan: Plan,
    pub lanes: Row<Lane>,
}

/// Makes the load and runs it, for the summary alone.
pub fn run_load(alloc: Global, state: RandomState, words: &LoadWords) -> Result<Run, NoMemory>
    ensures run { IfOk result (IsRunFrom BySchedule summary_alone (load_source (load_named words.now))) }
    ensures none_left { IfOk result (λ run. run.left ≡ 0) }
{
    let load = load_inputs(alloc, words)?;
    let outcome = outcome_of(alloc, state, &load.plan, load.lanes.as_slice())?;
    let summary = summary_file(alloc, &outcome)?;
    Ok(Run {
        files: Row::from_vec(vec![in alloc; summary]?),
        left: outcome.left,
    })
}

/// Makes the load, and lets the captures' bytes go.
fn load_inputs(alloc: Global, words: &LoadWords) -> Result<LoadInputs, NoMemory>
    ensures { IfOk result (IsLoad (load_named words.now)) }
{
    let load = make_load(alloc, words.number, words.lanes, words.packets)?;
    let plan = load_plan(alloc, load.plan.as_slice())?;
    let lanes = load_lanes(alloc, load.captures.as_slice())?;
    Ok(LoadInputs { plan, lanes })
}

/// The plan of a load's text.
fn load_plan(alloc: Global, text: &[u8]) -> Result<Plan, NoMemory>
    requires { IsOk (plan_of_bytes text.now) }
    ensures { IfOk result (λ plan. plan_of_bytes text.now ≡ Ok (plain plan)) }
{
    match read_plan(alloc, text) {
        Ok(plan) => Ok(plan),
        Err(PlanError::NoMemory) => Err(NoMemory),
        Err(_) => unreachable!(),
    }
}

/// The lanes of a load's captures, in order.
fn load_lanes(alloc: Global, captures: &[Vec<u8>]) -> Result<Row<Lane>, NoMemory>
    requires { All (λ capture. IsOk (capture_of capture.items)) captures.now }
    ensures { IfOk result (AreLanesOf (map (λ capture. capture.items) captures.now)) }
{
    let mut lanes = Vec::new(alloc);
    for capture in captures {
        lanes.push(load_lane(alloc, capture.as_slice())?)?;
    }
    Ok(Row::from_vec(lanes))
}

/// The lane of a load's capture.
fn load_lane(alloc: Global, bytes: &[u8]) -> Result<Lane, NoMemory>
    requires { IsOk (capture_of bytes.now) }
    ensures { IfOk result (IsLaneOf bytes.now) }
{
    match read_capture(alloc, bytes) {
        Ok(capture) => make_lane(alloc, bytes, &capture),
        Err(PcapError::NoMemory) => Err(NoMemory),
        Err(_) => unreachable!(),
    }
}
