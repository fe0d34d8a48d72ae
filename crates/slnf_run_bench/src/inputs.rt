//! What is run.
ghost use Rattle.std.specs.Prelude.{◌≡◌, nat_le};
ghost use Rattle.slnf_flight.specs.Lanes.{packet_count};

use anyhow::{Context, Result};
use slnf_base::Row;
use slnf_flight::{Lane, make_lane};
use slnf_pcap::read_capture;
use slnf_plan::{Plan, read_plan};
use slnf_shelf::{Shelf, read_whole};
use std::alloc::Global;

/// The most bytes of a file that is read.
const MOST: u64 = 1 << 30;

/// A plan and its lanes.
#[derive(Debug, Drop)]
pub struct Inputs {
    pub plan: Plan,
    pub lanes: Row<Lane>,
}

/// Reads the plan and the captures.
pub(crate) fn read_inputs<S: Shelf>(
    alloc: Global,
    shelf: &mut S,
    plan: &str,
    captures: &[String],
) -> Result<Inputs> {
    let text = read_whole(alloc, shelf, plan, MOST).context("the plan's file")?;
    let plan = read_plan(alloc, text.as_slice()).context("the plan")?;
    let mut lanes = Vec::new(alloc);
    for name in captures {
        lanes.push(read_lane(alloc, shelf, name.as_str())?)?;
    }
    Ok(Inputs {
        plan,
        lanes: Row::from_vec(lanes),
    })
}

/// Reads a capture's lane.
fn read_lane<S: Shelf>(alloc: Global, shelf: &mut S, name: &str) -> Result<Lane> {
    let bytes = read_whole(alloc, shelf, name, MOST).context("a capture's file")?;
    let capture = read_capture(alloc, bytes.as_slice()).context("a capture")?;
    Ok(make_lane(alloc, bytes.as_slice(), &capture)?)
}

/// Whether the lanes have at most so many packets.
pub(crate) fn are_few(lanes: &[Lane], most: u64) -> bool
    ensures { result ≡ nat_le (packet_count lanes.now) most }
{
    match lanes {
        [] => true,
        [lane, rest @ ..] => {
            let count = lane.packets.len() as u64;
            count <= most && are_few(rest, most - count)
        }
    }
}
