ghost use Rattle.std.specs.Prelude.{◌≡◌, ◌≤◌, Ok, All, IfOk, map};
ghost use Rattle.slnf_pcap.specs.Captures.{capture_of};
ghost use Rattle.slnf_plan.specs.Reading.{plan_of_bytes};
ghost use Rattle.slnf_gen.specs.Plan.{plan_text, plan_told};
ghost use Rattle.slnf_gen.specs.Captures.{captures_of, capture_told};

use crate::captures::capture;
use crate::plan::plan_text;
use rand_core::SeedableRng;
use rand_xoshiro::SplitMix64;
use slnf_base::NoMemory;
use std::alloc::Global;

/// The bytes of a plan, and those of a capture for each lane.
#[derive(Debug, Drop)]
pub struct Load {
    pub plan: Vec<u8>,
    pub captures: Vec<Vec<u8>>,
}

/// The load of a number: a NAT with 1 to 32 lanes, and 1 to 32,768 packets in each.
pub fn make_load(alloc: Global, number: u64, lanes: u32, packets: u32) -> Result<Load, NoMemory>
    requires some_lanes { 1 ≤ lanes }
    requires few_lanes { lanes ≤ 32 }
    requires some_packets { 1 ≤ packets }
    requires few_packets { packets ≤ 32768 }
    ensures plan { IfOk result (λ load. load.plan.items ≡ plan_text lanes) }
    ensures captures { IfOk result (λ load.
        map (λ capture. capture.items) load.captures.items ≡ captures_of number lanes packets) }
    // Each of them is read whole.
    ensures plan_accepted { IfOk result (λ load. plan_of_bytes load.plan.items ≡ Ok (plan_told lanes)) }
    ensures captures_accepted { IfOk result (λ load.
        All (λ capture. capture_of capture.items ≡ Ok (capture_told packets)) load.captures.items) }
{
    let mut words = SplitMix64::seed_from_u64(number);
    let mut captures = Vec::with_capacity(alloc, lanes as usize)?;
    for lane in 0..lanes {
        captures.push(capture(alloc, &mut words, packets)?)?;
    }
    let plan = plan_text(alloc, lanes)?;
    Ok(Load { plan, captures })
}
