ghost use Rattle.std.specs.Prelude.{◌≡◌, ◌≤◌, ◌<◌, ◌+◌, ◌^◌, ◌∷◌, map, length, IfOk, OnOk, IfErr, IfSome, string_bytes};
ghost use Rattle.slnf_shelf.specs.Shelf.{Moves, Only, Rose, SameFiles};
ghost use Rattle.slnf_top.specs.Limits.{plan_limit, capture_limit, captures_limit, packets_limit};
ghost use Rattle.slnf_top.specs.Readings.{PlanFile, CaptureFile, captures_in, no_tally};
ghost use Rattle.slnf_top.specs.Refused.{Refuses, IsOver, RefusesOne, RefusesInputs, IsBadPlan, IsBadCapture, AreTooMany, StaysUnless};
ghost use Rattle.slnf_check.specs.Given.{IsGiven};
ghost use Rattle.slnf_top.specs.Inputs.{IsPlanOf, IsNext, AreCaptures, AreInputs};
ghost use Rattle.slnf_top.specs.Effects.{ReadsOf};

use crate::statuses::Status;
use slnf_base::Row;
use slnf_check::Given;
use slnf_flight::{Lane, make_lane};
use slnf_pcap::{PcapError, read_capture};
use slnf_plan::{Plan, PlanError, read_plan};
use slnf_shelf::{Call, Shelf, WholeError, read_whole};
use std::alloc::Global;

/// Limit 1: the bytes of a plan.
const PLAN_LIMIT: u64 = 1_048_576;

/// Limit 2: the bytes of one capture.
pub(crate) const CAPTURE_LIMIT: u64 = 67_108_864;

/// Limit 3: the bytes of all captures of a run.
const CAPTURES_LIMIT: u64 = 268_435_456;

/// Limit 4: the packets of a run.
const PACKETS_LIMIT: u64 = 1_048_576;

/// How many captures were read, and how many bytes and packets they have.
#[derive(Clone, Copy, Debug)]
pub struct Tally {
    pub lanes: u32,
    pub bytes: u64,
    pub packets: u64,
}

/// A capture that was read, its lane, and the tally with it.
#[derive(Debug, Drop)]
struct NextLane {
    given: Given,
    lane: Lane,
    tally: Tally,
}

/// The captures of a run, in order, each with its lane.
#[derive(Debug, Drop)]
pub struct Captures {
    pub given: Row<Given>,
    pub lanes: Row<Lane>,
    pub tally: Tally,
}

/// The plan and the captures of a run.
#[derive(Debug, Drop)]
pub struct Inputs {
    pub plan: Plan,
    pub captures: Captures,
}

/// Reads the plan under this name, and then the captures under these names, in order.
pub fn read_inputs<S: Shelf>(
    alloc: Global,
    shelf: &mut S,
    plan: &str,
    names: &[String],
) -> Result<Inputs, Status>
    requires { length names.now ≤ 32 }
    ensures counts { Moves (ReadsOf (plan.now ∷ map string_bytes names.now))
        (S.faults shelf.old) (S.faults shelf.new) }
    ensures no_fault { OnOk result (S.faults shelf.new ≡ S.faults shelf.old) }
    ensures still { IfErr result (StaysUnless Status.ReadFault (S.faults shelf.old) (S.faults shelf.new)) }
    ensures files { SameFiles (S.holds shelf.old) (S.holds shelf.new) }
    ensures read { IfOk result (AreInputs plan.now (map string_bytes names.now) (S.holds shelf.old)) }
    ensures refused { IfErr result (RefusesInputs (S.holds shelf.old)
        (PlanFile plan.now ∷ captures_in (map string_bytes names.now)) (S.faults shelf.old) (S.faults shelf.new)) }
{
    let plan = read_plan_file(alloc, shelf, plan)?;
    let captures = read_captures(alloc, shelf, names)?;
    Ok(Inputs { plan, captures })
}

/// Reads a file whole, within the limit of this number.
pub(crate) fn read_within<S: Shelf>(
    alloc: Global,
    shelf: &mut S,
    name: &str,
    limit: u8,
    most: u64,
) -> Result<Row<u8>, Status>
    requires { most < 2 ^ 32 }
    ensures counts { Moves (Only Call.Read name.now) (S.faults shelf.old) (S.faults shelf.new) }
    ensures no_fault { OnOk result (S.faults shelf.new ≡ S.faults shelf.old) }
    ensures still { IfErr result (StaysUnless Status.ReadFault (S.faults shelf.old) (S.faults shelf.new)) }
    ensures files { SameFiles (S.holds shelf.old) (S.holds shelf.new) }
    ensures within { IfOk result (λ bytes. length bytes ≤ most) }
    ensures told { IfOk result (λ bytes. IfSome (S.holds shelf.old name.now) (λ held. bytes ≡ held)) }
    ensures refused { IfErr result (Refuses (Rose Call.Read name.now (S.faults shelf.old) (S.faults shelf.new))
        (IsOver limit most (S.holds shelf.old name.now))) }
{
    match read_whole(alloc, shelf, name, most) {
        Ok(bytes) => Ok(bytes),
        Err(WholeError::OverLimit) => Err(Status::OverLimit {
            limit,
            count: most + 1,
        }),
        Err(WholeError::Failed) => Err(Status::ReadFault),
        Err(WholeError::NoMemory) => Err(Status::NoMemory),
    }
}

/// Reads the plan's file.
fn read_plan_file<S: Shelf>(alloc: Global, shelf: &mut S, name: &str) -> Result<Plan, Status>
    ensures counts { Moves (Only Call.Read name.now) (S.faults shelf.old) (S.faults shelf.new) }
    ensures no_fault { OnOk result (S.faults shelf.new ≡ S.faults shelf.old) }
    ensures still { IfErr result (StaysUnless Status.ReadFault (S.faults shelf.old) (S.faults shelf.new)) }
    ensures files { SameFiles (S.holds shelf.old) (S.holds shelf.new) }
    ensures plan { IfOk result (λ plan. IfSome (S.holds shelf.old name.now) (IsPlanOf plan)) }
    ensures refused { IfErr result (Refuses (Rose Call.Read name.now (S.faults shelf.old) (S.faults shelf.new))
        (RefusesOne (PlanFile name.now) no_tally (S.holds shelf.old name.now))) }
{
    let bytes = read_within(alloc, shelf, name, 1, PLAN_LIMIT)?;
    plan_in(alloc, bytes.as_slice())
}

/// The plan of these bytes, or why it is refused.
fn plan_in(alloc: Global, bytes: &[u8]) -> Result<Plan, Status>
    requires { length bytes.now ≤ plan_limit }
    ensures plan { IfOk result (λ plan. IsPlanOf plan bytes.now) }
    ensures refused { IfErr result (Refuses ⊥ (IsBadPlan bytes.now)) }
{
    match read_plan(alloc, bytes) {
        Ok(plan) => Ok(plan),
        Err(PlanError::NoMemory) => Err(Status::NoMemory),
        Err(error) => Err(Status::PlanBad(error)),
    }
}

/// Reads the captures under these names, in order.
fn read_captures<S: Shelf>(
    alloc: Global,
    shelf: &mut S,
    names: &[String],
) -> Result<Captures, Status>
    requires { length names.now ≤ 32 }
    ensures counts { Moves (ReadsOf (map string_bytes names.now)) (S.faults shelf.old) (S.faults shelf.new) }
    ensures no_fault { OnOk result (S.faults shelf.new ≡ S.faults shelf.old) }
    ensures still { IfErr result (StaysUnless Status.ReadFault (S.faults shelf.old) (S.faults shelf.new)) }
    ensures files { SameFiles (S.holds shelf.old) (S.holds shelf.new) }
    ensures read { IfOk result (AreCaptures (S.holds shelf.old) (map string_bytes names.now)) }
    ensures refused { IfErr result (RefusesInputs (S.holds shelf.old) (captures_in (map string_bytes names.now))
        (S.faults shelf.old) (S.faults shelf.new)) }
{
    let mut given = Vec::new(alloc);
    let mut lanes = Vec::new(alloc);
    let mut tally = Tally {
        lanes: 0,
        bytes: 0,
        packets: 0,
    };
    for name in names {
        let next = read_next(alloc, shelf, name.as_str(), tally)?;
        given.push(next.given)?;
        lanes.push(next.lane)?;
        tally = next.tally;
    }
    Ok(Captures {
        given: Row::from_vec(given),
        lanes: Row::from_vec(lanes),
        tally,
    })
}

/// Reads the capture under this name, behind the captures of the tally.
fn read_next<S: Shelf>(
    alloc: Global,
    shelf: &mut S,
    name: &str,
    tally: Tally,
) -> Result<NextLane, Status>
    requires lanes { tally.lanes < 32 }
    requires bytes { tally.bytes ≤ captures_limit }
    requires packets { tally.packets ≤ packets_limit }
    ensures counts { Moves (Only Call.Read name.now) (S.faults shelf.old) (S.faults shelf.new) }
    ensures no_fault { OnOk result (S.faults shelf.new ≡ S.faults shelf.old) }
    ensures still { IfErr result (StaysUnless Status.ReadFault (S.faults shelf.old) (S.faults shelf.new)) }
    ensures files { SameFiles (S.holds shelf.old) (S.holds shelf.new) }
    ensures told { IfOk result (λ next. IfSome (S.holds shelf.old name.now) (λ bytes. next.given.bytes ≡ bytes)) }
    ensures next { IfOk result (IsNext tally) }
    ensures refused { IfErr result (Refuses (Rose Call.Read name.now (S.faults shelf.old) (S.faults shelf.new))
        (RefusesOne (CaptureFile name.now) tally (S.holds shelf.old name.now))) }
{
    let bytes = read_within(alloc, shelf, name, 2, CAPTURE_LIMIT)?;
    capture_in(alloc, tally, bytes)
}

/// The capture of these bytes, or why it is refused.
fn capture_in(alloc: Global, tally: Tally, bytes: Row<u8>) -> Result<NextLane, Status>
    requires within { length bytes ≤ capture_limit }
    requires lanes { tally.lanes < 32 }
    requires bytes { tally.bytes ≤ captures_limit }
    requires packets { tally.packets ≤ packets_limit }
    ensures told { IfOk result (λ next. next.given.bytes ≡ bytes) }
    ensures next { IfOk result (IsNext tally) }
    ensures refused { IfErr result (Refuses ⊥ (IsBadCapture tally bytes)) }
{
    let total = tally.bytes + bytes.len() as u64;
    if total > CAPTURES_LIMIT {
        return Err(Status::OverLimit {
            limit: 3,
            count: total,
        });
    }
    match read_capture(alloc, bytes.as_slice()) {
        Ok(capture) => lane_of(alloc, tally, Given { bytes, capture }),
        Err(PcapError::NoMemory) => Err(Status::NoMemory),
        Err(error) => Err(Status::CaptureBad {
            lane: tally.lanes,
            error,
        }),
    }
}

/// The lane of a capture, or why it is refused.
fn lane_of(alloc: Global, tally: Tally, given: Given) -> Result<NextLane, Status>
    requires within { length given.bytes ≤ capture_limit }
    requires given { IsGiven given }
    requires few { length given.capture.packets ≤ 1048576 }
    requires lanes { tally.lanes < 32 }
    requires bytes { tally.bytes + length given.bytes ≤ captures_limit }
    requires packets { tally.packets ≤ packets_limit }
    ensures told { IfOk result (λ next. next.given.bytes ≡ given.bytes) }
    ensures next { IfOk result (IsNext tally) }
    ensures refused { IfErr result (Refuses ⊥ (AreTooMany tally given.bytes given.capture)) }
{
    let packets = tally.packets + given.capture.packets.len() as u64;
    if packets > PACKETS_LIMIT {
        return Err(Status::OverLimit {
            limit: 4,
            count: packets,
        });
    }
    let lane = make_lane(alloc, given.bytes.as_slice(), &given.capture)?;
    let tally = Tally {
        lanes: tally.lanes + 1,
        bytes: tally.bytes + given.bytes.len() as u64,
        packets,
    };
    Ok(NextLane { given, lane, tally })
}
