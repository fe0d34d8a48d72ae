ghost use Rattle.std.specs.Prelude.{◌≡◌, ◌≤◌, length, IfOk};
ghost use Rattle.slnf_run.specs.Run.{IsRun};
ghost use Rattle.slnf_flight.specs.Lanes.{packet_count};
ghost use Rattle.slnf_flight.specs.PlanSetting.{setting_of};
ghost use Rattle.slnf_journal.specs.BoxLines.{box_lines_text};
ghost use Rattle.slnf_replay.specs.BoxText.{box_answers, box_text};
ghost use Rattle.slnf_replay.specs.Decided.{decided_lines};

use crate::answers::answer_all;
use crate::functions::functions_of;
use crate::places::places_of;
use crate::seats::seats_of;
use slnf_access::Entry;
use slnf_base::{NoMemory, Row, Service};
use slnf_box::{FwBox, LbBox, NatBox};
use slnf_flight::Lane;
use slnf_journal::{BoxLine, write_box_lines};
use slnf_plan::{FunctionPlan, Plan};
use slnf_setting::know_types;
use std::alloc::Global;

/// The service, copied.
fn copy_of(alloc: Global, service: &Service) -> Result<Service, NoMemory>
    ensures { IfOk result (λ copy. copy ≡ service.now) }
{
    Ok(Service {
        proto: service.proto,
        front: service.front,
        backends: Row::from_vec(Vec::from_slice(alloc, service.backends.as_slice())?),
    })
}

/// What the ordinary box of the plan's function answers to the packets of a run.
fn box_answers(
    alloc: Global,
    plan: &Plan,
    lanes: &[Lane],
    journal: &[Entry],
) -> Result<Vec<BoxLine>, NoMemory>
    requires few_packets { packet_count lanes.now ≤ 1048576 }
    requires run { IsRun (setting_of plan.now lanes.now) journal.now }
    ensures { IfOk result (λ answers. answers.items ≡ box_answers plan.now lanes.now journal.now) }
{
    know_types(plan);
    let seats = seats_of(alloc, plan.epochs.as_slice())?;
    let seats = seats.as_slice();
    let functions = functions_of(alloc, plan)?;
    let functions = functions.as_slice();
    let places = places_of(alloc, plan, lanes, seats, functions, journal)?;
    let places = places.as_slice();
    match &plan.function {
        FunctionPlan::Nat(pool) => {
            let ordinary = NatBox::make(alloc, *pool);
            answer_all(
                alloc, ordinary, plan, lanes, seats, functions, journal, places,
            )
        }
        FunctionPlan::Firewall { inside, rules } => {
            let rules = Row::from_vec(Vec::from_slice(alloc, rules.as_slice())?);
            let ordinary = FwBox::make(alloc, *inside, rules);
            answer_all(
                alloc, ordinary, plan, lanes, seats, functions, journal, places,
            )
        }
        FunctionPlan::Balancer(service) => {
            let ordinary = LbBox::make(alloc, copy_of(alloc, service)?);
            answer_all(
                alloc, ordinary, plan, lanes, seats, functions, journal, places,
            )
        }
    }
}

/// The lines of the one ordinary box of a run: its verdict for each packet that has a place, in the order of the places,
/// as PLACE LANE NUMBER and the verdict. A packet that is lost has a line where it was decided; one that was dropped at
/// once has none. The packets come to the box as they were captured, with the choice that the run made: a NAT's is the
/// pair that the packet's put on its flow's key wrote, where the put was done at the packet's place, and a balancer's is
/// that of the packet's incarnation, number and epoch. Each verdict is the one that the run decided. It takes time
/// n log n.
pub fn box_lines(
    alloc: Global,
    plan: &Plan,
    lanes: &[Lane],
    journal: &[Entry],
) -> Result<Vec<u8>, NoMemory>
    requires few_packets { packet_count lanes.now ≤ 1048576 }
    requires run { IsRun (setting_of plan.now lanes.now) journal.now }
    ensures text { IfOk result (λ bytes. bytes.items ≡ box_text plan.now lanes.now journal.now) }
    ensures decided { IfOk result (λ bytes. bytes.items
        ≡ box_lines_text (decided_lines (setting_of plan.now lanes.now) journal.now)) }
{
    know_types(plan);
    let answers = box_answers(alloc, plan, lanes, journal)?;
    write_box_lines(alloc, answers.as_slice())
}
