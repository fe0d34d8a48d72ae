ghost use Rattle.std.specs.Prelude.{◌≡◌, ◌<◌, ◌^◌, Option, length, IfOk, OnOk, IsTrue};
ghost use Rattle.slnf_plan.specs.declared.plan.Epoch.{Epoch};
ghost use Rattle.slnf_plan.specs.declared.plan.FunctionPlan.{FunctionPlan};
ghost use Rattle.slnf_run.specs.Run.{IsRun};
ghost use Rattle.slnf_flight.specs.Functions.{IsFunctionOf};
ghost use Rattle.slnf_flight.specs.Lanes.{AreFew};
ghost use Rattle.slnf_flight.specs.PlanSetting.{setting_of};
ghost use Rattle.slnf_setting.specs.Fits.{has_types};
ghost use Rattle.slnf_replay.specs.Boxes.{arrival_of};
ghost use Rattle.slnf_replay.specs.Functions.{AreFunctionsOf};
ghost use Rattle.slnf_replay.specs.Lines.{answers_of};
ghost use Rattle.slnf_replay.specs.Packets.{choice_at};
ghost use Rattle.slnf_replay.specs.Places.{places_by};
ghost use Rattle.slnf_replay.specs.Seats.{seats_from};

use crate::boxes::OrdinaryBox;
use crate::choices::choice_at;
use crate::functions::function_of;
use crate::packets::{Sighting, sighting_of};
use crate::seats::Seat;
use slnf_access::Entry;
use slnf_base::NoMemory;
use slnf_flight::{AnyFunction, Lane};
use slnf_journal::BoxLine;
use slnf_plan::Plan;
use std::alloc::Global;

/// Lets the box answer the packet of an entry, which has its place there.
fn answer_at<B: OrdinaryBox>(
    ordinary: &mut B,
    function: &AnyFunction,
    sighting: &Sighting,
    place: usize,
    entry: &Entry,
) -> Result<BoxLine, NoMemory>
    requires incarnation { entry.now.incarnation < 2 ^ 32 }
    requires item { entry.now.item < 2 ^ 32 }
    ensures answer { (plan_function : FunctionPlan) (epoch : Option Epoch) (content : B.Content)
        → IsFunctionOf plan_function epoch function.now → B.Keeps ordinary.old content
        → IfOk result (λ answer. answer ≡ record {
          place = place;
          lane = sighting.now.lane;
          number = entry.now.item;
          verdict = (B.definition ordinary.old).verdict content (arrival_of sighting.now.packet
              (choice_at plan_function epoch sighting.now.packet entry.now));
        }) }
    ensures next { (plan_function : FunctionPlan) (epoch : Option Epoch) (content : B.Content)
        → IsFunctionOf plan_function epoch function.now → B.Keeps ordinary.old content
        → OnOk result (B.Keeps ordinary.new ((B.definition ordinary.old).next content (arrival_of sighting.now.packet
        (choice_at plan_function epoch sighting.now.packet entry.now)))) }
    ensures same { B.definition ordinary.new ≡ B.definition ordinary.old }
{
    let choice = choice_at(function, &sighting.packet, entry);
    let verdict = ordinary.answer(&sighting.packet, choice)?;
    Ok(BoxLine {
        place,
        lane: sighting.lane,
        number: entry.item,
        verdict,
    })
}

/// Lets the box answer the packets of a run that have these places, in the order of the places.
pub(crate) fn answer_all<B: OrdinaryBox + Drop>(
    alloc: Global,
    mut ordinary: B,
    plan: &Plan,
    lanes: &[Lane],
    seats: &[Option<Seat>],
    functions: &[AnyFunction],
    journal: &[Entry],
    places: &[bool],
) -> Result<Vec<BoxLine>, NoMemory>
    requires empty { B.Keeps ordinary (B.definition ordinary).empty }
    requires few { AreFew lanes.now }
    requires types { IsTrue (has_types plan.now.function) }
    requires run { IsRun (setting_of plan.now lanes.now) journal.now }
    requires seats { seats.now ≡ seats_from 0 plan.now.epochs }
    requires functions { AreFunctionsOf plan.now.function plan.now.epochs functions.now }
    requires places { places.now
        ≡ places_by (setting_of plan.now lanes.now).scene journal.now (length journal.now) }
    ensures { IfOk result (λ answers. answers.items
        ≡ answers_of (setting_of plan.now lanes.now) (B.definition ordinary) journal.now) }
{
    let mut answers = Vec::new(alloc);
    for number in 0..journal.len() {
        if !places[number] {
            continue;
        }
        let entry = &journal[number];
        let Some(sighting) = sighting_of(lanes, seats, entry) else {
            continue;
        };
        let function = function_of(functions, sighting.epoch);
        let answer = answer_at(&mut ordinary, function, &sighting, number + 1, entry)?;
        answers.push(answer)?;
    }
    Ok(answers)
}
