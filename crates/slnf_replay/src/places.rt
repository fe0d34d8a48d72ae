ghost use Rattle.std.specs.Prelude.{◌≡◌, ◌<◌, ℕ, Some, length, IfOk, IsTrue};
ghost use Rattle.slnf_run.specs.Run.{IsRun};
ghost use Rattle.slnf_flight.specs.Lanes.{AreFew};
ghost use Rattle.slnf_flight.specs.PlanSetting.{setting_of};
ghost use Rattle.slnf_setting.specs.Fits.{has_types};
ghost use Rattle.slnf_replay.specs.Functions.{AreFunctionsOf};
ghost use Rattle.slnf_replay.specs.Places.{marked, places_by};
ghost use Rattle.slnf_replay.specs.Seats.{seats_from};

use crate::follows::follow;
use crate::hands::Hands;
use crate::seats::Seat;
use slnf_access::Entry;
use slnf_base::NoMemory;
use slnf_flight::{AnyFunction, Lane};
use slnf_plan::Plan;
use std::alloc::Global;

/// Marks the entry with this number, if there is one.
fn mark(places: &mut Vec<bool>, place: Option<usize>)
    requires { (number : ℕ) → place ≡ Some number → number < length places.old.items }
    ensures { places.new.items ≡ marked places.old.items place }
{
    if let Some(number) = place {
        places[number] = true;
    }
}

/// For each entry of a run's journal, whether a packet has its place there.
pub(crate) fn places_of(
    alloc: Global,
    plan: &Plan,
    lanes: &[Lane],
    seats: &[Option<Seat>],
    functions: &[AnyFunction],
    journal: &[Entry],
) -> Result<Vec<bool>, NoMemory>
    requires few { AreFew lanes.now }
    requires types { IsTrue (has_types plan.now.function) }
    requires run { IsRun (setting_of plan.now lanes.now) journal.now }
    requires seats { seats.now ≡ seats_from 0 plan.now.epochs }
    requires functions { AreFunctionsOf plan.now.function plan.now.epochs functions.now }
    ensures { IfOk result (λ places. places.items
        ≡ places_by (setting_of plan.now lanes.now).scene journal.now (length journal.now)) }
{
    let mut hands = Hands::make(alloc);
    let mut places = vec![in alloc; false; journal.len()]?;
    for number in 0..journal.len() {
        let place = follow(plan, lanes, seats, functions, journal, &mut hands, number)?;
        mark(&mut places, place);
    }
    Ok(places)
}
