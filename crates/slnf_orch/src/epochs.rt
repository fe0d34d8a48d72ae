ghost use Rattle.std.specs.Prelude.{◌≡◌, ◌+◌, ◌*◌, ◌<◌, ◌≤◌, length, IfOk};
ghost use Rattle.slnf_flight.specs.Lanes.{packet_count};
ghost use Rattle.slnf_orch.specs.Passing.{IsUnderWay};

use crate::crews::{crew_of, hand_over};
use crate::turns::{rounds, turns_by};
use slnf_base::NoMemory;
use slnf_crew::{actors_have_jobs, epoch_of, items_of};
use slnf_flight::{AnyFunction, Lane};
use slnf_ledger::Ledger;
use slnf_plan::Plan;
use slnf_setting::{know_types, plan_has_one_box, plan_passes_few};
use slnf_shards::Shards;
use std::alloc::Global;

/// Runs the epoch with this number, whose first incarnation is `base`: its schedule's turns, and then rounds until all its
/// actors have ended. It answers the first incarnation behind it.
pub(crate) fn run_epoch(
    alloc: Global,
    plan: &Plan,
    lanes: &[Lane],
    number: usize,
    base: u64,
    shards: &mut Shards,
    ledger: &mut Ledger,
) -> Result<u64, NoMemory>
    requires few_packets { packet_count lanes.now ≤ 1048576 }
    requires there { number < length plan.now.epochs }
    requires base { base ≤ 33 * number }
    requires under_way { IsUnderWay plan.now lanes.now number base shards.old ledger.old }
    ensures base { IfOk result (λ next. next ≤ 33 * (number + 1)) }
    ensures under_way { IfOk result (λ next. IsUnderWay plan.now lanes.now (number + 1) next shards.new ledger.new) }
{
    know_types(plan);
    plan_has_one_box();
    plan_passes_few();
    actors_have_jobs();
    let function = AnyFunction::of(alloc, plan, number)?;
    let epoch = epoch_of(plan, number);
    let items = items_of(alloc, &function, lanes, base, epoch)?;
    let mut crew = crew_of(alloc, plan, epoch, ledger, items.as_slice())?;
    let count = crew.len();
    let mut clocks = vec![in alloc; shards.latest(); count]?;
    turns_by(
        shards,
        &mut crew,
        &mut clocks,
        base,
        epoch.schedule.as_slice(),
    )?;
    rounds(alloc, shards, &mut crew, &mut clocks, base)?;
    hand_over(ledger, crew, epoch.instances.as_slice())?;
    Ok(base + count as u64)
}
