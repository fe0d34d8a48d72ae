ghost use Rattle.std.specs.Prelude.{◌≡◌, ◌++◌, map, IfOk, OnOk};

use slnf_base::NoMemory;
use slnf_plan::{Epoch, InstancePlan, SweepPlan};
use std::alloc::Global;

/// Where an instance works: the number of its epoch, and its lane.
#[derive(Clone, Copy, Debug)]
pub(crate) struct Seat {
    pub(crate) epoch: usize,
    pub(crate) lane: u32,
}

ghost use Rattle.slnf_replay.specs.Seats.{instance_seat, sweep_seats, epoch_seats, seats_from, seat_in};

/// Adds the seats of an epoch's instances.
fn add_instances(
    seats: &mut Vec<Option<Seat>>,
    number: usize,
    instances: &[InstancePlan],
) -> Result<(), NoMemory>
    ensures { OnOk result (seats.new.items ≡ seats.old.items ++ map (instance_seat number) instances.now) }
{
    for instance in instances {
        seats.push(Some(Seat {
            epoch: number,
            lane: instance.lane,
        }))?;
    }
    Ok(())
}

/// Adds a place without a seat for an epoch's sweep, if it has one.
#[tactic(auto, using(crate::proofs::Seating::with_none))]
fn add_sweep(seats: &mut Vec<Option<Seat>>, sweep: SweepPlan) -> Result<(), NoMemory>
    ensures { OnOk result (seats.new.items ≡ seats.old.items ++ sweep_seats sweep) }
{
    match sweep {
        SweepPlan::No => Ok(()),
        SweepPlan::Yes { stop: _ } => {
            seats.push(None)?;
            Ok(())
        }
    }
}

/// Adds the seats of an epoch's actors.
#[tactic(auto, using(crate::proofs::Seating::append_both))]
fn add_epoch(seats: &mut Vec<Option<Seat>>, number: usize, epoch: &Epoch) -> Result<(), NoMemory>
    ensures { OnOk result (seats.new.items ≡ seats.old.items ++ epoch_seats number epoch.now) }
{
    add_instances(seats, number, epoch.instances.as_slice())?;
    add_sweep(seats, epoch.sweep)
}

/// The seats of all incarnations of these epochs, in order.
pub(crate) fn seats_of(alloc: Global, epochs: &[Epoch]) -> Result<Vec<Option<Seat>>, NoMemory>
    ensures { IfOk result (λ seats. seats.items ≡ seats_from 0 epochs.now) }
{
    let mut seats = Vec::new(alloc);
    for (number, epoch) in epochs.iter().enumerate() {
        add_epoch(&mut seats, number, epoch)?;
    }
    Ok(seats)
}

/// The seat of an incarnation.
pub(crate) fn seat_in(seats: &[Option<Seat>], incarnation: u64) -> Option<Seat>
    ensures { result ≡ seat_in seats.now incarnation }
{
    match seats.get(incarnation as usize) {
        Some(seat) => *seat,
        None => None,
    }
}
