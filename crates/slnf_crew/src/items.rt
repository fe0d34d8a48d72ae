ghost use Rattle.std.specs.Prelude.{◌≡◌, ◌^◌, ◌<◌, length};
ghost use Rattle.slnf_access.specs.Machines.{stand_of_start, stand_of_step};
ghost use Rattle.slnf_access.specs.Map.{CanReply};
ghost use Rattle.slnf_run.specs.Images.{stand_as};
ghost use Rattle.slnf_sweep.specs.Standing.{item_stands};
ghost use Rattle.slnf_instance.specs.Items.{stand_of_standing};
ghost use Rattle.slnf_flight.specs.declared.flights.AnyFlight.TheVariants.{Nat as NatFlies};
ghost use Rattle.slnf_crew.specs.FunctionMachine.{function_machine};

use slnf_access::{Function, Key, Reply, Request, Start, Step};
use slnf_base::Verdict;
use slnf_box::port_count;
use slnf_flight::{AnyFlight, AnyFunction, Taken, begin};
use slnf_instance::{Items, Standing};
use slnf_sweep::{Sweep, SweepFlight};
use std::marker::Model;

/// A packet under way, or a sweep's port.
#[derive(Debug, Drop)]
pub enum Course {
    Packet(AnyFlight),
    Port(SweepFlight),
}

/// An actor's item under way. Contracts see it as a flight of the plan's function.
#[derive(Debug, Drop)]
pub struct ItemFlight {
    pub course: Course,
}

impl Model for ItemFlight {
    ghost use Rattle.slnf_flight.specs.declared.flights.AnyFlight.{AnyFlight as Flying};
    ghost use Rattle.slnf_crew.specs.Courses.{flight_of};

    ghost Value = { Flying };

    ghost view = { λ flight. flight_of flight.course };
}

/// The packets of a lane, as an incarnation takes them.
#[derive(Debug, Drop)]
pub struct LanePackets<'a> {
    pub packets: &'a [Taken],
    pub incarnation: u64,
    pub ghost few: { length packets.now < 2 ^ 32 },
    pub ghost numbered: { incarnation < 2 ^ 32 },
}

/// What an actor takes: the packets of its lane, or the ports of a sweep.
#[derive(Debug, Drop)]
pub enum Kind<'a> {
    Packets(LanePackets<'a>),
    Ports(Sweep),
}

/// An actor's items under the function of its epoch.
#[derive(Debug, Drop)]
pub struct ActorItems<'a> {
    pub function: &'a AnyFunction,
    pub kind: Kind<'a>,
}

impl<'a> ActorItems<'a> {
    ghost use Rattle.slnf_crew.specs.Errands.{items_work};

    /// How many items there are.
    pub fn count(&self) -> usize
        ensures is { result ≡ (items_work self.now).count }
        ensures few { result < 2 ^ 32 }
    {
        match &self.kind {
            Kind::Packets(own) => own.packets.len(),
            Kind::Ports(sweep) => 2 * port_count(&sweep.pool) as usize,
        }
    }
}

impl<'a> Items for ActorItems<'a> {
    ghost use Rattle.slnf_crew.specs.Errands.{items_work};

    type Flight = ItemFlight;

    ghost work = { items_work };

    fn begin(&self, number: usize) -> Standing<ItemFlight> {
        match &self.kind {
            Kind::Packets(own) => {
                let taken = &own.packets[number];
                begun(begin(self.function, own.incarnation, number, taken))
            }
            Kind::Ports(sweep) => Standing::Flying(ItemFlight {
                course: Course::Port(sweep.start(number as u64)),
            }),
        }
    }

    fn next(&self, flight: &ItemFlight) -> Request {
        match &flight.course {
            Course::Packet(flight) => packet_next(self.function, flight),
            Course::Port(flight) => port_next(self.function, flight),
        }
    }

    fn after(&self, flight: ItemFlight, reply: Reply) -> Standing<ItemFlight> {
        let ItemFlight { course } = flight;
        match course {
            Course::Packet(flight) => packet_after(self.function, flight, reply),
            Course::Port(flight) => port_after(self.function, flight, reply),
        }
    }
}

/// Where a packet stands that begins so.
fn begun(start: Start<AnyFlight>) -> Standing<ItemFlight>
    ensures { stand_of_standing result ≡ stand_of_start start }
{
    match start {
        Start::Go(flight) => Standing::Flying(ItemFlight {
            course: Course::Packet(flight),
        }),
        Start::Over(reason) => Standing::Ended(Some(Verdict::Dropped(reason))),
    }
}

/// Where a packet stands that goes on so.
fn stepped(step: Step<AnyFlight>) -> Standing<ItemFlight>
    ensures { stand_of_standing result ≡ stand_of_step step }
{
    match step {
        Step::Go(flight) => Standing::Flying(ItemFlight {
            course: Course::Packet(flight),
        }),
        Step::Over(verdict) => Standing::Ended(Some(verdict)),
    }
}

/// Where a port stands that goes on so.
fn swept(port: Option<SweepFlight>) -> Standing<ItemFlight>
    ensures { stand_of_standing result ≡ stand_as NatFlies (item_stands port) }
{
    match port {
        None => Standing::Ended(None),
        Some(flight) => Standing::Flying(ItemFlight {
            course: Course::Port(flight),
        }),
    }
}

/// The access that a packet makes next.
fn packet_next(function: &AnyFunction, flight: &AnyFlight) -> Request
    ensures { result ≡ (function_machine function.now).asks flight.now }
{
    function.next(flight)
}

/// Where a packet stands after the reply.
fn packet_after(function: &AnyFunction, flight: AnyFlight, reply: Reply) -> Standing<ItemFlight>
    requires { CanReply ((function_machine function.now).asks flight) reply }
    ensures { stand_of_standing result ≡ (function_machine function.now).goes flight reply }
{
    flight.know_packet();
    stepped(function.after(flight, reply))
}

/// The access that a port makes next. A function without a sweep has none: what it would read is no function's.
fn port_next(function: &AnyFunction, flight: &SweepFlight) -> Request
    ensures { result ≡ (function_machine function.now).asks (NatFlies flight.now) }
{
    match function {
        AnyFunction::Nat(nat) => Sweep {
            pool: nat.pool,
            base: 0,
        }
        .next(flight),
        AnyFunction::Firewall(_) => Request::Read { key: Key(0) },
        AnyFunction::Balancer(_) => Request::Read { key: Key(0) },
    }
}

/// Where a port stands after the reply.
fn port_after(function: &AnyFunction, flight: SweepFlight, reply: Reply) -> Standing<ItemFlight>
    requires { CanReply ((function_machine function.now).asks (NatFlies flight)) reply }
    ensures { stand_of_standing result ≡ (function_machine function.now).goes (NatFlies flight) reply }
{
    match function {
        AnyFunction::Nat(nat) => swept(Sweep {
            pool: nat.pool,
            base: 0,
        }
        .after(flight, reply)),
        AnyFunction::Firewall(_) => Standing::Ended(Some(Verdict::Lost)),
        AnyFunction::Balancer(_) => Standing::Ended(Some(Verdict::Lost)),
    }
}
