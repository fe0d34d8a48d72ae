use slnf_base::{Packet, Pair};
use std::marker::Model;

/// The state of a packet on its way out: the access that it makes next.
#[derive(Clone, Copy, Debug, PartialEq, Eq)]
pub enum OutState {
    /// It reads its flow.
    Look,
    /// It claims the candidate at this place.
    Try(u32),
    /// It puts its flow's record with that candidate, whose claim has this version.
    Confirm(u32, u64),
    /// It takes that claim away, since its flow has this pair.
    Release(u32, u64, Pair),
    /// It reads its flow, since each candidate was taken.
    Last,
}

/// The state of a packet on its way in: the access that it makes next.
#[derive(Clone, Copy, Debug, PartialEq, Eq)]
pub enum InState {
    /// It reads the claim of its destination.
    LookPort,
    /// It reads the flow of the claim's inside pair.
    LookFlow(Pair),
}

/// A packet with its state; one on its way out has its incarnation too.
#[derive(Clone, Copy, Debug)]
pub(crate) enum Course {
    Out(OutState, u32, Packet),
    In(InState, Packet),
}

/// A packet under way. It is made by the function alone.
#[derive(Debug, Drop)]
pub struct NatFlight {
    pub(crate) course: Course,
}

impl Model for NatFlight {
    ghost use Rattle.slnf_nat.specs.Flights.{NatFlight as Flying};
    ghost use Rattle.slnf_nat.specs.Courses.{flight_of};

    ghost Value = { Flying };

    ghost view = { λ f. flight_of f.course };
}

impl NatFlight {
    ghost use Rattle.slnf_nat.specs.Behaviour.{IsPacketFlight};

    /// The flight is a packet's, and no sweep's port's. It does nothing.
    pub fn know_packet(&self)
        ensures { IsPacketFlight self.now }
    {
        match self.course {
            Course::Out(_, _, _) => {}
            Course::In(_, _) => {}
        }
    }
}
