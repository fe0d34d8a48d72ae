use slnf_base::{Pair, Proto};
use std::marker::Model;

/// The state of a sweep's port: the access that it makes next.
#[derive(Clone, Copy, Debug)]
pub(crate) enum PortState {
    /// It reads its claim.
    LookPort,
    /// It reads the flow of the claim's inside pair; the claim has this version.
    LookFlow(Pair, u64),
    /// It takes the claim away, if that still has this version.
    Remove(u64),
}

/// A sweep's port under way, with the base of the sweep's epoch. It is made by the sweep alone.
#[derive(Debug, Drop)]
pub struct SweepFlight {
    pub(crate) state: PortState,
    pub(crate) proto: Proto,
    pub(crate) port: Pair,
    pub(crate) base: u64,
}

impl Model for SweepFlight {
    ghost use Rattle.slnf_nat.specs.Flights.{NatFlight, Sweep as Swept};
    ghost use Rattle.slnf_sweep.specs.Standing.{state_of};

    ghost Value = { NatFlight };

    ghost view = { λ f. Swept (state_of f.state) f.proto f.port f.base };
}
