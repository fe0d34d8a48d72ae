use slnf_base::{Packet, Pair};
use std::marker::Model;

/// The state of a balancer's packet: the access that it makes next.
#[derive(Clone, Copy, Debug, PartialEq, Eq)]
pub enum LbState {
    /// A packet to the front reads its client's pin.
    Forward,
    /// A packet to the front puts its client's pin, which was absent.
    Put,
    /// A packet from a backend reads its client's pin.
    Return,
}

/// A packet under way, and the backend that is chosen for its client if it has none. It is made by the function alone.
#[derive(Clone, Copy, Debug)]
pub struct LbFlight {
    pub(crate) state: LbState,
    pub(crate) packet: Packet,
    pub(crate) choice: Pair,
}

impl Model for LbFlight {
    ghost use Rattle.slnf_lb.specs.Flight.{Flying};

    ghost Value = { Flying };

    ghost view = { λ f. record { state = f.state; packet = f.packet; choice = f.choice } };

    ghost inverse = { λ v. record { state = v.state; packet = v.packet; choice = v.choice } };
}
