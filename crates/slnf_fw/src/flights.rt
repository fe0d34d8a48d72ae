use slnf_base::Packet;
use slnf_box::Tracked;
use std::marker::Model;

/// The state of a firewall's packet: the access that it makes next.
#[derive(Clone, Copy, Debug, PartialEq, Eq)]
pub enum FwState {
    /// It reads what is kept of its connection.
    Look,
    /// It puts in a new connection.
    Add(Tracked),
    /// It replaces the connection that it found with this version.
    Alter(u64, Tracked),
}

/// A packet under way. It is made by the function alone.
#[derive(Clone, Copy, Debug)]
pub struct FwFlight {
    pub(crate) state: FwState,
    pub(crate) packet: Packet,
}

impl Model for FwFlight {
    ghost use Rattle.slnf_fw.specs.Flight.{Flying};

    ghost Value = { Flying };

    ghost view = { λ f. record { state = f.state; packet = f.packet } };

    ghost inverse = { λ v. record { state = v.state; packet = v.packet } };
}
