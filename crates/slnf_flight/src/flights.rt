ghost use Rattle.slnf_flight.specs.Flights.{IsPacketFlight};

use slnf_fw::FwFlight;
use slnf_lb::LbFlight;
use slnf_nat::NatFlight;

/// A packet under way, of one of the functions.
#[derive(Debug, Drop)]
pub enum AnyFlight {
    Nat(NatFlight),
    Firewall(FwFlight),
    Balancer(LbFlight),
}

impl AnyFlight {
    /// The flight is a packet's, and no sweep's port's. It does nothing.
    pub fn know_packet(&self)
        ensures { IsPacketFlight self.now }
    {
        match self {
            AnyFlight::Nat(flight) => flight.know_packet(),
            AnyFlight::Firewall(_) => {}
            AnyFlight::Balancer(_) => {}
        }
    }
}
