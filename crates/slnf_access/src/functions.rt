ghost use Rattle.std.specs.Prelude.{◌≡◌, ◌^◌, ◌<◌, ℕ};
ghost use Rattle.slnf_base.specs.declared.packets.Packet.{Packet};
ghost use Rattle.slnf_base.specs.declared.packets.Reason.TheVariants.{Neither};
ghost use Rattle.slnf_base.specs.declared.packets.Reason.{Reason};
ghost use Rattle.slnf_access.specs.declared.functions.Start.TheVariants.{Over as StartOver};
ghost use Rattle.slnf_access.specs.Map.{CanReply};
ghost use Rattle.slnf_access.specs.Machines.{Behaviour};

use crate::requests::{Reply, Request};
use slnf_base::{Packet, Reason, Verdict};

/// How a packet begins: with a first access, or dropped without one.
#[derive(Clone, Copy, Debug, Drop)]
pub enum Start<F> {
    Go(F),
    Over(Reason),
}

/// How a packet goes on after a reply: with another access, or with its verdict.
#[derive(Clone, Copy, Debug, Drop)]
pub enum Step<F> {
    Go(F),
    Over(Verdict),
}

/// A network function: how a packet's accesses follow from the replies, and with which verdict they end.
/// None of its calls takes memory.
pub trait Function {
    /// A packet under way, between two accesses.
    type Flight: Drop;

    /// What the function does with packets.
    ghost behaviour: { Self → Behaviour Self.Flight };

    /// The packet's first flight, or `Neither` where it has no direction of the function.
    fn start(&self, incarnation: u64, number: u64, packet: &Packet) -> Start<Self::Flight>
        requires incarnation { incarnation < 2 ^ 32 }
        requires number { number < 2 ^ 32 }
        ensures { result ≡ (behaviour self.now).begins incarnation number packet.now };

    /// The access that the flight makes next.
    fn next(&self, flight: &Self::Flight) -> Request
        ensures { result ≡ (behaviour self.now).asks flight.now };

    /// The flight after the reply, or its verdict.
    fn after(&self, flight: Self::Flight, reply: Reply) -> Step<Self::Flight>
        requires { CanReply ((behaviour self.now).asks flight) reply }
        ensures { result ≡ (behaviour self.now).goes flight reply };

    /// A packet is refused for want of a direction alone.
    ghost refuses: { (function : Self) (incarnation number : ℕ) (packet : Packet) (reason : Reason)
        → (behaviour function).begins incarnation number packet ≡ StartOver reason → reason ≡ Neither };
}
