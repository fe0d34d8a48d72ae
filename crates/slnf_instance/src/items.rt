ghost use Rattle.std.specs.Prelude.{◌≡◌, ◌<◌};
ghost use Rattle.slnf_access.specs.Map.{CanReply};
ghost use Rattle.slnf_instance.specs.Items.{Workload, stand_of_standing};

use slnf_access::{Reply, Request};
use slnf_base::Verdict;

/// Where an item stands: it goes on as a flight, or it has ended, with a verdict or with none.
#[derive(Clone, Copy, Debug, Drop)]
pub enum Standing<F> {
    Flying(F),
    Ended(Option<Verdict>),
}

/// Items that an actor works on, numbered from 0: a lane's packets, or a sweep's ports. No call takes memory.
pub trait Items {
    /// An item under way, between two accesses.
    type Flight: Drop;

    /// What the items do, and how many there are.
    ghost work: { Self → Workload Self.Flight };

    /// How the item with this number begins.
    fn begin(&self, number: usize) -> Standing<Self::Flight>
        requires { number < (work self.now).count }
        ensures { stand_of_standing result ≡ (work self.now).begins number };

    /// The access that an item under way makes next.
    fn next(&self, flight: &Self::Flight) -> Request
        ensures { result ≡ (work self.now).machine.asks flight.now };

    /// Where an item stands after the reply to its access.
    fn after(&self, flight: Self::Flight, reply: Reply) -> Standing<Self::Flight>
        requires { CanReply ((work self.now).machine.asks flight) reply }
        ensures { stand_of_standing result ≡ (work self.now).machine.goes flight reply };
}
