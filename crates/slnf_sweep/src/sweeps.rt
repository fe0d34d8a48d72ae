ghost use Rattle.std.specs.Prelude.{◌≡◌, ◌<◌, ◌*◌};
ghost use Rattle.slnf_access.specs.Machines.{Flies};
ghost use Rattle.slnf_access.specs.Map.{CanReply};
ghost use Rattle.slnf_keys.specs.Values.{claim_of, flow_to_of};
ghost use Rattle.slnf_box.specs.Pools.{nat_of, port_count};
ghost use Rattle.slnf_nat.specs.Machine.{flow_key, port_key, names, swept, nat_asks, nat_goes};
ghost use Rattle.slnf_nat.specs.Starts.{pool_port, sweep_item};
ghost use Rattle.slnf_sweep.specs.Standing.{item_stands};

use crate::flights::{PortState, SweepFlight};
use slnf_access::{Key, Reply, Request, Value};
use slnf_base::{Pair, Pool, Proto};
use slnf_box::port_count;
use slnf_keys::{Claim, FlowKey, FlowTo, PortKey};

/// A sweep of a pool in an epoch with this base, the least incarnation of the epoch. Its items are the pool's ports:
/// those of TCP in order, and then those of UDP.
#[derive(Clone, Copy, Debug)]
pub struct Sweep {
    pub pool: Pool,
    pub base: u64,
}

/// The key of a flow.
fn flow_key(proto: Proto, inside: Pair) -> Key
    ensures { result.0 ≡ flow_key proto inside }
{
    Key(FlowKey { proto, inside }.to_number())
}

/// The key of a port's claim.
fn port_key(proto: Proto, port: Pair) -> Key
    ensures { result.0 ≡ port_key proto port }
{
    let outside = port;
    Key(PortKey { proto, outside }.to_number())
}

/// Whether a flow's record is of this port. A value that is no record is of none.
fn names(port: Pair, value: Value) -> bool
    ensures { result ≡ names port (flow_to_of value.0) }
{
    match FlowTo::from_number(value.0) {
        None => false,
        Some(to) => to.outside == port,
    }
}

/// How a port goes on whose claim is this value, with this version: only a claim of an earlier epoch is looked into.
fn swept(proto: Proto, port: Pair, base: u64, version: u64, value: Value) -> Option<SweepFlight>
    ensures { item_stands result ≡ swept proto port base version (claim_of value.0) }
{
    let claim = Claim::from_number(value.0)?;
    if u64::from(claim.incarnation) < base {
        Some(SweepFlight {
            state: PortState::LookFlow(claim.inside, version),
            proto,
            port,
            base,
        })
    } else {
        None
    }
}

/// A port of the pool.
fn pool_port(pool: &Pool, place: u64) -> Pair
    requires { place < port_count pool.now }
    ensures { result ≡ pool_port pool.now place }
{
    Pair {
        addr: pool.outside,
        port: pool.low + place as u16,
    }
}

impl Sweep {
    /// How the item begins. It is below twice the number of the pool's ports.
    pub fn start(&self, item: u64) -> SweepFlight
        requires { item < 2 * port_count self.now.pool }
        ensures { Flies result ≡ sweep_item self.now.pool self.now.base item }
    {
        let count = u64::from(port_count(&self.pool));
        let (proto, place) = if item < count {
            (Proto::Tcp, item)
        } else {
            (Proto::Udp, item - count)
        };
        SweepFlight {
            state: PortState::LookPort,
            proto,
            port: pool_port(&self.pool, place),
            base: self.base,
        }
    }

    /// The access that the port makes next.
    pub fn next(&self, flight: &SweepFlight) -> Request
        ensures { result ≡ nat_asks (nat_of self.now.pool) flight.now }
    {
        match flight.state {
            PortState::LookPort => Request::Read {
                key: port_key(flight.proto, flight.port),
            },
            PortState::LookFlow(inside, _) => Request::Read {
                key: flow_key(flight.proto, inside),
            },
            PortState::Remove(version) => Request::DeleteIf {
                key: port_key(flight.proto, flight.port),
                version,
            },
        }
    }

    /// The port after the reply, and `None` when the item is done.
    pub fn after(&self, flight: SweepFlight, reply: Reply) -> Option<SweepFlight>
        requires { CanReply (nat_asks (nat_of self.now.pool) flight) reply }
        ensures { item_stands result ≡ nat_goes (nat_of self.now.pool) flight reply }
    {
        let SweepFlight {
            state,
            proto,
            port,
            base,
        } = flight;
        match state {
            PortState::LookPort => match reply {
                Reply::Found(value, version) => swept(proto, port, base, version, value),
                Reply::Absent | Reply::Done(_) => None,
            },
            PortState::LookFlow(_, version) => match reply {
                Reply::Found(value, _) if names(port, value) => None,
                _ => Some(SweepFlight {
                    state: PortState::Remove(version),
                    proto,
                    port,
                    base,
                }),
            },
            PortState::Remove(_) => None,
        }
    }
}
