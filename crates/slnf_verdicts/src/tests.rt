ghost use Rattle.std.specs.Prelude.{◌≡◌, ◌<◌, length, IfOk};

use crate::batches::taken;
use crate::tasks::Task;
use slnf_access::{Entry, Key, Reply, Request};
use slnf_base::{Packet, Pair, Proto, Row, Service};
use slnf_flight::Taken;
use slnf_lb::LbFunction;
use std::alloc::Global;
use std::test::Fail;

const FRONT: Pair = Pair {
    addr: 0xc633_640a,
    port: 53,
};

const BACKEND: Pair = Pair {
    addr: 0x0a01_0001,
    port: 53,
};

/// A balancer with one backend.
fn balancer(alloc: Global) -> Result<LbFunction, Fail> {
    Ok(LbFunction {
        service: Service {
            proto: Proto::Udp,
            front: FRONT,
            backends: Row::from_vec([BACKEND].to_vec(alloc)?),
        },
        active: Row::from_vec([BACKEND].to_vec(alloc)?),
    })
}

/// A packet of a client to the service.
fn packet(client: u32) -> Taken {
    Taken::Seen(Packet {
        proto: Proto::Udp,
        source: Pair {
            addr: client,
            port: 4000,
        },
        dest: FRONT,
        flags: 0,
    })
}

/// An entry of an item.
fn entry(item: u64) -> Entry {
    Entry {
        stamp: 1,
        shard: 0,
        incarnation: 0,
        item,
        request: Request::Read { key: Key(0) },
        reply: Reply::Absent,
    }
}

/// What an actor does that takes four packets in batches of at most four, and stops after so many accesses.
fn four(stop: Option<u64>) -> Task
    ensures at { result.at ≡ 0 }
    ensures count { result.count ≡ 4 }
    ensures batch { result.batch ≡ 4 }
{
    Task {
        at: 0,
        count: 4,
        batch: 4,
        stop,
    }
}

#[test]
fn a_stopped_actor_took_whole_batches(rt: HostRuntime) -> Result<(), Fail> {
    let alloc = rt.alloc();
    let function = balancer(alloc)?;
    let packets = [packet(1), packet(2), packet(1), packet(2)];
    let first = taken(alloc, &function, 0, &packets, &four(Some(1)), &[entry(0)])?;
    assert_eq!(rt; first, 2);
    let second = taken(alloc, &function, 0, &packets, &four(Some(1)), &[entry(2)])?;
    assert_eq!(rt; second, 4);
    let none = taken(alloc, &function, 0, &packets, &four(Some(0)), &[])?;
    assert_eq!(rt; none, 0);
    let all = taken(alloc, &function, 0, &packets, &four(Some(2)), &[entry(0)])?;
    assert_eq!(rt; all, 4);
    Ok(())
}
