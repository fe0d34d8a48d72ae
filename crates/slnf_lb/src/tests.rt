ghost use Rattle.std.specs.Prelude.{◌<◌, ◌^◌};

use crate::LbFunction;
use slnf_access::{Function, Key, ListStore, Request, Start, Step, Value};
use slnf_base::{Change, NoMemory, Packet, Pair, Proto, Reason, Row, Service, Verdict};
use std::test::Fail;

const FRONT: Pair = Pair {
    addr: 0xc633_640a,
    port: 53,
};

const BACKENDS: [Pair; 2] = [
    Pair {
        addr: 0x0a01_0001,
        port: 53,
    },
    Pair {
        addr: 0x0a01_0002,
        port: 53,
    },
];

const CLIENT: Pair = Pair {
    addr: 0xc000_0201,
    port: 4000,
};

/// The verdict of a packet that makes one access.
fn verdict_of(
    function: &LbFunction,
    store: &mut ListStore,
    number: u64,
    packet: &Packet,
) -> Result<Option<Verdict>, NoMemory>
    requires { number < 2 ^ 32 }
{
    match function.start(0, number, packet) {
        Start::Over(_) => Ok(None),
        Start::Go(flight) => {
            let reply = store.access(0, number, function.next(&flight))?;
            match function.after(flight, reply) {
                Step::Go(_) => Ok(None),
                Step::Over(verdict) => Ok(Some(verdict)),
            }
        }
    }
}

/// The client's pin is its first backend: that one's packets come from the front, and the other's are dropped.
#[test]
fn packets_come_back_from_the_pinned_backend(rt: HostRuntime) -> Result<(), Fail> {
    let function = LbFunction {
        service: Service {
            proto: Proto::Udp,
            front: FRONT,
            backends: Row::from_vec(Vec::from_slice(rt.alloc(), &BACKENDS)?),
        },
        active: Row::from_vec(Vec::from_slice(rt.alloc(), &BACKENDS)?),
    };
    let mut store = ListStore::make(rt.alloc(), 1);
    let pin = Request::PutIfAbsent {
        key: Key(0x0411_0000_0000_0000_0000_c000_0201_0fa0),
        value: Value(0x0a01_0001_0035),
    };
    store.access(0, 0, pin)?;
    let verdicts = [
        Verdict::Emit(Change::Source(FRONT)),
        Verdict::Dropped(Reason::NotPinned),
    ];
    for (place, wanted) in verdicts.iter().enumerate() {
        let packet = Packet {
            proto: Proto::Udp,
            source: BACKENDS[place],
            dest: CLIENT,
            flags: 0,
        };
        let found = verdict_of(&function, &mut store, 2 + place as u64, &packet)?;
        assert_eq!(rt; found, Some(*wanted));
    }
    Ok(())
}
