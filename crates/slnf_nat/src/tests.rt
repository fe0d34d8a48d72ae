ghost use Rattle.std.specs.Prelude.{◌<◌, ◌^◌};

use crate::{NatFlight, NatFunction};
use slnf_access::{Entry, Function, Key, ListStore, Reply, Request, Start, Step, Value};
use slnf_base::{Change, NoMemory, Packet, Pair, Pool, Prefix, Proto, Verdict};
use std::test::Fail;

/// Ports 40000 to 40003 of 203.0.113.1, for 10.0.0.0/8.
const POOL: Pool = Pool {
    inside: Prefix {
        addr: 0x0a00_0000,
        bits: 8,
    },
    outside: 0xcb00_7101,
    low: 40000,
    high: 40003,
};

const INSIDE: Pair = Pair {
    addr: 0x0a00_0005,
    port: 5000,
};

const OUTSIDE: Pair = Pair {
    addr: 0xcb00_7101,
    port: 40001,
};

const SERVER: Pair = Pair {
    addr: 0xc633_6407,
    port: 80,
};

const SYN: Packet = Packet {
    proto: Proto::Tcp,
    source: INSIDE,
    dest: SERVER,
    flags: 2,
};

const ANSWER: Packet = Packet {
    proto: Proto::Tcp,
    source: SERVER,
    dest: OUTSIDE,
    flags: 18,
};

const FLOW: Key = Key(0x0106_0000_0000_0000_0000_0a00_0005_1388);

const FIRST_PORT: Key = Key(0x0206_0000_0000_0000_0000_cb00_7101_9c41);

const SECOND_PORT: Key = Key(0x0206_0000_0000_0000_0000_cb00_7101_9c42);

const CLAIM: Value = Value(0x0a00_0005_1388);

const OTHER_CLAIM: Value = Value(0x0001_0a00_0005_1388);

const FIRST: Value = Value(0xcb00_7101_9c41);

const SECOND: Value = Value(0xcb00_7101_9c42);

/// How an incarnation's packet begins.
fn begin(nat: &NatFunction, incarnation: u64, packet: &Packet) -> Step<NatFlight>
    requires { incarnation < 2 ^ 32 }
{
    match nat.start(incarnation, 0, packet) {
        Start::Go(flight) => Step::Go(flight),
        Start::Over(reason) => Step::Over(Verdict::Dropped(reason)),
    }
}

/// Makes the packet's next access, where it is under way.
fn turn(
    store: &mut ListStore,
    nat: &NatFunction,
    incarnation: u64,
    standing: Step<NatFlight>,
) -> Result<Step<NatFlight>, NoMemory> {
    match standing {
        Step::Go(flight) => {
            let reply = store.access(incarnation, 0, nat.next(&flight))?;
            Ok(nat.after(flight, reply))
        }
        Step::Over(verdict) => Ok(Step::Over(verdict)),
    }
}

/// The verdict of a packet that has ended.
fn verdict(standing: &Step<NatFlight>) -> Option<Verdict> {
    match standing {
        Step::Go(_) => None,
        Step::Over(verdict) => Some(*verdict),
    }
}

/// An entry's incarnation, request and reply.
fn seen(entry: &Entry) -> (u64, Request, Reply) {
    (entry.incarnation, entry.request, entry.reply)
}

#[test]
fn a_flow_goes_out_and_its_answer_comes_back(rt: HostRuntime) -> Result<(), Fail> {
    let nat = NatFunction { pool: POOL };
    let mut store = ListStore::make(rt.alloc(), 1);
    let mut syn = begin(&nat, 0, &SYN);
    let mut answer = begin(&nat, 1, &ANSWER);
    for _ in 0..3 {
        syn = turn(&mut store, &nat, 0, syn)?;
    }
    for _ in 0..2 {
        answer = turn(&mut store, &nat, 1, answer)?;
    }
    assert_eq!(rt; verdict(&syn), Some(Verdict::Emit(Change::Source(OUTSIDE))));
    assert_eq!(rt; verdict(&answer), Some(Verdict::Emit(Change::Dest(INSIDE))));
    let entries = store.entries();
    assert_eq!(rt; entries.len(), 5);
    assert_eq!(rt; seen(&entries[0]), (0, read(FLOW), Reply::Absent));
    assert_eq!(rt;
        seen(&entries[1]),
        (0, put(FIRST_PORT, CLAIM), Reply::Done(2))
    );
    assert_eq!(rt; seen(&entries[2]), (0, put(FLOW, FIRST), Reply::Done(3)));
    assert_eq!(rt;
        seen(&entries[3]),
        (1, read(FIRST_PORT), Reply::Found(CLAIM, 2))
    );
    assert_eq!(rt; seen(&entries[4]), (1, read(FLOW), Reply::Found(FIRST, 3)));
    Ok(())
}

#[test]
fn of_two_in_one_flow_the_loser_releases_its_claim(rt: HostRuntime) -> Result<(), Fail> {
    let nat = NatFunction { pool: POOL };
    let mut store = ListStore::make(rt.alloc(), 1);
    let mut first = begin(&nat, 0, &SYN);
    let mut second = begin(&nat, 1, &SYN);
    for _ in 0..3 {
        first = turn(&mut store, &nat, 0, first)?;
        second = turn(&mut store, &nat, 1, second)?;
    }
    for _ in 0..2 {
        second = turn(&mut store, &nat, 1, second)?;
    }
    let emitted = Some(Verdict::Emit(Change::Source(OUTSIDE)));
    assert_eq!(rt; verdict(&first), emitted);
    assert_eq!(rt; verdict(&second), emitted);
    let entries = store.entries();
    assert_eq!(rt; entries.len(), 8);
    assert_eq!(rt;
        seen(&entries[3]),
        (1, put(FIRST_PORT, OTHER_CLAIM), Reply::Found(CLAIM, 3))
    );
    assert_eq!(rt; seen(&entries[4]), (0, put(FLOW, FIRST), Reply::Done(5)));
    assert_eq!(rt;
        seen(&entries[5]),
        (1, put(SECOND_PORT, OTHER_CLAIM), Reply::Done(6))
    );
    assert_eq!(rt;
        seen(&entries[6]),
        (1, put(FLOW, SECOND), Reply::Found(FIRST, 5))
    );
    let delete = Request::DeleteIf {
        key: SECOND_PORT,
        version: 6,
    };
    assert_eq!(rt; seen(&entries[7]), (1, delete, Reply::Done(8)));
    Ok(())
}

fn read(key: Key) -> Request {
    Request::Read { key }
}

fn put(key: Key, value: Value) -> Request {
    Request::PutIfAbsent { key, value }
}
