use super::*;
use slnf_access::{Entry, Function, Key, ListStore, Reply, Request, Start, Step, Value};
use slnf_base::{Change, NoMemory, Packet, Pair, Prefix, Proto, Reason, Row, Verdict};
use slnf_box::Policy;
use slnf_fw_table::Rule;
use std::alloc::Global;
use std::test::Fail;

const KEY: Key = Key(0x0306_0000_c633_6407_0050_0a00_0005_1388);

const CLIENT: Pair = Pair {
    addr: 0x0a00_0005,
    port: 5000,
};

const SERVER: Pair = Pair {
    addr: 0xc633_6407,
    port: 80,
};

const KEPT: Verdict = Verdict::Emit(Change::Keep);

fn from_client(flags: u8) -> Packet {
    Packet {
        proto: Proto::Tcp,
        source: CLIENT,
        dest: SERVER,
        flags,
    }
}

fn from_server(flags: u8) -> Packet {
    Packet {
        proto: Proto::Tcp,
        source: SERVER,
        dest: CLIENT,
        flags,
    }
}

// The inside is 10.0.0.0/8, and one rule permits all TCP out.
fn firewall(alloc: Global) -> Result<FwFunction, NoMemory> {
    let tcp_out = Rule {
        permit: true,
        outbound: true,
        proto: 6,
        source: 0,
        source_bits: 0,
        dest: 0,
        dest_bits: 0,
        low: 0,
        high: 65535,
    };
    let policy = Policy {
        inside: Prefix {
            addr: 0x0a00_0000,
            bits: 8,
        },
        rules: Row::from_vec(vec![in alloc; tcp_out]?),
    };
    Ok(FwFunction { policy })
}

// One more access of a packet under way.
fn access(
    function: &FwFunction,
    store: &mut ListStore,
    incarnation: u32,
    item: u32,
    flight: FwFlight,
) -> Result<Step<FwFlight>, NoMemory> {
    let request = function.next(&flight);
    let reply = store.access(u64::from(incarnation), u64::from(item), request)?;
    Ok(function.after(flight, reply))
}

// Where a packet stands after its first access.
fn looked(
    function: &FwFunction,
    store: &mut ListStore,
    incarnation: u32,
    item: u32,
    packet: Packet,
) -> Result<Step<FwFlight>, NoMemory> {
    match function.start(u64::from(incarnation), u64::from(item), &packet) {
        Start::Over(reason) => Ok(Step::Over(Verdict::Dropped(reason))),
        Start::Go(flight) => access(function, store, incarnation, item, flight),
    }
}

// One more access, where the packet is under way.
fn further(
    function: &FwFunction,
    store: &mut ListStore,
    incarnation: u32,
    item: u32,
    step: Step<FwFlight>,
) -> Result<Step<FwFlight>, NoMemory> {
    match step {
        Step::Over(verdict) => Ok(Step::Over(verdict)),
        Step::Go(flight) => access(function, store, incarnation, item, flight),
    }
}

fn verdict_in(step: Step<FwFlight>) -> Option<Verdict> {
    match step {
        Step::Over(verdict) => Some(verdict),
        Step::Go(_) => None,
    }
}

// A packet's verdict, where it has one after at most two accesses.
fn verdict_of(
    function: &FwFunction,
    store: &mut ListStore,
    incarnation: u32,
    item: u32,
    packet: Packet,
) -> Result<Option<Verdict>, NoMemory> {
    let step = looked(function, store, incarnation, item, packet)?;
    Ok(verdict_in(further(function, store, incarnation, item, step)?))
}

// The entry is a write on the key of this state, done with this version.
fn is_write(entry: &Entry, state: u128, version: u64) -> bool {
    let (key, value) = match entry.request {
        Request::PutIfAbsent { key, value } => (key, value),
        Request::ReplaceIf {
            key,
            version: _,
            value,
        } => (key, value),
        _ => return false,
    };
    key == KEY && value == Value(state) && entry.reply == Reply::Done(version)
}

#[test]
fn a_whole_connection_at_three_instances(rt: HostRuntime) -> Result<(), Fail> {
    let function = firewall(rt.alloc())?;
    let mut store = ListStore::make(rt.alloc(), 1);
    let steps = [
        (0, 0, from_client(0x02), 1),
        (1, 0, from_server(0x12), 2),
        (0, 1, from_client(0x10), 3),
        (2, 0, from_client(0x11), 4),
        (1, 1, from_server(0x11), 6),
        (2, 1, from_client(0x10), 7),
    ];
    for (incarnation, item, packet, state) in steps {
        assert_eq!(rt;
            verdict_of(&function, &mut store, incarnation, item, packet)?,
            Some(KEPT)
        );
        let entries = store.entries();
        let last = entries.last().ok_or("no entry")?;
        assert!(rt; is_write(last, state, entries.len() as u64));
    }
    assert_eq!(rt; store.entries().len(), 12);
    Ok(())
}

// Both sides' FIN+ACK find the connection open. The client's is written first, and the server's goes on from there.
#[test]
fn two_replaces_at_once(rt: HostRuntime) -> Result<(), Fail> {
    let function = firewall(rt.alloc())?;
    let mut store = ListStore::make(rt.alloc(), 1);
    assert_eq!(rt;
        verdict_of(&function, &mut store, 0, 0, from_client(0x02))?,
        Some(KEPT)
    );
    assert_eq!(rt;
        verdict_of(&function, &mut store, 1, 0, from_server(0x12))?,
        Some(KEPT)
    );
    assert_eq!(rt;
        verdict_of(&function, &mut store, 0, 1, from_client(0x10))?,
        Some(KEPT)
    );
    let client = looked(&function, &mut store, 0, 2, from_client(0x11))?;
    let server = looked(&function, &mut store, 1, 1, from_server(0x11))?;
    let client = further(&function, &mut store, 0, 2, client)?;
    assert_eq!(rt; verdict_in(client), Some(KEPT));
    let server = further(&function, &mut store, 1, 1, server)?;
    assert_eq!(rt; verdict_in(server), None);
    let server = further(&function, &mut store, 1, 1, server)?;
    assert_eq!(rt; verdict_in(server), Some(KEPT));
    let [.., ninth, tenth, eleventh] = store.entries() else {
        return Err("too few entries".into());
    };
    assert!(rt; is_write(ninth, 4, 9));
    assert_eq!(rt;
        tenth.request,
        Request::ReplaceIf {
            key: KEY,
            version: 6,
            value: Value(5),
        }
    );
    assert_eq!(rt; tenth.reply, Reply::Found(Value(4), 9));
    assert!(rt; is_write(eleventh, 6, 11));
    Ok(())
}

#[test]
fn a_lone_inbound_ack_has_no_connection(rt: HostRuntime) -> Result<(), Fail> {
    let function = firewall(rt.alloc())?;
    let mut store = ListStore::make(rt.alloc(), 1);
    assert_eq!(rt;
        verdict_of(&function, &mut store, 0, 0, from_server(0x10))?,
        Some(Verdict::Dropped(Reason::NoConn))
    );
    assert_eq!(rt; store.entries().len(), 1);
    Ok(())
}
