ghost use Rattle.std.specs.Prelude.{◌≡◌, ◌≤◌, length, IfOk, IsTrue};
ghost use Rattle.std.specs.List.{list_all};
ghost use Rattle.slnf_flight.specs.Ranges.{is_taken};

use crate::{At, Refusal, first_break};
use slnf_access::{Entry, Key, Reply, Request, Value};
use slnf_base::{Packet, Pair, Proto, Row};
use slnf_flight::{Lane, Taken};
use slnf_plan::read_plan;
use std::alloc::Global;
use std::hash::RandomState;
use std::test::Fail;

const BALANCER: &str =
    "function = \"balancer\"\nbalancer = { proto = \"udp\", service = \"198.51.100.10:53\", backends = [\"10.1.0.1:53\", \"10.1.0.2:53\"] }\n";

const TWO_INSTANCES: &str =
    "shards = 1\nepoch = [{ instances = [{ lane = 0 }, { lane = 1 }], schedule = [0, 1, 0, 1] }]";

const NAT_OF_TWO: &str =
    "function = \"nat\"\nnat = { inside = \"10.0.0.0/8\", outside = \"203.0.113.1\", ports = [40000, 40001] }\n";

const SWEPT: &str =
    "shards = 1\nepoch = [{ instances = [{ lane = 0, stop = 2 }] }, { instances = [{ lane = 1 }], sweep = true }]";

/// Keys and values: the pins of both clients, the flows of both inside pairs, the claims of the ports, and what they
/// hold.
const PIN: Key = Key(0x0411_0000_0000_0000_0000_c000_0201_0fa0);

const OTHER_PIN: Key = Key(0x0411_0000_0000_0000_0000_c000_0201_0fa1);

const PINNED: Value = Value(0x0a01_0001_0035);

const OTHER_PINNED: Value = Value(0x0a01_0002_0035);

const FLOW: Key = Key(0x0106_0000_0000_0000_0000_0a00_0005_1388);

const OTHER_FLOW: Key = Key(0x0106_0000_0000_0000_0000_0a00_0006_1388);

const FIRST_PORT: Key = Key(0x0206_0000_0000_0000_0000_cb00_7101_9c40);

const SECOND_PORT: Key = Key(0x0206_0000_0000_0000_0000_cb00_7101_9c41);

const FIRST_UDP_PORT: Key = Key(0x0211_0000_0000_0000_0000_cb00_7101_9c40);

const SECOND_UDP_PORT: Key = Key(0x0211_0000_0000_0000_0000_cb00_7101_9c41);

const CLAIM: Value = Value(0x0a00_0005_1388);

const OTHER_CLAIM: Value = Value(0x0001_0a00_0006_1388);

const TO_FIRST: Value = Value(0xcb00_7101_9c40);

/// A UDP packet of 192.0.2.1 to the service.
fn query(port: u16) -> Taken
    ensures { IsTrue (is_taken result) }
{
    Taken::Seen(Packet {
        proto: Proto::Udp,
        source: Pair {
            addr: 0xc000_0201,
            port,
        },
        dest: Pair {
            addr: 0xc633_640a,
            port: 53,
        },
        flags: 0,
    })
}

/// A TCP SYN of this inside address.
fn syn(addr: u32) -> Taken
    ensures { IsTrue (is_taken result) }
{
    Taken::Seen(Packet {
        proto: Proto::Tcp,
        source: Pair { addr, port: 5000 },
        dest: Pair {
            addr: 0xc633_6407,
            port: 80,
        },
        flags: 0x02,
    })
}

fn lane(alloc: Global, packets: &[Taken]) -> Result<Lane, Fail>
    requires fits { IsTrue (list_all is_taken packets.now) }
    ensures { IfOk result (λ lane. lane.packets ≡ packets.now) }
{
    Ok(Lane {
        packets: Row::from_vec(Vec::from_slice(alloc, packets)?),
    })
}

/// What is broken in entries of a plan over two lanes.
fn broken(
    rt: &HostRuntime,
    function: &str,
    epochs: &str,
    first: &[Taken],
    second: &[Taken],
    entries: &[Entry],
) -> Result<Option<Refusal>, Fail>
    requires first { IsTrue (list_all is_taken first.now) }
    requires second { IsTrue (list_all is_taken second.now) }
    requires first_few { length first.now ≤ 4 }
    requires second_few { length second.now ≤ 4 }
{
    let alloc = rt.alloc();
    let text = format!(in alloc; "{function}{epochs}")?;
    let plan = read_plan(alloc, text.as_bytes()).map_err(|_| "it is a plan")?;
    let lanes = [lane(alloc, first)?, lane(alloc, second)?];
    let state = RandomState::new(rt)?;
    Ok(first_break(alloc, state, &plan, &lanes, entries)?)
}

fn read(key: Key) -> Request {
    Request::Read { key }
}

fn put(key: Key, value: Value) -> Request {
    Request::PutIfAbsent { key, value }
}

/// An entry by its stamp, incarnation and item in the one shard.
fn entry(numbers: [u64; 3], request: Request, reply: Reply) -> Entry {
    let [stamp, incarnation, item] = numbers;
    Entry {
        stamp,
        shard: 0,
        incarnation,
        item,
        request,
        reply,
    }
}

fn refused(rule: u8, at: At) -> Option<Refusal> {
    Some(Refusal { rule, at })
}

/// Two instances, each with a first packet of one client.
fn journal() -> [Entry; 4] {
    [
        entry([1, 0, 0], read(PIN), Reply::Absent),
        entry([2, 1, 0], read(PIN), Reply::Absent),
        entry([3, 0, 0], put(PIN, PINNED), Reply::Done(3)),
        entry([4, 1, 0], put(PIN, OTHER_PINNED), Reply::Found(PINNED, 3)),
    ]
}

#[test]
fn each_rule_is_told_with_its_place(rt: HostRuntime) -> Result<(), Fail> {
    let lane = [query(4000)];
    let told = |entries: &[Entry]| broken(&rt, BALANCER, TWO_INSTANCES, &lane, &lane, entries);
    assert_eq!(rt; told(&journal())?, None);
    let mut changed = journal();
    changed[3].stamp = 3;
    assert_eq!(rt; told(&changed)?, refused(2, At::Entry(4)));
    changed = journal();
    changed[1].shard = 1;
    assert_eq!(rt; told(&changed)?, refused(2, At::Entry(2)));
    changed = journal();
    changed[3].reply = Reply::Found(OTHER_PINNED, 3);
    assert_eq!(rt; told(&changed)?, refused(3, At::Entry(4)));
    changed = journal();
    changed[3].request = put(PIN, PINNED);
    assert_eq!(rt; told(&changed)?, refused(4, At::Entry(4)));
    changed = journal();
    changed[2].incarnation = 2;
    assert_eq!(rt; told(&changed)?, refused(4, At::Entry(3)));
    assert_eq!(rt; told(&journal()[..3])?, refused(5, At::Incarnation(1)));
    assert_eq!(rt; told(&[])?, refused(5, At::Incarnation(0)));
    Ok(())
}

#[test]
fn a_round_may_go_in_any_order(rt: HostRuntime) -> Result<(), Fail> {
    let entries = [
        entry([1, 0, 1], read(OTHER_PIN), Reply::Absent),
        entry([2, 0, 1], put(OTHER_PIN, OTHER_PINNED), Reply::Done(2)),
        entry([3, 0, 0], read(PIN), Reply::Absent),
        entry([4, 0, 0], put(PIN, PINNED), Reply::Done(4)),
        entry([5, 0, 2], read(PIN), Reply::Found(PINNED, 4)),
    ];
    let lane = [query(4000), query(4001), query(4000)];
    let epochs = "shards = 1\nbatch = 3\nepoch = [{ instances = [{ lane = 0 }] }]";
    let told = |entries: &[Entry]| broken(&rt, BALANCER, epochs, &lane, &[], entries);
    assert_eq!(rt; told(&entries)?, None);
    // The third packet is of the next batch.
    let early = entry([4, 0, 2], read(PIN), Reply::Absent);
    let changed = [entries[0], entries[1], entries[2], early];
    assert_eq!(rt; told(&changed)?, refused(4, At::Entry(4)));
    assert_eq!(rt; told(&entries[..4])?, refused(5, At::Incarnation(0)));
    Ok(())
}

#[test]
fn a_sweep_and_a_stop_are_followed(rt: HostRuntime) -> Result<(), Fail> {
    let delete = Request::DeleteIf {
        key: SECOND_PORT,
        version: 2,
    };
    let entries = [
        entry([1, 0, 0], read(FLOW), Reply::Absent),
        entry([2, 0, 0], put(SECOND_PORT, CLAIM), Reply::Done(2)),
        entry([3, 1, 0], read(OTHER_FLOW), Reply::Absent),
        entry([4, 1, 0], put(FIRST_PORT, OTHER_CLAIM), Reply::Done(4)),
        entry([5, 2, 0], read(FIRST_PORT), Reply::Found(OTHER_CLAIM, 4)),
        entry([6, 2, 1], read(SECOND_PORT), Reply::Found(CLAIM, 2)),
        entry([7, 2, 1], read(FLOW), Reply::Absent),
        entry([8, 2, 1], delete, Reply::Done(8)),
        entry([9, 1, 0], put(OTHER_FLOW, TO_FIRST), Reply::Done(9)),
        entry([10, 2, 2], read(FIRST_UDP_PORT), Reply::Absent),
        entry([11, 2, 3], read(SECOND_UDP_PORT), Reply::Absent),
    ];
    let first = [syn(0x0a00_0005)];
    let second = [syn(0x0a00_0006)];
    let told = |entries: &[Entry]| broken(&rt, NAT_OF_TWO, SWEPT, &first, &second, entries);
    assert_eq!(rt; told(&entries)?, None);
    // The stopped actor makes no third entry, and the next epoch waits for its stop.
    let third = entry([3, 0, 0], put(FLOW, TO_FIRST), Reply::Done(3));
    assert_eq!(rt;
        told(&[entries[0], entries[1], third])?,
        refused(4, At::Entry(3))
    );
    let next = entry([2, 1, 0], read(OTHER_FLOW), Reply::Absent);
    assert_eq!(rt; told(&[entries[0], next])?, refused(4, At::Entry(2)));
    // A port in hand comes to its end first.
    assert_eq!(rt; told(&entries[..10])?, refused(5, At::Incarnation(2)));
    Ok(())
}
