ghost use Rattle.std.specs.Prelude.{◌<◌, ◌*◌};
ghost use Rattle.slnf_box.specs.Pools.{port_count};

use crate::Sweep;
use slnf_access::{Entry, Key, ListStore, Reply, Request, Value};
use slnf_base::{NoMemory, Pool, Prefix};
use std::test::Fail;

/// Ports 40000 and 40001 of 203.0.113.1, for 10.0.0.0/8, in an epoch whose first incarnation is 1.
const SWEEP: Sweep = Sweep {
    pool: Pool {
        inside: Prefix {
            addr: 0x0a00_0000,
            bits: 8,
        },
        outside: 0xcb00_7101,
        low: 40000,
        high: 40001,
    },
    base: 1,
};

const FLOW: Key = Key(0x0106_0000_0000_0000_0000_0a00_0005_1388);

const OTHER_FLOW: Key = Key(0x0106_0000_0000_0000_0000_0a00_0006_1388);

const FIRST_PORT: Key = Key(0x0206_0000_0000_0000_0000_cb00_7101_9c40);

const SECOND_PORT: Key = Key(0x0206_0000_0000_0000_0000_cb00_7101_9c41);

const FIRST_UDP_PORT: Key = Key(0x0211_0000_0000_0000_0000_cb00_7101_9c40);

const SECOND_UDP_PORT: Key = Key(0x0211_0000_0000_0000_0000_cb00_7101_9c41);

const OLD_CLAIM: Value = Value(0x0a00_0005_1388);

const OWN_CLAIM: Value = Value(0x0001_0a00_0006_1388);

/// Makes an item's accesses, at most three, as incarnation 2. Answers whether the item is done then.
fn sweep(store: &mut ListStore, item: u64) -> Result<bool, NoMemory>
    requires { item < 4 }
{
    let mut standing = Some(SWEEP.start(item));
    for _ in 0..3 {
        if let Some(flight) = standing {
            let reply = store.access(2, item, SWEEP.next(&flight))?;
            standing = SWEEP.after(flight, reply);
        }
    }
    Ok(standing.is_none())
}

/// An entry's item, request and reply.
fn seen(entry: &Entry) -> (u64, Request, Reply) {
    (entry.item, entry.request, entry.reply)
}

/// A packet of an earlier epoch was stopped after its claim, and one of this epoch has its claim and no record yet.
#[test]
fn the_claim_of_a_lost_packet_is_taken_away(rt: HostRuntime) -> Result<(), Fail> {
    let mut store = ListStore::make(rt.alloc(), 1);
    store.access(0, 0, read(FLOW))?;
    store.access(0, 0, put(SECOND_PORT, OLD_CLAIM))?;
    store.access(1, 0, read(OTHER_FLOW))?;
    store.access(1, 0, put(FIRST_PORT, OWN_CLAIM))?;
    for item in 0..4 {
        assert!(rt; sweep(&mut store, item)?);
    }
    let entries = store.entries();
    assert_eq!(rt; entries.len(), 10);
    assert_eq!(rt;
        seen(&entries[4]),
        (0, read(FIRST_PORT), Reply::Found(OWN_CLAIM, 4))
    );
    assert_eq!(rt;
        seen(&entries[5]),
        (1, read(SECOND_PORT), Reply::Found(OLD_CLAIM, 2))
    );
    assert_eq!(rt; seen(&entries[6]), (1, read(FLOW), Reply::Absent));
    let delete = Request::DeleteIf {
        key: SECOND_PORT,
        version: 2,
    };
    assert_eq!(rt; seen(&entries[7]), (1, delete, Reply::Done(8)));
    assert_eq!(rt; seen(&entries[8]), (2, read(FIRST_UDP_PORT), Reply::Absent));
    assert_eq!(rt;
        seen(&entries[9]),
        (3, read(SECOND_UDP_PORT), Reply::Absent)
    );
    Ok(())
}

fn read(key: Key) -> Request {
    Request::Read { key }
}

fn put(key: Key, value: Value) -> Request {
    Request::PutIfAbsent { key, value }
}
