use crate::{first_disorder, first_false_reply};
use slnf_access::{Entry, Key, Reply, Request, Value};
use std::hash::RandomState;
use std::test::Fail;

const VALUE: Value = Value(7);

const OTHER: Value = Value(8);

fn entry(stamp: u64, key: u128, request: Request, reply: Reply) -> Entry {
    Entry {
        stamp,
        shard: (key % 2) as u32,
        incarnation: 0,
        item: 0,
        request,
        reply,
    }
}

fn read(stamp: u64, key: u128, reply: Reply) -> Entry {
    entry(stamp, key, Request::Read { key: Key(key) }, reply)
}

fn put(stamp: u64, key: u128, value: Value, reply: Reply) -> Entry {
    let request = Request::PutIfAbsent {
        key: Key(key),
        value,
    };
    entry(stamp, key, request, reply)
}

fn delete(stamp: u64, key: u128, version: u64, reply: Reply) -> Entry {
    let request = Request::DeleteIf {
        key: Key(key),
        version,
    };
    entry(stamp, key, request, reply)
}

#[test]
fn entries_go_by_stamp_and_shard(rt: HostRuntime) {
    let one = read(1, 4, Reply::Absent);
    let two = read(1, 5, Reply::Absent);
    let three = read(2, 4, Reply::Absent);
    assert_eq!(rt; first_disorder(&[one, two, three], 2), None);
    assert_eq!(rt; first_disorder(&[two, one], 2), Some(2));
    assert_eq!(rt; first_disorder(&[one, three, three], 2), Some(3));
    assert_eq!(rt; first_disorder(&[one, two], 1), Some(2));
    assert_eq!(rt; first_disorder(&[read(0, 4, Reply::Absent)], 2), Some(1));
    assert_eq!(rt;
        first_disorder(&[read(1 << 62, 4, Reply::Absent)], 2),
        Some(1)
    );
    assert_eq!(rt; first_disorder(&[], 1), None);
}

#[test]
fn replies_are_the_maps(rt: HostRuntime) -> Result<(), Fail> {
    let entries = [
        read(1, 4, Reply::Absent),
        put(2, 4, VALUE, Reply::Done(2)),
        put(3, 5, OTHER, Reply::Done(3)),
        put(4, 4, OTHER, Reply::Found(VALUE, 2)),
        delete(5, 4, 2, Reply::Done(5)),
        read(6, 4, Reply::Absent),
        read(7, 5, Reply::Found(OTHER, 3)),
    ];
    let state = RandomState::new(&rt)?;
    assert_eq!(rt; first_false_reply(rt.alloc(), state, &entries)?, None);
    let mut changed = entries;
    changed[5].reply = Reply::Found(VALUE, 2);
    let state = RandomState::new(&rt)?;
    assert_eq!(rt; first_false_reply(rt.alloc(), state, &changed)?, Some(6));
    changed = entries;
    changed[1].reply = Reply::Done(1);
    let state = RandomState::new(&rt)?;
    assert_eq!(rt; first_false_reply(rt.alloc(), state, &changed)?, Some(2));
    Ok(())
}
