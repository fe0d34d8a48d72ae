use crate::{Key, ListStore, Reply, Request, Value};
use std::test::Fail;

/// A client's pin, and two backends.
const PIN: Key = Key(0x0411_0000_0000_0000_0000_c000_0201_0fa1);

const FIRST: Value = Value(0x0a01_0001_0035);

const SECOND: Value = Value(0x0a01_0002_0035);

/// A read, a put, a replace and a delete, each where it acts and where it doesn't.
const ACCESSES: [(Request, Reply); 9] = [
    (Request::Read { key: PIN }, Reply::Absent),
    (
        Request::PutIfAbsent {
            key: PIN,
            value: FIRST,
        },
        Reply::Done(2),
    ),
    (
        Request::PutIfAbsent {
            key: PIN,
            value: SECOND,
        },
        Reply::Found(FIRST, 2),
    ),
    (
        Request::ReplaceIf {
            key: PIN,
            version: 1,
            value: SECOND,
        },
        Reply::Found(FIRST, 2),
    ),
    (
        Request::ReplaceIf {
            key: PIN,
            version: 2,
            value: SECOND,
        },
        Reply::Done(5),
    ),
    (Request::Read { key: PIN }, Reply::Found(SECOND, 5)),
    (
        Request::DeleteIf {
            key: PIN,
            version: 2,
        },
        Reply::Found(SECOND, 5),
    ),
    (
        Request::DeleteIf {
            key: PIN,
            version: 5,
        },
        Reply::Done(8),
    ),
    (Request::Read { key: PIN }, Reply::Absent),
];

#[test]
fn each_access_is_answered_and_kept(rt: HostRuntime) -> Result<(), Fail> {
    let mut store = ListStore::make(rt.alloc(), 2);
    for (request, reply) in ACCESSES.iter() {
        assert_eq!(rt; store.access(3, 7, *request)?, *reply);
    }
    assert_eq!(rt; store.entries().len(), 9);
    let mut stamp = 0;
    for entry in store.entries() {
        stamp = entry.stamp;
        assert_eq!(rt; (entry.shard, entry.incarnation, entry.item), (1, 3, 7));
    }
    assert_eq!(rt; stamp, 9);
    Ok(())
}
