use crate::{Bucket, BucketError};
use slnf_access::{Key, ListStore, Reply, Request, Value};
use std::hash::RandomState;
use std::test::Fail;

const CLIENT: Key = Key(0x0411_0000_0000_0000_0000_c000_0201_0fa0);

const BACKEND: Value = Value(0x0a01_0001_0035);

const OTHER: Key = Key(0x0411_0000_0000_0000_0000_c000_0201_0fa1);

const ANOTHER: Value = Value(0x0a01_0002_0035);

const LAST: u64 = (1 << 62) - 1;

#[test]
fn the_last_stamp_is_spent(rt: HostRuntime) -> Result<(), Fail> {
    let mut bucket = Bucket::make(rt.alloc(), RandomState::new(&rt)?, 0, 1)?;
    let read = Request::Read { key: CLIENT };
    assert_eq!(rt;
        bucket.access(0, 0, LAST, read),
        Err(BucketError::StampsSpent(LAST))
    );
    assert_eq!(rt; bucket.clock(), 0);
    assert!(rt; bucket.into_history().is_empty());
    Ok(())
}

#[test]
fn the_last_stamp_is_given(rt: HostRuntime) -> Result<(), Fail> {
    let mut bucket = Bucket::make(rt.alloc(), RandomState::new(&rt)?, 0, 1)?;
    let put = Request::PutIfAbsent {
        key: CLIENT,
        value: BACKEND,
    };
    assert_eq!(rt;
        bucket.access(0, 0, LAST - 1, put),
        Ok((Reply::Done(LAST), LAST))
    );
    assert_eq!(rt; bucket.clock(), LAST);
    Ok(())
}

#[test]
fn an_access_sees_those_before_it(rt: HostRuntime) -> Result<(), Fail> {
    let mut bucket = Bucket::make(rt.alloc(), RandomState::new(&rt)?, 0, 1)?;
    bucket.reserve(4)?;
    let read = Request::Read { key: CLIENT };
    let put = Request::PutIfAbsent {
        key: CLIENT,
        value: BACKEND,
    };
    let delete = Request::DeleteIf {
        key: CLIENT,
        version: 8,
    };
    assert_eq!(rt; bucket.access(0, 0, 0, read), Ok((Reply::Absent, 1)));
    assert_eq!(rt; bucket.access(0, 0, 7, put), Ok((Reply::Done(8), 8)));
    assert_eq!(rt;
        bucket.access(1, 5, 0, read),
        Ok((Reply::Found(BACKEND, 8), 9))
    );
    assert_eq!(rt; bucket.access(1, 5, 9, delete), Ok((Reply::Done(10), 10)));
    let history = bucket.into_history();
    assert_eq!(rt; history.len(), 4);
    assert_eq!(rt;
        (
            history[2].stamp,
            history[2].shard,
            history[2].incarnation,
            history[2].item
        ),
        (9, 0, 1, 5)
    );
    assert_eq!(rt; history[2].request, read);
    assert_eq!(rt; history[2].reply, Reply::Found(BACKEND, 8));
    Ok(())
}

/// Each row of the meaning of an access: a request, and the reply as the access with this place in the table.
static ACCESSES: [(Request, Reply); 16] = [
    (Request::Read { key: CLIENT }, Reply::Absent),
    (
        Request::ReplaceIf {
            key: CLIENT,
            version: 1,
            value: BACKEND,
        },
        Reply::Absent,
    ),
    (
        Request::DeleteIf {
            key: CLIENT,
            version: 1,
        },
        Reply::Absent,
    ),
    (
        Request::PutIfAbsent {
            key: CLIENT,
            value: BACKEND,
        },
        Reply::Done(4),
    ),
    (Request::Read { key: CLIENT }, Reply::Found(BACKEND, 4)),
    (
        Request::PutIfAbsent {
            key: CLIENT,
            value: ANOTHER,
        },
        Reply::Found(BACKEND, 4),
    ),
    (
        Request::ReplaceIf {
            key: CLIENT,
            version: 3,
            value: ANOTHER,
        },
        Reply::Found(BACKEND, 4),
    ),
    (
        Request::ReplaceIf {
            key: CLIENT,
            version: 4,
            value: ANOTHER,
        },
        Reply::Done(8),
    ),
    (Request::Read { key: CLIENT }, Reply::Found(ANOTHER, 8)),
    (
        Request::DeleteIf {
            key: CLIENT,
            version: 4,
        },
        Reply::Found(ANOTHER, 8),
    ),
    (
        Request::PutIfAbsent {
            key: OTHER,
            value: BACKEND,
        },
        Reply::Done(11),
    ),
    (
        Request::DeleteIf {
            key: CLIENT,
            version: 8,
        },
        Reply::Done(12),
    ),
    (Request::Read { key: CLIENT }, Reply::Absent),
    (Request::Read { key: OTHER }, Reply::Found(BACKEND, 11)),
    (
        Request::ReplaceIf {
            key: CLIENT,
            version: 8,
            value: BACKEND,
        },
        Reply::Absent,
    ),
    (
        Request::PutIfAbsent {
            key: CLIENT,
            value: ANOTHER,
        },
        Reply::Done(16),
    ),
];

#[test]
fn a_bucket_answers_as_the_plain_store(rt: HostRuntime) -> Result<(), Fail> {
    let mut bucket = Bucket::make(rt.alloc(), RandomState::new(&rt)?, 0, 1)?;
    let mut store = ListStore::make(rt.alloc(), 1);
    for (place, (request, expected)) in ACCESSES.iter().enumerate() {
        let item = place as u64;
        let (reply, stamp) = bucket.access(3, item, 0, *request)?;
        assert_eq!(rt; reply, *expected, "access {stamp}");
        assert_eq!(rt;
            store.access(3, item, *request)?,
            *expected,
            "access {stamp}"
        );
    }
    let history = bucket.into_history();
    assert_eq!(rt; history.as_slice(), store.entries());
    Ok(())
}

#[test]
fn refusals_have_a_text(rt: HostRuntime) -> Result<(), Fail> {
    let spent = format!(in rt.alloc(); "{}", BucketError::StampsSpent(LAST))?;
    assert_eq!(rt; spent.as_str(), "no stamp after 4611686018427387903");
    let wanting = format!(in rt.alloc(); "{}", BucketError::NoMemory)?;
    assert_eq!(rt; wanting.as_str(), "no memory");
    Ok(())
}
