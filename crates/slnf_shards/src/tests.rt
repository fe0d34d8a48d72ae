ghost use Rattle.std.specs.Prelude.{◌<◌, ◌^◌};

use crate::Shards;
use slnf_access::{Entry, Key, ListStore, Reply, Request, Value};
use slnf_base::Row;
use slnf_bucket::BucketError;
use std::alloc::Global;
use std::hash::RandomState;
use std::test::Fail;

/// The greatest stamp.
const LAST: u64 = (1 << 62) - 1;

/// Keys that follow each other are of different shards.
const FIRST_KEY: u128 = 0x0411 << 112;

const VALUE: Value = Value(0x0a01_0001_0035);

/// A mix of accesses to seven keys.
fn request(number: u64) -> Request {
    let key = Key(FIRST_KEY + u128::from(number % 7));
    match number % 5 {
        0 | 1 => Request::PutIfAbsent { key, value: VALUE },
        2 => Request::Read { key },
        3 => Request::ReplaceIf {
            key,
            version: number / 2,
            value: Value(u128::from(number)),
        },
        _ => Request::DeleteIf {
            key,
            version: number / 3,
        },
    }
}

#[test]
fn one_clock_makes_the_plain_store(rt: HostRuntime) -> Result<(), Fail> {
    let mut shards = Shards::make(rt.alloc(), RandomState::new(&rt)?, 3)?;
    let mut store = ListStore::make(rt.alloc(), 3);
    let mut clock = 0;
    for number in 0..60u64 {
        let request = request(number);
        let (reply, stamp) = shards.access(number % 4, number, clock, request)?;
        assert_eq!(rt; reply, store.access(number % 4, number, request)?);
        clock = stamp;
    }
    assert_eq!(rt; shards.latest(), 60);
    let journal = shards.journal(rt.alloc())?;
    assert_eq!(rt; journal.as_slice(), store.entries());
    Ok(())
}

/// The journal of two callers in turn, each with its own clock.
fn journal_of(alloc: Global, state: RandomState) -> Result<Row<Entry>, Fail> {
    let mut shards = Shards::make(alloc, state, 8)?;
    let mut first = 0;
    let mut second = 0;
    for number in 0..40u64 {
        let (_, stamp) = shards.access(0, number, first, request(number))?;
        first = stamp;
        let (_, stamp) = shards.access(1, number, second, request(number + 3))?;
        second = stamp;
    }
    Ok(shards.journal(alloc)?)
}

#[test]
fn the_secret_changes_no_answer(rt: HostRuntime) -> Result<(), Fail> {
    let one = journal_of(rt.alloc(), RandomState::new(&rt)?)?;
    let other = journal_of(rt.alloc(), RandomState::new(&rt)?)?;
    assert_eq!(rt; one.len(), 80);
    assert_eq!(rt; one.as_slice(), other.as_slice());
    Ok(())
}

#[test]
fn clocks_of_shards_and_callers(rt: HostRuntime) -> Result<(), Fail> {
    let mut shards = Shards::make(rt.alloc(), RandomState::new(&rt)?, 2)?;
    let even = Request::Read {
        key: Key(FIRST_KEY),
    };
    let odd = Request::Read {
        key: Key(FIRST_KEY + 1),
    };
    assert_eq!(rt; shards.latest(), 0);
    assert_eq!(rt; shards.access(0, 0, 0, even), Ok((Reply::Absent, 1)));
    assert_eq!(rt; shards.access(1, 0, 0, odd), Ok((Reply::Absent, 1)));
    assert_eq!(rt; shards.access(0, 0, 7, odd), Ok((Reply::Absent, 8)));
    assert_eq!(rt; shards.access(1, 0, 1, even), Ok((Reply::Absent, 2)));
    assert_eq!(rt; shards.latest(), 8);
    let histories = shards.into_histories(rt.alloc())?;
    assert_eq!(rt; histories.len(), 2);
    assert_eq!(rt; histories[0].len(), 2);
    assert_eq!(rt; histories[1][1].stamp, 8);
    Ok(())
}

#[test]
fn the_last_stamp_is_spent(rt: HostRuntime) -> Result<(), Fail> {
    let mut shards = Shards::make(rt.alloc(), RandomState::new(&rt)?, 2)?;
    assert_eq!(rt;
        shards.access(0, 0, LAST, request(0)),
        Err(BucketError::StampsSpent(LAST))
    );
    assert_eq!(rt; shards.latest(), 0);
    assert!(rt; shards.journal(rt.alloc())?.is_empty());
    Ok(())
}

#[test]
fn a_refused_access_leaves_all(rt: HostRuntime) -> Result<(), Fail> {
    let mut shards = Shards::make(rt.alloc(), RandomState::new(&rt)?, 2)?;
    let mut first = shards.access(0, 0, 0, request(0));
    if first.is_err() {
        assert_eq!(rt; shards.latest(), 0);
        first = shards.access(0, 0, 0, request(0));
    }
    assert_eq!(rt; first, Ok((Reply::Done(1), 1)));
    let mut second = shards.access(0, 1, 1, request(1));
    if second.is_err() {
        assert_eq!(rt; shards.latest(), 1);
        second = shards.access(0, 1, 1, request(1));
    }
    assert_eq!(rt; second, Ok((Reply::Done(2), 2)));
    assert_eq!(rt; shards.journal(rt.alloc())?.len(), 2);
    Ok(())
}
