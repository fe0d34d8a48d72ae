ghost use Rattle.std.specs.Prelude.{◌≡◌};

use crate::merge_in_parts;
use slnf_access::{Entry, Key, Reply, Request};
use std::test::Fail;

const CLIENT: Key = Key(0x0411_0000_0000_0000_0000_c000_0201_0fa0);

fn looked(stamp: u64, shard: u32) -> Entry
    ensures stamp { result.stamp ≡ stamp }
    ensures shard { result.shard ≡ shard }
{
    Entry {
        stamp,
        shard,
        incarnation: u64::from(shard),
        item: 0,
        request: Request::Read { key: CLIENT },
        reply: Reply::Absent,
    }
}

#[test]
fn no_accesses_merge_to_none(rt: HostRuntime) -> Result<(), Fail> {
    let none = vec![in rt.alloc()]?;
    let merged = merge_in_parts(&rt, rt.alloc(), none.as_slice(), 4)?;
    assert!(rt; merged.joined(rt.alloc())?.is_empty());
    let first = vec![in rt.alloc()]?;
    let second = vec![in rt.alloc()]?;
    let histories = vec![in rt.alloc(); first, second]?;
    let merged = merge_in_parts(&rt, rt.alloc(), histories.as_slice(), 4)?;
    assert!(rt; merged.joined(rt.alloc())?.is_empty());
    Ok(())
}

#[test]
fn any_number_of_threads_makes_one_list(rt: HostRuntime) -> Result<(), Fail> {
    let first = vec![in rt.alloc(); looked(2, 0), looked(5, 0), looked(6, 0)]?;
    let second = vec![in rt.alloc()]?;
    let third = vec![in rt.alloc(); looked(1, 2), looked(2, 2), looked(90, 2)]?;
    let histories = vec![in rt.alloc(); first, second, third]?;
    let expected = [
        looked(1, 2),
        looked(2, 0),
        looked(2, 2),
        looked(5, 0),
        looked(6, 0),
        looked(90, 2),
    ];
    for threads in 0..9 {
        let merged = merge_in_parts(&rt, rt.alloc(), histories.as_slice(), threads)?;
        let merged = merged.joined(rt.alloc())?;
        assert_eq!(rt; merged.as_slice(), expected.as_slice());
    }
    Ok(())
}

#[test]
fn each_thread_gives_a_part(rt: HostRuntime) -> Result<(), Fail> {
    let first = vec![in rt.alloc(); looked(1, 0), looked(11, 0)]?;
    let second = vec![in rt.alloc(); looked(3, 1), looked(12, 1)]?;
    let histories = vec![in rt.alloc(); first, second]?;
    let merged = merge_in_parts(&rt, rt.alloc(), histories.as_slice(), 2)?;
    let [low, high] = merged.as_slice() else {
        return Err("it has two parts")?;
    };
    assert_eq!(rt; low.as_slice(), [looked(1, 0), looked(3, 1)].as_slice());
    assert_eq!(rt; high.as_slice(), [looked(11, 0), looked(12, 1)].as_slice());
    Ok(())
}
