ghost use Rattle.std.specs.Prelude.{◌<◌, ◌≤◌};

use crate::{Ending, Errand, Instance, Items, Standing};
use slnf_access::{Key, ListStore, Reply, Request, Value};
use slnf_base::{Change, Reason, Verdict};
use std::alloc::Global;
use std::test::Fail;

/// Items that read a key each, and put a value there where none is. One without a key ends at once.
#[derive(Drop)]
struct Marks<'a> {
    keys: &'a [Option<Key>],
}

const MARK: Value = Value(7);

const EMITTED: Verdict = Verdict::Emit(Change::Keep);

const SHORT: Verdict = Verdict::Dropped(Reason::Short);

impl<'a> Items for Marks<'a> {
    ghost use Rattle.std.specs.Prelude.{None, Some, length, slice_get};
    ghost use Rattle.slnf_base.specs.declared.packets.Change.TheVariants.{Keep};
    ghost use Rattle.slnf_base.specs.declared.packets.Reason.TheVariants.{Short};
    ghost use Rattle.slnf_base.specs.declared.packets.Verdict.TheVariants.{Emit, Dropped};
    ghost use Rattle.slnf_access.specs.declared.requests.Reply.TheVariants.{Done, Found, Absent};
    ghost use Rattle.slnf_access.specs.declared.requests.Request.TheVariants.{Read, PutIfAbsent};
    ghost use Rattle.slnf_access.specs.Machines.{Flies, Ends};
    ghost use Rattle.slnf_access.specs.Map.{key_of};

    type Flight = Request;

    ghost work = { λ marks. record {
      machine = record {
        asks = λ request. request;
        goes = λ request reply. elim reply [
          | Done stamp ↦ Ends (Some (Emit Keep))
          | Found value stamp ↦ Ends (Some (Emit Keep))
          | Absent ↦ Flies (PutIfAbsent (record { 0 = key_of request }) (record { 0 = 7 }))
        ];
        decided = λ request. None;
      };
      begins = λ number. elim (slice_get marks.keys.now number) [
        | None ↦ Ends None
        | Some first ↦ elim first [ None ↦ Ends (Some (Dropped Short)) | Some key ↦ Flies (Read key) ]
      ];
      count = length marks.keys.now;
    } };

    fn begin(&self, number: usize) -> Standing<Request> {
        match self.keys[number] {
            None => Standing::Ended(Some(SHORT)),
            Some(key) => Standing::Flying(Request::Read { key }),
        }
    }

    fn next(&self, flight: &Request) -> Request {
        *flight
    }

    fn after(&self, flight: Request, reply: Reply) -> Standing<Request> {
        match reply {
            Reply::Absent => Standing::Flying(Request::PutIfAbsent {
                key: flight.key(),
                value: MARK,
            }),
            Reply::Done(_) => Standing::Ended(Some(EMITTED)),
            Reply::Found(_, _) => Standing::Ended(Some(EMITTED)),
        }
    }
}

/// Lets an actor make up to a hundred accesses.
fn work<T: Items>(store: &mut ListStore, instance: &mut Instance<'_, T>) -> Result<(), Fail> {
    for _ in 0..100 {
        if let Some(ask) = instance.wanted() {
            let reply = store.access(0, ask.item, ask.request)?;
            instance.answered(reply);
        }
    }
    Ok(())
}

/// Whether an actor over four items, of which the second has no key and the first and the last have the same one,
/// gives these verdicts and this ending, by accesses of these items.
fn gives(
    alloc: Global,
    limits: (usize, Option<u64>, Option<u64>),
    verdicts: &[Verdict],
    ending: Ending,
    items: &[u64],
) -> Result<bool, Fail>
    requires some { 0 < limits.0 }
    requires most { limits.0 ≤ 32 }
{
    let (batch, quota, stop) = limits;
    let keys = [Some(Key(5)), None, Some(Key(8)), Some(Key(5))];
    let marks = Marks {
        keys: keys.as_slice(),
    };
    let mut store = ListStore::make(alloc, 4);
    let errand = Errand::over(keys.len(), 0, batch, 4, quota, stop);
    let mut instance = Instance::make(alloc, &marks, errand)?;
    work(&mut store, &mut instance)?;
    if instance.ending().is_none() {
        return Ok(false);
    }
    let done = instance.finish();
    let mut made = Vec::new(alloc);
    for entry in store.entries() {
        made.push(entry.item)?;
    }
    Ok(done.verdicts.as_slice() == verdicts && done.ending == ending && made.as_slice() == items)
}

#[test]
fn batches_go_in_rounds(rt: HostRuntime) -> Result<(), Fail> {
    let alloc = rt.alloc();
    let all = [EMITTED, SHORT, EMITTED, EMITTED];
    let rounds = [2, 0, 2, 0, 3];
    assert!(rt; gives(alloc, (8, None, None), &all, Ending::Finished, &rounds)?);
    let one_by_one = [0, 0, 2, 2, 3];
    assert!(rt; gives(alloc, (1, None, None), &all, Ending::Finished, &one_by_one)?);
    Ok(())
}

#[test]
fn a_round_has_its_asks_in_order(rt: HostRuntime) -> Result<(), Fail> {
    let keys = [Some(Key(5)), Some(Key(3)), Some(Key(8))];
    let marks = Marks {
        keys: keys.as_slice(),
    };
    let mut store = ListStore::make(rt.alloc(), 4);
    let errand = Errand::over(keys.len(), 0, 3, 4, None, None);
    let mut instance = Instance::make(rt.alloc(), &marks, errand)?;
    assert_eq!(rt; instance.round().len(), 3);
    if let Some(ask) = instance.wanted() {
        assert_eq!(rt; ask.item, 2);
        let reply = store.access(0, ask.item, ask.request)?;
        instance.answered(reply);
    }
    assert_eq!(rt; instance.round().len(), 2);
    assert_eq!(rt; instance.wanted().map(|ask| ask.item), Some(0));
    Ok(())
}

#[test]
fn a_stop_loses_a_batch(rt: HostRuntime) -> Result<(), Fail> {
    let alloc = rt.alloc();
    let lost = [Verdict::Lost, SHORT, Verdict::Lost];
    assert!(rt;
        gives(
            alloc,
            (8, None, Some(3)),
            &lost,
            Ending::Stopped,
            &[2, 0, 2]
        )?
    );
    let second = [EMITTED, SHORT, Verdict::Lost];
    assert!(rt;
        gives(
            alloc,
            (1, None, Some(3)),
            &second,
            Ending::Stopped,
            &[0, 0, 2]
        )?
    );
    assert!(rt; gives(alloc, (8, None, Some(0)), &[], Ending::Stopped, &[])?);
    Ok(())
}

#[test]
fn a_quota_ends_an_actor(rt: HostRuntime) -> Result<(), Fail> {
    let alloc = rt.alloc();
    let all = [EMITTED, SHORT, EMITTED, EMITTED];
    let rounds = [2, 0, 2, 0, 3];
    let two = [EMITTED, SHORT];
    assert!(rt; gives(alloc, (8, Some(2), None), &two, Ending::Drained, &[0, 0])?);
    assert!(rt; gives(alloc, (8, Some(4), None), &all, Ending::Drained, &rounds)?);
    assert!(rt; gives(alloc, (8, Some(5), None), &all, Ending::Finished, &rounds)?);
    assert!(rt; gives(alloc, (8, Some(0), None), &[], Ending::Drained, &[])?);
    Ok(())
}
