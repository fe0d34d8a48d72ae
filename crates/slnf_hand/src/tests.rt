ghost use Rattle.slnf_access.specs.Map.{CanReply};

use crate::Hand;
use slnf_access::{Entry, Key, Reply, Request, Value};
use slnf_base::{Change, Reason, Verdict};
use slnf_instance::{Errand, Items, Standing};
use std::test::Fail;

/// Items that read a key each, and put a value there where none is. One without a key ends at once.
#[derive(Drop)]
struct Marks<'a> {
    keys: &'a [Option<Key>],
}

const MARK: Value = Value(7);

const EMITTED: Verdict = Verdict::Emit(Change::Keep);

const SHORT: Verdict = Verdict::Dropped(Reason::Short);

impl<'a> Items for Marks<'a> {
    ghost use Rattle.std.specs.Prelude.{None, Some, length, slice_get};
    ghost use Rattle.slnf_base.specs.declared.packets.Change.TheVariants.{Keep};
    ghost use Rattle.slnf_base.specs.declared.packets.Reason.TheVariants.{Short};
    ghost use Rattle.slnf_base.specs.declared.packets.Verdict.TheVariants.{Emit, Dropped};
    ghost use Rattle.slnf_access.specs.declared.requests.Reply.TheVariants.{Done, Found, Absent};
    ghost use Rattle.slnf_access.specs.declared.requests.Request.TheVariants.{Read, PutIfAbsent};
    ghost use Rattle.slnf_access.specs.Machines.{Flies, Ends};
    ghost use Rattle.slnf_access.specs.Map.{key_of};

    type Flight = Request;

    ghost work = { λ marks. record {
      machine = record {
        asks = λ request. request;
        goes = λ request reply. elim reply [
          | Done stamp ↦ Ends (Some (Emit Keep))
          | Found value stamp ↦ Ends (Some (Emit Keep))
          | Absent ↦ Flies (PutIfAbsent (record { 0 = key_of request }) (record { 0 = 7 }))
        ];
        decided = λ request. None;
      };
      begins = λ number. elim (slice_get marks.keys.now number) [
        | None ↦ Ends None
        | Some first ↦ elim first [ None ↦ Ends (Some (Dropped Short)) | Some key ↦ Flies (Read key) ]
      ];
      count = length marks.keys.now;
    } };

    fn begin(&self, number: usize) -> Standing<Request> {
        match self.keys[number] {
            None => Standing::Ended(Some(SHORT)),
            Some(key) => Standing::Flying(Request::Read { key }),
        }
    }

    fn next(&self, flight: &Request) -> Request {
        *flight
    }

    fn after(&self, flight: Request, reply: Reply) -> Standing<Request> {
        match reply {
            Reply::Absent => Standing::Flying(Request::PutIfAbsent {
                key: flight.key(),
                value: MARK,
            }),
            Reply::Done(_) => Standing::Ended(Some(EMITTED)),
            Reply::Found(_, _) => Standing::Ended(Some(EMITTED)),
        }
    }
}

fn entry(item: u64, request: Request, reply: Reply) -> Entry
    requires { CanReply request reply }
    ensures { CanReply result.request result.reply }
{
    Entry {
        stamp: 1,
        shard: 0,
        incarnation: 0,
        item,
        request,
        reply,
    }
}

fn absent(item: u64, key: u128) -> Entry
    ensures { CanReply result.request result.reply }
{
    entry(item, Request::Read { key: Key(key) }, Reply::Absent)
}

fn found(item: u64, key: u128) -> Entry
    ensures { CanReply result.request result.reply }
{
    let request = Request::Read { key: Key(key) };
    entry(item, request, Reply::Found(MARK, 1))
}

fn put(item: u64, key: u128) -> Entry
    ensures { CanReply result.request result.reply }
{
    let request = Request::PutIfAbsent {
        key: Key(key),
        value: MARK,
    };
    entry(item, request, Reply::Done(1))
}

/// The first and the last of four items have one key, and the second has none.
const KEYS: [Option<Key>; 4] = [Some(Key(5)), None, Some(Key(8)), Some(Key(5))];

#[test]
fn any_item_of_the_batch_may_go_on(rt: HostRuntime) -> Result<(), Fail> {
    let keys = KEYS;
    let marks = Marks {
        keys: keys.as_slice(),
    };
    let errand = Errand::over(keys.len(), 0, 4, 1, None, None);
    let mut hand = Hand::make(rt.alloc(), &marks, errand)?;
    assert_eq!(rt; hand.takes(&absent(2, 8)), true);
    assert_eq!(rt; hand.takes(&absent(0, 5)), true);
    // The last item waits for the next batch, and no item asks for another's key, or twice for the same.
    assert_eq!(rt; hand.takes(&absent(3, 5)), false);
    assert_eq!(rt; hand.takes(&put(0, 8)), false);
    assert_eq!(rt; hand.takes(&absent(0, 5)), false);
    assert_eq!(rt; hand.takes(&put(0, 5)), true);
    assert_eq!(rt; hand.takes(&put(2, 8)), true);
    assert_eq!(rt; hand.has_ended(), false);
    assert_eq!(rt; hand.takes(&found(3, 5)), true);
    assert_eq!(rt; hand.has_ended(), true);
    assert_eq!(rt; hand.taken(), 4);
    assert_eq!(rt; hand.takes(&found(3, 5)), false);
    Ok(())
}

#[test]
fn a_stopped_actor_took_its_batch(rt: HostRuntime) -> Result<(), Fail> {
    let keys = KEYS;
    let marks = Marks {
        keys: keys.as_slice(),
    };
    let errand = Errand::over(keys.len(), 0, 4, 1, None, Some(2));
    let mut hand = Hand::make(rt.alloc(), &marks, errand)?;
    assert_eq!(rt; hand.takes(&absent(2, 8)), true);
    assert_eq!(rt; hand.takes(&put(2, 8)), true);
    assert_eq!(rt; hand.has_ended(), true);
    assert_eq!(rt; hand.taken(), 3);
    assert_eq!(rt; hand.takes(&absent(0, 5)), false);
    Ok(())
}

#[test]
fn a_quota_is_all_that_is_taken(rt: HostRuntime) -> Result<(), Fail> {
    let keys = KEYS;
    let marks = Marks {
        keys: keys.as_slice(),
    };
    let errand = Errand::over(keys.len(), 1, 4, 1, Some(1), None);
    let hand = Hand::make(rt.alloc(), &marks, errand)?;
    assert_eq!(rt; hand.has_ended(), true);
    assert_eq!(rt; hand.taken(), 1);
    Ok(())
}
