ghost use Rattle.std.specs.Prelude.{◌≡◌, ◌+◌, ◌<◌, ◌≤◌, ◌∷◌, ◌++◌, List, [], ℕ, length, vec_len, vec_capacity, IsPermutation};
ghost use Rattle.slnf_access.specs.declared.requests.Entry.{Entry};
ghost use Rattle.slnf_batch.specs.Order.{Ascends};
ghost use Rattle.slnf_instance.specs.Works.{asks_of};
ghost use Rattle.slnf_instance.specs.Errands.{job_in, IsErrand};
ghost use Rattle.slnf_instance.specs.Hands.{Fits, IsSameErrand, Rests, IsDone, HandGoesOn};

use crate::batches::take_batch;
use crate::hands::Hand;
use crate::items::Items;
use slnf_access::Ask;
use slnf_batch::group;

/// Adds what an item asks, if it flies.
fn add_ask<T: Items>(items: &T, item: u64, flight: &Option<T::Flight>, asks: &mut Vec<Ask>)
    requires { vec_len asks.old < vec_capacity asks.old }
    ensures asks { asks.new.items ≡ asks.old.items ++ asks_of (T.work items.now).machine.asks item (flight.now ∷ []) }
    ensures room { vec_capacity asks.old ≤ vec_capacity asks.new }
{
    if let Some(flight) = flight {
        asks.push(Ask {
            item,
            request: items.next(flight),
        })
        .unwrap();
    }
}

/// What all items ask that fly, the first of which has this number.
fn ask_all<T: Items>(items: &T, from: u64, flights: &[Option<T::Flight>], asks: &mut Vec<Ask>)
    requires none { asks.old.items ≡ [] }
    requires room { length flights.now ≤ vec_capacity asks.old }
    requires inside { from + length flights.now < 18446744073709551616 }
    ensures asks { asks.new.items ≡ asks_of (T.work items.now).machine.asks from flights.now }
    ensures room { vec_capacity asks.old ≤ vec_capacity asks.new }
{
    let mut done = 0;
    while done < flights.len() {
        add_ask(items, from + done as u64, &flights[done], asks);
        done += 1;
    }
}

/// Opens a round of the batch in hand: each item that flies makes its next access.
fn open_round<T: Items>(items: &T, hand: &mut Hand<T::Flight>)
    requires errand { IsErrand (T.work items.now).count hand.old.errand }
    requires fits { Fits hand.old }
    ensures kept { hand.new ≡ record hand.old { asks = hand.new.asks; place = 0 } }
    ensures fits { Fits hand.new }
    ensures asks { IsPermutation (asks_of (T.work items.now).machine.asks hand.old.from hand.old.flights.items)
        hand.new.asks.items }
    ensures ascends { Ascends hand.old.errand.shards hand.new.asks.items }
{
    hand.asks.clear();
    hand.place = 0;
    ask_all(
        items,
        hand.from as u64,
        hand.flights.as_slice(),
        &mut hand.asks,
    );
    group(hand.asks.as_mut_slice(), hand.errand.shards);
}

/// Takes batches until an item flies, or none are left.
pub(crate) fn advance<T: Items>(items: &T, hand: &mut Hand<T::Flight>)
    requires errand { IsErrand (T.work items.now).count hand.old.errand }
    requires fits { Fits hand.old }
    requires none { hand.old.asks.items ≡ [] }
    ensures same { IsSameErrand hand.old hand.new }
    ensures fits { Fits hand.new }
    ensures goes { (own : List Entry) → IsDone (job_in (T.work items.now) hand.old.errand) own hand.old
        → HandGoesOn (job_in (T.work items.now) hand.old.errand) own hand.new }
{
    while hand.from + hand.flights.len() < hand.errand.end {
        take_batch(items, hand);
        open_round(items, hand);
        if !hand.asks.is_empty() {
            return;
        }
    }
}

/// Opens the next round, of the batch in hand or of the first batch behind it in which an item flies.
pub(crate) fn settle<T: Items>(items: &T, hand: &mut Hand<T::Flight>)
    requires errand { IsErrand (T.work items.now).count hand.old.errand }
    requires fits { Fits hand.old }
    ensures same { IsSameErrand hand.old hand.new }
    ensures fits { Fits hand.new }
    ensures goes { (own : List Entry) (made : ℕ) → Rests (job_in (T.work items.now) hand.old.errand) own hand.old made
        → HandGoesOn (job_in (T.work items.now) hand.old.errand) own hand.new }
{
    open_round(items, hand);
    if hand.asks.is_empty() {
        advance(items, hand);
    }
}
