ghost use Rattle.std.specs.Prelude.{◌≡◌, ◌+◌, ◌-◌, ◌<◌, ◌≤◌, ◌∷◌, ◌++◌, List, [], Some, ℕ, length, set, drop, false, slice_get, vec_len, vec_capacity};
ghost use Rattle.slnf_access.specs.declared.requests.Entry.{Entry};
ghost use Rattle.slnf_access.specs.declared.requests.Ask.{Ask};
ghost use Rattle.slnf_instance.specs.Works.{flight_at};
ghost use Rattle.slnf_instance.specs.Errands.{job_in};
ghost use Rattle.slnf_instance.specs.Instances.{CanAnswer, IsAnswer};
ghost use Rattle.slnf_instance.specs.Hands.{is_last, one_less, is_spent, ask_in, IsSound, HasFlight, StandsAfter, given};

use crate::hands::Hand;
use crate::items::{Items, Standing};
use crate::rounds::settle;
use slnf_access::{Ask, Reply};
use slnf_base::Verdict;

/// Whether no access is left after the next one.
fn is_last(left: Option<u64>) -> bool
    ensures { result ≡ is_last left }
{
    match left {
        None => false,
        Some(left) => left <= 1,
    }
}

/// How many accesses are left after the next one.
fn one_less(left: Option<u64>) -> Option<u64>
    ensures { result ≡ one_less left }
{
    match left {
        None => None,
        Some(left) => Some(left.saturating_sub(1)),
    }
}

/// Whether no access is left.
pub(crate) fn is_spent(left: Option<u64>) -> bool
    ensures { result ≡ is_spent left }
{
    match left {
        None => false,
        Some(left) => left == 0,
    }
}

/// The next ask of a hand.
pub(crate) fn next_ask<T>(hand: &Hand<T>) -> Option<Ask>
    ensures { result ≡ ask_in hand.now }
{
    if is_spent(hand.left) {
        return None;
    }
    hand.asks.get(hand.place).copied()
}

/// Lets the item at a place of the batch go on by a reply. A verdict goes to its place.
fn land<T: Items>(
    items: &T,
    place: usize,
    number: usize,
    reply: Reply,
    flights: &mut Vec<Option<T::Flight>>,
    verdicts: &mut Vec<Verdict>,
)
    requires flies { HasFlight (T.work items.now).machine flights.old.items place reply }
    requires number { number < vec_len verdicts.old }
    ensures flights { (flight : T.Flight) → slice_get flights.old.items place ≡ Some (Some flight)
        → flights.new.items
        ≡ set flights.old.items place (flight_at ((T.work items.now).machine.goes flight reply)) }
    ensures verdicts { (flight : T.Flight) → slice_get flights.old.items place ≡ Some (Some flight)
        → verdicts.new.items
        ≡ given ((T.work items.now).machine.goes flight reply) number verdicts.old.items }
    ensures flights_len { vec_len flights.new ≡ vec_len flights.old }
    ensures flights_room { vec_capacity flights.new ≡ vec_capacity flights.old }
    ensures verdicts_len { vec_len verdicts.new ≡ vec_len verdicts.old }
{
    let flight = flights[place].take().unwrap();
    match items.after(flight, reply) {
        Standing::Flying(flight) => flights[place] = Some(flight),
        Standing::Ended(verdict) => {
            if let Some(verdict) = verdict {
                verdicts[number] = verdict;
            }
        }
    }
}

/// Takes the reply to the ask of a hand.
pub(crate) fn answer<T: Items>(items: &T, hand: &mut Hand<T::Flight>, reply: Reply)
    requires sound { IsSound (T.work items.now) hand.old }
    requires can { CanAnswer (ask_in hand.old) reply }
    ensures errand { hand.new.errand ≡ hand.old.errand }
    ensures sound { IsSound (T.work items.now) hand.new }
    ensures stands { (own : List Entry) (e : Entry)
        → StandsAfter (job_in (T.work items.now) hand.old.errand) own hand.old
        → IsAnswer (ask_in hand.old) reply e
        → StandsAfter (job_in (T.work items.now) hand.old.errand) (own ++ e ∷ []) hand.new }
    ensures round { (a b : Ask) (rest : List Ask) → drop hand.old.place hand.old.asks.items ≡ a ∷ b ∷ rest
        → is_last hand.old.left ≡ false → drop hand.new.place hand.new.asks.items ≡ b ∷ rest }
{
    if is_last(hand.left) {
        hand.left = Some(0);
        return;
    }
    hand.left = one_less(hand.left);
    let ask = hand.asks[hand.place];
    let number = ask.item as usize;
    land(
        items,
        number - hand.from,
        number - hand.errand.at,
        reply,
        &mut hand.flights,
        &mut hand.verdicts,
    );
    hand.place += 1;
    if hand.place == hand.asks.len() {
        settle(items, hand);
    }
}
