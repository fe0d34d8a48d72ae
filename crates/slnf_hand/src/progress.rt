ghost use Rattle.std.specs.Prelude.{◌≡◌, ◌↔◌, Some, false, IsTrue, set, slice_get, vec_len, vec_capacity};
ghost use Rattle.slnf_access.specs.Map.{CanReply};
ghost use Rattle.slnf_run.specs.Jobs.{offers_in};
ghost use Rattle.slnf_instance.specs.Errands.{job_in, IsErrand};
ghost use Rattle.slnf_instance.specs.Works.{flight_at};
ghost use Rattle.slnf_instance.specs.Hands.{is_spent, one_less, HasFlight};
ghost use Rattle.slnf_local.specs.Hands.{Hand as Held, hand_after};
ghost use Rattle.slnf_hand.specs.Reached.{some_fly, place_in, AsksFor, Holds, Expects, IsSettled};
ghost use Rattle.slnf_hand.specs.Progress.{reached, Fits};

use crate::batches::deal;
use slnf_access::{Entry, Key, Reply, Request};
use slnf_instance::{Errand, Items, Standing};

/// How far an actor has come. So many entries are `left` up to its stop, if it has one, and `through` is the item
/// behind the batch of its last entry. Its batch in hand begins with the item `from`, and has a flight for each item
/// that hasn't ended. It has none where all items have ended.
#[derive(Debug, Drop)]
pub(crate) struct Progress<F> {
    pub(crate) errand: Errand,
    pub(crate) left: Option<u64>,
    pub(crate) through: usize,
    pub(crate) from: usize,
    pub(crate) flights: Vec<Option<F>>,
    pub(crate) firsts: Vec<Option<Key>>,
}

/// Whether no entry is left.
pub(crate) fn is_spent(left: Option<u64>) -> bool
    ensures { result ≡ is_spent left }
{
    match left {
        None => false,
        Some(left) => left == 0,
    }
}

/// How many entries are left after the next one.
fn one_less(left: Option<u64>) -> Option<u64>
    ensures { result ≡ one_less left }
{
    match left {
        None => None,
        Some(left) => Some(left.saturating_sub(1)),
    }
}

/// Whether an item of these flies.
pub(crate) fn some_fly<F>(flights: &[Option<F>]) -> bool
    ensures { result ≡ some_fly flights.now }
{
    let mut done = 0;
    while done < flights.len() {
        if flights[done].is_some() {
            return true;
        }
        done += 1;
    }
    false
}

/// The place of an item among so many from this one on.
fn place_in(from: usize, count: usize, item: u64) -> Option<usize>
    ensures { result ≡ place_in from count item }
{
    let from = from as u64;
    if item < from || item - from >= count as u64 {
        return None;
    }
    Some((item - from) as usize)
}

/// Whether an item flies and asks for this.
fn asks_for<T: Items>(items: &T, flight: &Option<T::Flight>, request: &Request) -> bool
    ensures { IsTrue result ↔ AsksFor (T.work items.now).machine.asks flight.now request.now }
{
    match flight {
        None => false,
        Some(flight) => items.next(flight) == *request,
    }
}

/// Lets the item at a place of the batch go on by a reply.
fn land<T: Items>(items: &T, place: usize, reply: Reply, flights: &mut Vec<Option<T::Flight>>)
    requires flies { HasFlight (T.work items.now).machine flights.old.items place reply }
    ensures flights { (flight : T.Flight) → slice_get flights.old.items place ≡ Some (Some flight)
        → flights.new.items
        ≡ set flights.old.items place (flight_at ((T.work items.now).machine.goes flight reply)) }
    ensures len { vec_len flights.new ≡ vec_len flights.old }
    ensures room { vec_capacity flights.new ≡ vec_capacity flights.old }
{
    let flight = flights[place].take().unwrap();
    if let Standing::Flying(flight) = items.after(flight, reply) {
        flights[place] = Some(flight);
    }
}

/// Counts an entry of the batch in hand, and deals on where no item of it flies.
fn settle<T: Items>(items: &T, progress: &mut Progress<T::Flight>)
    requires errand { IsErrand (T.work items.now).count progress.old.errand }
    requires fits { Fits progress.old }
    ensures errand { progress.new.errand ≡ progress.old.errand }
    ensures fits { Fits progress.new }
    ensures settled { IsSettled (job_in (T.work items.now) progress.old.errand) (reached progress.old)
        (reached progress.new) }
{
    progress.left = one_less(progress.left);
    progress.through = progress.from + progress.flights.len();
    if !is_spent(progress.left) && !some_fly(progress.flights.as_slice()) {
        deal(items, progress);
    }
}

/// Takes an entry of the actor, if it is expected.
pub(crate) fn take_entry<T: Items>(
    items: &T,
    progress: &mut Progress<T::Flight>,
    entry: &Entry,
) -> bool
    requires errand { IsErrand (T.work items.now).count progress.old.errand }
    requires fits { Fits progress.old }
    requires can { CanReply entry.now.request entry.now.reply }
    ensures errand { progress.new.errand ≡ progress.old.errand }
    ensures fits { Fits progress.new }
    ensures refused { result ≡ false → progress.new ≡ progress.old }
    ensures expects { (held : Held T.Flight)
        → Holds (job_in (T.work items.now) progress.old.errand) held (reached progress.old)
        → IsTrue result ↔ Expects (job_in (T.work items.now) progress.old.errand) held entry.now }
    ensures next { (held : Held T.Flight)
        → Holds (job_in (T.work items.now) progress.old.errand) held (reached progress.old)
        → IsTrue result → Holds (job_in (T.work items.now) progress.old.errand)
        (hand_after (T.work items.now).machine (T.work items.now).begins
        (offers_in (job_in (T.work items.now) progress.old.errand)) held entry.now) (reached progress.new) }
{
    if is_spent(progress.left) {
        return false;
    }
    match place_in(progress.from, progress.flights.len(), entry.item) {
        None => false,
        Some(place) => {
            if !asks_for(items, &progress.flights[place], &entry.request) {
                return false;
            }
            land(items, place, entry.reply, &mut progress.flights);
            settle(items, progress);
            true
        }
    }
}
