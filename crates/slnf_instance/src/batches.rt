ghost use Rattle.std.specs.Prelude.{◌≡◌, ◌+◌, ◌<◌, ◌≤◌, Some, None, [], length, vec_capacity};
ghost use Rattle.slnf_base.specs.declared.packets.Verdict.{Verdict};
ghost use Rattle.slnf_batch.specs.Firsts.{number_of};
ghost use Rattle.slnf_run.specs.Jobs.{first_key_of};
ghost use Rattle.slnf_run.specs.Verdicts.{verdict_at};
ghost use Rattle.slnf_instance.specs.Items.{stand_of_standing};
ghost use Rattle.slnf_instance.specs.Works.{flight_at};
ghost use Rattle.slnf_instance.specs.Errands.{job_in, IsErrand};
ghost use Rattle.slnf_instance.specs.Batches.{IsTaking, HasTaken, IsWhole};
ghost use Rattle.slnf_instance.specs.Hands.{Fits, IsSameErrand, AreBegun, IsTaken};

use crate::errands::Errand;
use crate::hands::Hand;
use crate::items::{Items, Standing};
use slnf_access::Key;
use slnf_base::Verdict;
use slnf_batch::joins;

/// The key of an item's first access. One that ends at once has none.
fn first_key<T: Items>(items: &T, standing: &Standing<T::Flight>) -> Option<Key>
    ensures { number_of result ≡ first_key_of (T.work items.now).machine (stand_of_standing standing.now) }
{
    match standing {
        Standing::Flying(flight) => Some(items.next(flight).key()),
        Standing::Ended(_) => None,
    }
}

/// The verdict of an item that begins so, as far as it is known.
fn first_verdict<F>(standing: &Standing<F>) -> Verdict
    ensures { result ≡ verdict_at (stand_of_standing standing.now) }
{
    match standing {
        Standing::Flying(_) => Verdict::Lost,
        Standing::Ended(verdict) => match verdict {
            None => Verdict::Lost,
            Some(verdict) => *verdict,
        },
    }
}

/// The flight of an item that begins so.
fn first_flight<F: Drop>(standing: Standing<F>) -> Option<F>
    ensures { result ≡ flight_at (stand_of_standing standing) }
{
    match standing {
        Standing::Flying(flight) => Some(flight),
        Standing::Ended(_) => None,
    }
}

/// Begins the item behind a batch that is being taken from this item on, and takes it too where it joins the batch. Gives
/// its verdict then, as far as it is known. It takes no memory.
pub fn begin_next<T: Items>(
    items: &T,
    errand: &Errand,
    from: usize,
    flights: &mut Vec<Option<T::Flight>>,
    firsts: &mut Vec<Option<Key>>,
) -> Option<Verdict>
    requires errand { IsErrand (T.work items.now).count errand.now }
    requires from { errand.now.at ≤ from }
    requires taking { IsTaking (job_in (T.work items.now) errand.now) from flights.old.items firsts.old.items }
    requires flights_room { errand.now.batch ≤ vec_capacity flights.old }
    requires firsts_room { errand.now.batch ≤ vec_capacity firsts.old }
    ensures taking { IsTaking (job_in (T.work items.now) errand.now) from flights.new.items firsts.new.items }
    ensures took { (verdict : Verdict) → result ≡ Some verdict
        → HasTaken (T.work items.now).begins from flights.old.items flights.new.items verdict }
    ensures ended { result ≡ None → flights.new.items ≡ flights.old.items
        × IsWhole (job_in (T.work items.now) errand.now) from flights.new.items }
    ensures flights_room { vec_capacity flights.old ≤ vec_capacity flights.new }
    ensures firsts_room { vec_capacity firsts.old ≤ vec_capacity firsts.new }
{
    let number = from + flights.len();
    if flights.len() == errand.batch || number == errand.end {
        return None;
    }
    let standing = items.begin(number);
    let first = first_key(items, &standing);
    if !joins(firsts.as_slice(), first) {
        return None;
    }
    let verdict = first_verdict(&standing);
    firsts.push(first).unwrap();
    flights.push(first_flight(standing)).unwrap();
    Some(verdict)
}

/// Takes all items from this one on that join a batch. A verdict goes to its place.
fn begin_all<T: Items>(
    items: &T,
    errand: &Errand,
    from: usize,
    flights: &mut Vec<Option<T::Flight>>,
    firsts: &mut Vec<Option<Key>>,
    verdicts: &mut [Verdict],
)
    requires errand { IsErrand (T.work items.now).count errand.now }
    requires from { errand.now.at ≤ from }
    requires taking { IsTaking (job_in (T.work items.now) errand.now) from flights.old.items firsts.old.items }
    requires none { flights.old.items ≡ [] }
    requires flights_room { errand.now.batch ≤ vec_capacity flights.old }
    requires firsts_room { errand.now.batch ≤ vec_capacity firsts.old }
    requires verdicts { length verdicts.old + errand.now.at ≡ errand.now.end }
    ensures taking { IsTaking (job_in (T.work items.now) errand.now) from flights.new.items firsts.new.items }
    ensures whole { IsWhole (job_in (T.work items.now) errand.now) from flights.new.items }
    ensures verdicts { AreBegun (λ item. verdict_at ((T.work items.now).begins item)) errand.now.at from
        (length flights.new.items) verdicts.old verdicts.new }
    ensures given { length verdicts.new ≡ length verdicts.old }
    ensures flights_room { errand.now.batch ≤ vec_capacity flights.new }
    ensures firsts_room { errand.now.batch ≤ vec_capacity firsts.new }
{
    while let Some(verdict) = begin_next(items, errand, from, flights, firsts) {
        verdicts[from - errand.at + flights.len() - 1] = verdict;
    }
}

/// Takes the next batch in hand, where items are left.
pub(crate) fn take_batch<T: Items>(items: &T, hand: &mut Hand<T::Flight>)
    requires errand { IsErrand (T.work items.now).count hand.old.errand }
    requires fits { Fits hand.old }
    requires more { hand.old.from + length hand.old.flights.items < hand.old.errand.end }
    ensures same { IsSameErrand hand.old hand.new }
    ensures fits { Fits hand.new }
    ensures taken { IsTaken (job_in (T.work items.now) hand.old.errand) hand.old hand.new }
    ensures some { 0 < length hand.new.flights.items }
    ensures asks { hand.new.asks ≡ hand.old.asks }
    ensures place { hand.new.place ≡ hand.old.place }
{
    hand.from += hand.flights.len();
    hand.flights.clear();
    hand.firsts.clear();
    begin_all(
        items,
        &hand.errand,
        hand.from,
        &mut hand.flights,
        &mut hand.firsts,
        hand.verdicts.as_mut_slice(),
    );
}
