ghost use Rattle.std.specs.Prelude.{◌≡◌, ◌+◌, ◌<◌, ◌≤◌, [], length, vec_capacity};
ghost use Rattle.slnf_instance.specs.Errands.{job_in, IsErrand};
ghost use Rattle.slnf_instance.specs.Batches.{IsTaking, IsWhole};
ghost use Rattle.slnf_hand.specs.Reached.{IsTaken, DealsOn};
ghost use Rattle.slnf_hand.specs.Progress.{reached, Fits, IsSameCount};

use crate::progress::{Progress, some_fly};
use slnf_access::Key;
use slnf_instance::{Errand, Items, begin_next};

/// Takes all items from this one on that join a batch.
fn begin_all<T: Items>(
    items: &T,
    errand: &Errand,
    from: usize,
    flights: &mut Vec<Option<T::Flight>>,
    firsts: &mut Vec<Option<Key>>,
)
    requires errand { IsErrand (T.work items.now).count errand.now }
    requires from { errand.now.at ≤ from }
    requires taking { IsTaking (job_in (T.work items.now) errand.now) from flights.old.items firsts.old.items }
    requires flights_room { errand.now.batch ≤ vec_capacity flights.old }
    requires firsts_room { errand.now.batch ≤ vec_capacity firsts.old }
    ensures taking { IsTaking (job_in (T.work items.now) errand.now) from flights.new.items firsts.new.items }
    ensures whole { IsWhole (job_in (T.work items.now) errand.now) from flights.new.items }
    ensures flights_room { errand.now.batch ≤ vec_capacity flights.new }
    ensures firsts_room { errand.now.batch ≤ vec_capacity firsts.new }
{
    while begin_next(items, errand, from, flights, firsts).is_some() {}
}

/// Takes the next batch in hand, where items are left.
fn take_batch<T: Items>(items: &T, progress: &mut Progress<T::Flight>)
    requires errand { IsErrand (T.work items.now).count progress.old.errand }
    requires fits { Fits progress.old }
    requires more { progress.old.from + length progress.old.flights.items < progress.old.errand.end }
    ensures same { IsSameCount progress.old progress.new }
    ensures fits { Fits progress.new }
    ensures taken { IsTaken (job_in (T.work items.now) progress.old.errand) (reached progress.old)
        (reached progress.new) }
    ensures some { 0 < length progress.new.flights.items }
{
    progress.from += progress.flights.len();
    progress.flights.clear();
    progress.firsts.clear();
    begin_all(
        items,
        &progress.errand,
        progress.from,
        &mut progress.flights,
        &mut progress.firsts,
    );
}

/// Takes batches until an item flies. There is none in hand where no items are left.
pub(crate) fn deal<T: Items>(items: &T, progress: &mut Progress<T::Flight>)
    requires errand { IsErrand (T.work items.now).count progress.old.errand }
    requires fits { Fits progress.old }
    ensures same { IsSameCount progress.old progress.new }
    ensures fits { Fits progress.new }
    ensures deals { DealsOn (job_in (T.work items.now) progress.old.errand) (reached progress.old)
        (reached progress.new) }
{
    while progress.from + progress.flights.len() < progress.errand.end {
        take_batch(items, progress);
        if some_fly(progress.flights.as_slice()) {
            return;
        }
    }
    progress.flights.clear();
}
