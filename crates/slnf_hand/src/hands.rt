ghost use Rattle.std.specs.Prelude.{◌≡◌, ◌^◌, ◌<◌, ◌≤◌, ◌↔◌, false, IfOk, IsTrue};
ghost use Rattle.slnf_access.specs.Map.{CanReply};
ghost use Rattle.slnf_run.specs.Jobs.{Job, offers_in};
ghost use Rattle.slnf_instance.specs.Errands.{job_in, IsErrand};
ghost use Rattle.slnf_local.specs.Hands.{Hand as Held, hand_first, hand_after};
ghost use Rattle.slnf_hand.specs.Reached.{Expects, has_ended, taken_by};
ghost use Rattle.slnf_hand.specs.Progress.{over, taken_of, IsNew, IsFirst, IsSound};
ghost use Rattle.slnf_hand.specs.Hands.{Followed, is_over, taken, IsHandOf};

use crate::batches::deal;
use crate::progress::{Progress, is_spent, take_entry};
use slnf_access::Entry;
use slnf_base::NoMemory;
use slnf_instance::{Errand, Items};
use std::alloc::Global;
use std::marker::Model;

/// An actor before any batch.
fn make_progress<F: Drop>(alloc: Global, errand: Errand) -> Result<Progress<F>, NoMemory>
    requires { errand.at ≤ errand.end }
    ensures { IfOk result (IsNew errand) }
{
    Ok(Progress {
        errand,
        left: errand.stop,
        through: errand.at,
        from: errand.at,
        flights: Vec::with_capacity(alloc, errand.batch)?,
        firsts: Vec::with_capacity(alloc, errand.batch)?,
    })
}

/// An actor that has made no entry. One that is to stop before its first takes nothing.
fn set_out<T: Items>(
    alloc: Global,
    items: &T,
    errand: Errand,
) -> Result<Progress<T::Flight>, NoMemory>
    requires { IsErrand (T.work items.now).count errand }
    ensures { IfOk result (IsFirst (T.work items.now) errand) }
{
    let mut progress = make_progress(alloc, errand)?;
    if is_spent(progress.left) {
        return Ok(progress);
    }
    deal(items, &mut progress);
    Ok(progress)
}

/// How many items an actor took that has ended.
fn taken_of<F>(progress: &Progress<F>) -> usize
    requires begun { progress.now.errand.at ≤ progress.now.through }
    requires end { progress.now.errand.at ≤ progress.now.errand.end }
    ensures { result ≡ taken_of progress.now }
{
    let end = if is_spent(progress.left) {
        progress.through
    } else {
        progress.errand.end
    };
    end - progress.errand.at
}

/// Whether an actor has ended.
fn is_over<F>(progress: &Progress<F>) -> bool
    ensures { result ≡ over progress.now }
{
    is_spent(progress.left) || progress.flights.is_empty()
}

/// One actor of a list of entries that is followed: what it may enter next. Any item of its batch in hand that asks for
/// an access may make it.
#[derive(Debug, Drop)]
pub struct Hand<'a, T: Items> {
    items: &'a T,
    progress: Progress<T::Flight>,
}

impl<'a, T: Items> Model for Hand<'a, T> {
    ghost use Rattle.slnf_hand.specs.Progress.{reached, IsSound};
    ghost use Rattle.slnf_hand.specs.Hands.{Followed};

    ghost Value = { Followed T T.Flight };

    ghost view = { λ hand. record {
      items = hand.items.now;
      errand = hand.progress.errand;
      reached = reached hand.progress;
    } };

    ghost invariant = { λ hand. IsSound (T.work hand.items.now) hand.progress };
}

impl<'a, T: Items> Hand<'a, T> {
    /// The hand of an actor with this errand over these items, before its first entry. It takes all memory that the
    /// hand needs.
    pub fn make(alloc: Global, items: &'a T, errand: Errand) -> Result<Hand<'a, T>, NoMemory>
        requires { IsErrand (T.work items.now).count errand }
        ensures { IfOk result (IsHandOf T.work (job_in (T.work items.now) errand)
            (hand_first (T.work items.now).begins (offers_in (job_in (T.work items.now) errand)))) }
    {
        let progress = set_out(alloc, items, errand)?;
        Ok(Hand { items, progress })
    }

    /// Takes an entry of the actor, if it is expected. It takes no memory.
    pub fn takes(&mut self, entry: &Entry) -> bool
        requires { CanReply entry.now.request entry.now.reply }
        ensures expects { (job : Job T.Flight) (held : Held T.Flight) → IsHandOf T.work job held self.old
            → IsTrue result ↔ Expects job held entry.now }
        ensures next { (job : Job T.Flight) (held : Held T.Flight) → IsHandOf T.work job held self.old
            → IsTrue result
            → IsHandOf T.work job (hand_after job.machine job.begins (offers_in job) held entry.now) self.new }
        ensures refused { result ≡ false → self.new ≡ self.old }
    {
        take_entry(self.items, &mut self.progress, entry)
    }

    /// Whether the actor has ended: it is stopped, or no item is left. It takes no memory.
    pub fn has_ended(&self) -> bool
        ensures is { result ≡ is_over self.now }
        ensures ended { (job : Job T.Flight) (held : Held T.Flight) → IsHandOf T.work job held self.now
            → result ≡ has_ended job held }
    {
        is_over(&self.progress)
    }

    /// How many items the actor took, where it has ended. It takes no memory.
    pub fn taken(&self) -> usize
        ensures is { result ≡ taken self.now }
        ensures taken { (job : Job T.Flight) (held : Held T.Flight) → IsHandOf T.work job held self.now
            → result ≡ taken_by job held }
        ensures few { result < 2 ^ 32 }
    {
        taken_of(&self.progress)
    }
}
