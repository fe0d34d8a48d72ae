ghost use Rattle.std.specs.Prelude.{◌≡◌, ◌≤◌, ◌∷◌, ◌++◌, ◌↔◌, List, [], Some, None, IsSome, IfOk, drop, false, if◌then◌else◌};
ghost use Rattle.slnf_access.specs.declared.requests.Entry.{Entry};
ghost use Rattle.slnf_access.specs.declared.requests.Ask.{Ask};
ghost use Rattle.slnf_run.specs.Jobs.{Job, by_rounds, wanted_in};
ghost use Rattle.slnf_instance.specs.Errands.{job_in, IsErrand};
ghost use Rattle.slnf_instance.specs.Ends.{ending_of, ending_in, verdicts_in};
ghost use Rattle.slnf_instance.specs.Hands.{is_last, is_spent, Fits, IsFirst, IsSound, StandsAfter};
ghost use Rattle.slnf_instance.specs.Instances.{Acting, ask_by, round_by, StandsBy, CanAnswer, IsAnswer};

use crate::answers::{answer, is_spent, next_ask};
use crate::endings::{Ending, Work};
use crate::errands::Errand;
use crate::hands::Hand;
use crate::items::Items;
use crate::rounds::advance;
use slnf_access::{Ask, Reply};
use slnf_base::{NoMemory, Verdict};
use std::alloc::Global;
use std::marker::Model;

/// A hand before any batch.
fn make_hand<F: Drop>(alloc: Global, errand: Errand) -> Result<Hand<F>, NoMemory>
    requires { errand.at ≤ errand.end }
    ensures { IfOk result (IsFirst errand) }
{
    Ok(Hand {
        errand,
        left: errand.stop,
        from: errand.at,
        flights: Vec::with_capacity(alloc, errand.batch)?,
        firsts: Vec::with_capacity(alloc, errand.batch)?,
        asks: Vec::with_capacity(alloc, errand.batch)?,
        place: 0,
        verdicts: vec![in alloc; Verdict::Lost; errand.end - errand.at]?,
    })
}

/// Brings a new hand to its first access. One that is to stop before it takes nothing.
fn set_out<T: Items>(items: &T, hand: &mut Hand<T::Flight>)
    requires errand { IsErrand (T.work items.now).count hand.old.errand }
    requires first { IsFirst hand.old.errand hand.old }
    ensures errand { hand.new.errand ≡ hand.old.errand }
    ensures fits { Fits hand.new }
    ensures stands { StandsAfter (job_in (T.work items.now) hand.old.errand) [] hand.new }
{
    if !is_spent(hand.left) {
        advance(items, hand);
    }
}

/// What is left of a hand's round.
fn rest_of_round<T>(hand: &Hand<T>) -> &[Ask]
    ensures { result.now ≡ (if is_spent hand.now.left then [] else drop hand.now.place hand.now.asks.items) }
{
    if is_spent(hand.left) || hand.place >= hand.asks.len() {
        return &[];
    }
    &hand.asks[hand.place..]
}

/// How a hand's actor ended.
fn end_of<T>(hand: &Hand<T>) -> Option<Ending>
    requires { hand.now.errand.at ≤ hand.now.errand.end }
    ensures { result ≡ ending_of hand.now }
{
    if is_spent(hand.left) {
        return Some(Ending::Stopped);
    }
    if hand.place < hand.asks.len() {
        return None;
    }
    if hand.errand.quota == Some((hand.errand.end - hand.errand.at) as u64) {
        return Some(Ending::Drained);
    }
    Some(Ending::Finished)
}

/// One actor of a run, at work on its items.
#[derive(Debug, Drop)]
pub struct Instance<'a, T: Items> {
    items: &'a T,
    hand: Hand<T::Flight>,
}

impl<'a, T: Items> Model for Instance<'a, T> {
    ghost Value = { Acting T T.Flight };

    ghost view = { λ i. record {
      items = i.items.now;
      errand = i.hand.errand;
      left = i.hand.left;
      from = i.hand.from;
      flights = i.hand.flights.items;
      rest = drop i.hand.place i.hand.asks.items;
      verdicts = i.hand.verdicts.items;
    } };

    ghost invariant = { λ i. IsSound (T.work i.items.now) i.hand };
}

impl<'a, T: Items> Instance<'a, T> {
    /// Makes an actor for an errand over these items. It takes all memory that the actor needs.
    pub fn make(alloc: Global, items: &'a T, errand: Errand) -> Result<Instance<'a, T>, NoMemory>
        requires { IsErrand (T.work items.now).count errand }
        ensures errand { IfOk result (λ i. i.errand ≡ errand) }
        ensures stands { IfOk result (StandsBy T.work (job_in (T.work items.now) errand) []) }
    {
        let mut hand = make_hand(alloc, errand)?;
        set_out(items, &mut hand);
        Ok(Instance { items, hand })
    }

    /// The actor's next access. It takes no memory.
    pub fn wanted(&self) -> Option<Ask>
        ensures asks { result ≡ ask_by self.now }
        ensures wanted { (job : Job T.Flight) (own : List Entry) → StandsBy T.work job own self.now
            → result ≡ wanted_in by_rounds job own }
    {
        next_ask(&self.hand)
    }

    /// How the actor ended, exactly where it has no access to make. It takes no memory.
    pub fn ending(&self) -> Option<Ending>
        ensures works { IsSome result ↔ (ask_by self.now ≡ None) }
        ensures ending { (job : Job T.Flight) (own : List Entry) → StandsBy T.work job own self.now
            → result ≡ ending_in job self.now.errand.quota own }
    {
        end_of(&self.hand)
    }

    /// What is left of the round: the actor's next accesses, one after another. It takes no memory.
    pub fn round(&self) -> &[Ask]
        ensures { result.now ≡ round_by self.now }
    {
        rest_of_round(&self.hand)
    }

    /// Takes the reply to the wanted access. It takes no memory.
    pub fn answered(&mut self, reply: Reply)
        requires { CanAnswer (ask_by self.old) reply }
        ensures errand { self.new.errand ≡ self.old.errand }
        ensures stands { (job : Job T.Flight) (own : List Entry) (e : Entry) → StandsBy T.work job own self.old
            → IsAnswer (ask_by self.old) reply e → StandsBy T.work job (own ++ e ∷ []) self.new }
        ensures round { (a b : Ask) (rest : List Ask) → self.old.rest ≡ a ∷ b ∷ rest → is_last self.old.left ≡ false
            → self.new.rest ≡ b ∷ rest }
    {
        answer(self.items, &mut self.hand, reply);
    }

    /// What the actor did. It takes no memory.
    pub fn finish(self) -> Work
        requires { ask_by self ≡ None }
        ensures ending { (job : Job T.Flight) (own : List Entry) → StandsBy T.work job own self.entry
            → Some result.ending ≡ ending_in job self.entry.errand.quota own }
        ensures verdicts { (job : Job T.Flight) (own : List Entry) → StandsBy T.work job own self.entry
            → result.verdicts.items ≡ verdicts_in job own }
    {
        let ending = end_of(&self.hand).unwrap();
        let Instance { items: _, hand } = self;
        let taken = hand.from + hand.flights.len() - hand.errand.at;
        let mut verdicts = hand.verdicts;
        verdicts.truncate(taken);
        Work { verdicts, ending }
    }
}
