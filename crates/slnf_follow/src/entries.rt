ghost use Rattle.std.specs.Prelude.{◌≡◌, ◌++◌, ◌∷◌, ◌+◌, ◌<◌, ◌≤◌, ℕ, List, [], Some, None, false, IsTrue, length, take, slice_get};
ghost use Rattle.std.specs.List.{AllByRecursion};
ghost use Rattle.slnf_access.specs.declared.requests.Entry.{Entry};
ghost use Rattle.slnf_access.specs.Map.{CanReply};
ghost use Rattle.slnf_run.specs.Setting.{Setting};
ghost use Rattle.slnf_flight.specs.Flights.{Arrival};
ghost use Rattle.slnf_local.specs.Local.{IsExpected};
ghost use Rattle.slnf_follow.specs.Follows.{Follows, IsStuck};

use slnf_access::Entry;
use slnf_hand::Hand;
use slnf_instance::Items;

/// The number of an incarnation among so many from `base` on.
fn number_in(base: u64, count: usize, incarnation: u64) -> Option<usize>
    ensures within { (number : ℕ) → result ≡ Some number → number < count }
    ensures is { (number : ℕ) → result ≡ Some number → incarnation ≡ base + number }
    ensures none { result ≡ None → base ≤ incarnation → base + count ≤ incarnation }
{
    if incarnation < base || incarnation - base >= count as u64 {
        return None;
    }
    Some((incarnation - base) as usize)
}

/// Takes an entry of the actor with this number, if it is expected.
fn take_at<T: Items>(hands: &mut Vec<Hand<'_, T>>, base: u64, number: usize, entry: &Entry) -> bool
    requires there { number < length hands.old.items }
    requires own { entry.now.incarnation ≡ base + number }
    requires can { CanReply entry.now.request entry.now.reply }
    ensures count { length hands.new.items ≡ length hands.old.items }
    ensures takes { (s : Setting T.Flight Arrival) (es : List Entry) (epoch : ℕ) (places : ℕ → ℕ)
        → Follows T.work s es epoch base places hands.old.items → IsTrue result
        → Follows T.work s (es ++ entry.now ∷ []) epoch base places hands.new.items }
    ensures kept { result ≡ false → hands.new.items ≡ hands.old.items }
    ensures refused { (s : Setting T.Flight Arrival) (es : List Entry) (epoch : ℕ) (places : ℕ → ℕ)
        → Follows T.work s es epoch base places hands.old.items → result ≡ false
        → IsExpected s es entry.now → ⊥ }
{
    let hand = &mut hands[number];
    hand.takes(entry)
}

/// Takes an entry, if it is of an actor of the epoch in hand, whose first incarnation is `base`, and expected.
fn take_next<T: Items>(hands: &mut Vec<Hand<'_, T>>, base: u64, entry: &Entry) -> bool
    requires { CanReply entry.now.request entry.now.reply }
    ensures count { length hands.new.items ≡ length hands.old.items }
    ensures takes { (s : Setting T.Flight Arrival) (es : List Entry) (number : ℕ) (places : ℕ → ℕ)
        → Follows T.work s es number base places hands.old.items → IsTrue result
        → Follows T.work s (es ++ entry.now ∷ []) number base places hands.new.items }
    ensures kept { result ≡ false → hands.new.items ≡ hands.old.items }
    ensures stuck { (s : Setting T.Flight Arrival) (es : List Entry) (number : ℕ) (places : ℕ → ℕ)
        → Follows T.work s es number base places hands.old.items → result ≡ false
        → IsStuck s es (base + length hands.old.items) entry.now }
{
    match number_in(base, hands.len(), entry.incarnation) {
        None => false,
        Some(number) => take_at(hands, base, number, entry),
    }
}

/// Takes entries from this number on, while they are of the epoch in hand and expected. It answers the number of the
/// first that isn't.
pub(crate) fn follow<T: Items>(
    hands: &mut Vec<Hand<'_, T>>,
    base: u64,
    entries: &[Entry],
    from: usize,
) -> usize
    requires can { AllByRecursion (λ e. CanReply e.request e.reply) entries.now }
    requires from { from ≤ length entries.now }
    ensures count { length hands.new.items ≡ length hands.old.items }
    ensures upto { result ≤ length entries.now }
    ensures follows { (s : Setting T.Flight Arrival) (number : ℕ) (places : ℕ → ℕ)
        → Follows T.work s (take from entries.now) number base places hands.old.items
        → Follows T.work s (take result entries.now) number base places hands.new.items }
    ensures stuck { (s : Setting T.Flight Arrival) (number : ℕ) (places : ℕ → ℕ)
        → Follows T.work s (take from entries.now) number base places hands.old.items
        → (e : Entry) → slice_get entries.now result ≡ Some e
        → IsStuck s (take result entries.now) (base + length hands.old.items) e }
{
    let mut done = from;
    while done < entries.len() {
        if !take_next(hands, base, &entries[done]) {
            return done;
        }
        done += 1;
    }
    done
}
