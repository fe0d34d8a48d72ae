//! The way to a turn and back, over a seat of the table.
ghost use Rattle.std.specs.Prelude.{◌≡◌, ℕ, ◌*◌, ◌%◌, ◌^◌, ◌<◌, ◌≤◌, ◌-◌, List, [], ◌∷◌, ◌++◌, None, length, true};
ghost use Rattle.slnf_turns.specs.declared.views.Line.{Line};
ghost use Rattle.slnf_turns.specs.declared.views.Stage.TheVariants.{Free, Waits, Turn, Open};
ghost use Rattle.slnf_turns.specs.Views.{Begins, AllOf, seen_of, staged, after_open, after_raise, after_split, split_off};
ghost use Rattle.slnf_turns.specs.Hands.{is_resting};
ghost use Rattle.slnf_turns.specs.Passes.{IsRoot};
ghost use Rattle.slnf_turns.specs.Seats.{IsSized, IsAt};

use crate::chronicles::Chronicle;
use crate::plays::{Cut, Draw, Enter, Look, Note, Raise};
use crate::rule::{Place, Top};
use std::sync::Wait;
use std::{hint, thread};

// So many looks go by before the thread lets others run.
const SPINS: u32 = 64;

fn pause(looks: u32) {
    if looks < SPINS {
        hint::spin_loop();
    } else {
        thread::yield_now();
    }
}

// Waits until the ticket is served.
fn wait<B: Chronicle, R: Wait>(
    rt: &R,
    top: &Top<B>,
    place: &mut Place<B>,
    shard: usize,
    ticket: u64,
)
    requires table { IsAt top.now place.old × IsSized top.now × (shard < top.now.table_id.slots) }
    requires waits { (t : ℕ) × (place.old.me.0.stage ≡ Waits shard t) × (ticket ≡ t % 2 ^ 64) }
    ensures table { IsAt top.now place.new }
    ensures turn { (t : ℕ) → place.old.me.0.stage ≡ Waits shard t → place.new.me ≡ (staged place.old.me.0 (Turn shard t), place.old.me.1) }
{
    let mut looks = 0;
    for _ in rt.forever() {
        if top.load::<Look>(place, 32 * shard + 1) == ticket {
            return;
        }
        pause(looks);
        looks = (looks + 1).min(SPINS);
    }
}

// Waits for the shard's turn, and takes its value out of the slot.
pub(super) fn take_out<B: Chronicle, R: Wait>(
    rt: &R,
    top: &Top<B>,
    place: &mut Place<B>,
    shard: usize,
) -> B
    requires table { IsAt top.now place.old × IsSized top.now × (shard < top.now.table_id.slots) }
    requires free { (place.old.me.0.stage ≡ Free) × (place.old.me.1 ≡ []) }
    ensures table { IsAt top.now place.new }
    ensures view { (t : ℕ) × (place.new.me ≡ (after_open place.old.me.0 shard t (B.lines result), (shard, None) ∷ [])) }
    ensures value { (B.place result ≡ shard) × (B.places result ≡ top.now.table_id.slots) × Begins (seen_of shard place.old.me.0.seen) (B.lines result) }
{
    let ticket = top.fetch_add::<Draw>(place, 32 * shard, 1);
    wait(rt, top, place, shard, ticket);
    top.load::<Enter>(place, 32 * shard + 1);
    top.exchange(place, shard, None).unwrap()
}

// Gives the next number to a place of its own.
pub(super) fn cut<B: Chronicle>(top: &Top<B>, root: &mut Place<B>) -> Place<B>
    requires table { IsAt top.now root.old × IsSized top.now }
    requires root { IsRoot root.old.me.0 }
    requires resting { is_resting root.old.table_id.slots root.old.me.0.stage ≡ true }
    requires few { length root.old.me.0.before < 2 ^ 32 - 2 }
    ensures table { IsAt top.now root.new × IsAt top.now result }
    ensures root { root.new.me ≡ (after_split root.old.me.0, root.old.me.1) }
    ensures number { result.me ≡ (split_off root.old.me.0, []) }
{
    let next = top.split_seat::<Cut>(root);
    // The root keeps its own place.
    next
}

// Puts the value back into the slot, publishes the lines that it grew by, and lets the next one have its turn.
pub(super) fn put_in<B: Chronicle>(top: &Top<B>, place: &mut Place<B>, shard: usize, value: B)
    requires table { IsAt top.now place.old × IsSized top.now × (shard < top.now.table_id.slots) }
    requires turn { (t : ℕ) × (base more : List Line) × (place.old.me.0.stage ≡ Open shard t base []) × (B.lines value ≡ base ++ more) × AllOf place.old.me.0.number more }
    requires hand { place.old.me.1 ≡ (shard, None) ∷ [] }
    requires value { (B.place value ≡ shard) × (B.places value ≡ top.now.table_id.slots) }
    ensures table { IsAt top.now place.new }
    ensures view { (t : ℕ) (base more : List Line) → place.old.me.0.stage ≡ Open shard t base [] → B.lines value ≡ base ++ more → place.new.me ≡ (after_raise place.old.me.0 shard base more, []) }
{
    match top.exchange(place, shard, Some(value)) {
        None => {}
        Some(_) => unreachable!(),
    }
    top.load::<Note>(place, 32 * shard + 1);
    top.fetch_add::<Raise>(place, 32 * shard + 1, 1);
}
