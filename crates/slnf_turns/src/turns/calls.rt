ghost use Rattle.std.specs.Prelude.{◌≡◌, ◌≢◌, ◌+◌, ◌-◌, ◌*◌, ◌^◌, ◌<◌, ◌≤◌, ◌++◌, ◌==◌, if◌then◌else◌, ℕ, List, [], false, map, length, replicate, Some, IfOk, vec_len, slice_get, slice_index_or};
ghost use Rattle.std.specs.Vec.{vec_capacity};
ghost use mathlib.Core.Option.{some};
ghost use lib.ListN.{get_elem?};
ghost use Rattle.std.specs.Slots.{slots_items, slots_len, slots_filled, IsFull};
ghost use Rattle.slnf_turns.specs.declared.views.Line.{Line};
ghost use Rattle.slnf_turns.specs.Views.{Begins, AllOf, noted, seen_of, WasTold, first_view, after_split, split_off, after_join};
ghost use Rattle.slnf_turns.specs.Values.{AreFresh, AreKept, AreLast};
ghost use Rattle.slnf_turns.specs.Passes.{view, shards, IsOf, IsRoot, HasNoTurn, HasTurn, KeepsKin, AllJoined, kept_view};

use super::Turns;
use super::steps::{cut, put_in, take_out};
use crate::chronicles::Chronicle;
use crate::passes::{Held, Kept, Pass};
use crate::plays::{Glue, Learn};
use atomic_table::{Closed, Table};
use slnf_base::NoMemory;
use std::alloc::Global;
use std::snapshot::Snapshot;
use std::sync::Wait;

// So many words, each 0.
fn zeros(alloc: Global, count: usize) -> Result<Vec<u64>, NoMemory>
    ensures items { IfOk result (λ words. words.items ≡ replicate count 0) }
    ensures count { IfOk result (λ words. vec_len words ≡ count) }
{
    Ok(Vec::from_elem(alloc, 0u64, count)?)
}

// Moves each value into a slot of its own. The vector keeps its room.
fn fill<B>(values: &mut Vec<B>, slots: &mut Vec<Option<B>>)
    requires { (slots.old.items ≡ []) × (vec_len values.old ≤ vec_capacity slots.old) }
    ensures slots { slots.new.items ≡ map Some values.old.items }
    ensures values { (values.new.items ≡ []) × (vec_capacity values.new ≡ vec_capacity values.old) }
{
    while let Some(value) = values.pop() {
        slots.push_reserved(Some(value));
    }
    slots.reverse();
}

// Moves the values back, in order.
fn collect<B>(closed: &mut Closed<Option<B>, Global>, room: &mut Vec<B>)
    requires full { IsFull closed.old.slots }
    requires values { (k : ℕ) → k < slots_len closed.old.slots → (b : B) × (get_elem? (slots_items closed.old.slots) k ≡ some (Some b)) }
    requires room { (room.old.items ≡ []) × (slots_len closed.old.slots ≤ vec_capacity room.old) }
    ensures values { map Some room.new.items ≡ slots_items closed.old.slots }
    ensures empty { (k : ℕ) → k < slots_len closed.new.slots → slice_index_or (slots_filled closed.new.slots) k false ≡ false }
{
    let count = closed.slot_count();
    for k in 0..count {
        room.push_reserved(closed.take(k).unwrap());
    }
}

impl<B: Chronicle + Drop> Turns<B> {
    /// The turns at these values, and the root of their passes, whose number is 0.
    pub fn make(alloc: Global, values: Vec<B>) -> Result<(Turns<B>, Pass<B>), NoMemory>
        requires count { (0 < vec_len values) × (vec_len values ≤ 64) }
        requires fresh { AreFresh B.lines B.place B.places (vec_len values) values.items }
        ensures shards { IfOk result (λ made. shards made.0 ≡ vec_len values) }
        ensures root { IfOk result (λ made. IsOf made.0 made.1 × (view made.1 ≡ first_view)) }
    {
        let mut room = values;
        let words = zeros(alloc, 32 * room.len())?;
        let mut slots = Vec::with_capacity(alloc, room.len())?;
        fill(&mut room, &mut slots);
        match Table::new(alloc, &words, slots, &()) {
            Ok((table, seat)) => Ok((Turns { table, room }, Pass { seat })),
            Err(_) => Err(NoMemory),
        }
    }
}

impl<B: Chronicle> Turns<B> {
    /// A pass whose number is one more than the count of earlier splits. It keeps the numbers that were joined
    /// by then with their lists, and the root keeps these numbers.
    pub fn split(&self, root: &mut Pass<B>) -> Pass<B>
        requires here { IsOf self.now root.old }
        requires root { IsRoot (view root.old) }
        requires few { length (view root.old).before < 2 ^ 32 - 2 }
        ensures here { IsOf self.now root.new × IsOf self.now result }
        ensures pass { view result ≡ split_off (view root.old) }
        ensures root { view root.new ≡ after_split (view root.old) }
    {
        let seat = cut(&self.table.shared, &mut root.seat);
        Pass { seat }
    }

    /// The root keeps the other's number, its list of lines and what it saw of each shard.
    pub fn join(&self, root: &mut Pass<B>, other: Pass<B>)
        requires here { IsOf self.now root.old × IsOf self.now other }
        requires root { IsRoot (view root.old) }
        requires other { HasNoTurn (view other) }
        ensures here { IsOf self.now root.new }
        ensures root { view root.new ≡ after_join (view root.old) (view other) }
        // What the other kept from its split is what the root keeps as joined before that split.
        ensures told { WasTold (view root.new).before (view root.new).joined (view other).number (view other).told }
    {
        let Pass { seat } = other;
        self.table.shared.join_seat::<Glue>(&mut root.seat, seat);
        self.table.shared.load::<Learn>(&mut root.seat, 0);
    }

    /// Waits for the shard's turn, and takes its value. No clause says that the turn comes.
    pub fn take<R: Wait>(&self, rt: &R, pass: &mut Pass<B>, shard: u32) -> Held<B>
        requires here { IsOf self.now pass.old }
        requires shard { shard < shards self.now }
        requires free { HasNoTurn (view pass.old) }
        ensures here { IsOf self.now pass.new }
        ensures shard { result.shard ≡ shard }
        ensures value { (B.place result.value ≡ shard) × (B.places result.value ≡ shards self.now) }
        // What the pass had seen of this shard is a prefix of the value's list, which it has seen now.
        ensures grown { Begins (seen_of shard (view pass.old).seen) (B.lines result.value) }
        ensures seen { (k : ℕ) → seen_of k (view pass.new).seen ≡ (if k == shard then B.lines result.value else seen_of k (view pass.old).seen) }
        ensures turn { HasTurn (view pass.new) shard (B.lines result.value) }
        ensures own { (view pass.new).own ≡ (view pass.old).own }
        ensures kin { KeepsKin (view pass.old) (view pass.new) }
    {
        let value = take_out(rt, &self.table.shared, &mut pass.seat, shard as usize);
        Held { shard, value }
    }

    /// Gives the turn back. The lines that the value has grown by are lines of this pass.
    pub fn give(&self, pass: &mut Pass<B>, held: Held<B>)
        requires here { IsOf self.now pass.old }
        requires turn { (base more : List Line) × HasTurn (view pass.old) held.shard base × (B.lines held.value ≡ base ++ more) × AllOf (view pass.old).number more }
        requires value { (B.place held.value ≡ held.shard) × (B.places held.value ≡ shards self.now) }
        ensures here { IsOf self.now pass.new }
        ensures own { (base more : List Line) → HasTurn (view pass.old) held.shard base → B.lines held.value ≡ base ++ more → (view pass.new).own ≡ (view pass.old).own ++ noted held.shard more }
        ensures seen { (k : ℕ) → seen_of k (view pass.new).seen ≡ (if k == held.shard then B.lines held.value else seen_of k (view pass.old).seen) }
        ensures free { HasNoTurn (view pass.new) }
        ensures kin { KeepsKin (view pass.old) (view pass.new) }
    {
        let Held { shard, value } = held;
        put_in(&self.table.shared, &mut pass.seat, shard as usize, value);
    }

    /// The values in order of their shards, and what was kept of each number. No memory is taken.
    pub fn close(self, root: Pass<B>) -> (Vec<B>, Kept)
        requires here { IsOf self root }
        requires root { IsRoot (view root) }
        requires free { HasNoTurn (view root) }
        requires joined { AllJoined (view root) }
        ensures count { vec_len result.0 ≡ shards self }
        ensures values { AreLast B.lines B.place B.places (shards self) (view root) result.0.items }
        ensures kept { kept_view result.1 ≡ view root }
        ensures joined { AreKept (view root) }
    {
        let Turns { table, mut room } = self;
        let Pass { seat } = root;
        let badge = seat.into_badge();
        let kept = Kept {
            root: Snapshot::of(&badge),
        };
        let mut closed = table.close_with(badge.into_seat());
        collect(&mut closed, &mut room);
        closed.free();
        (room, kept)
    }
}
