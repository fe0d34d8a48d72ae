ghost use Rattle.std.specs.Prelude.{◌≡◌, ◌+◌, ◌-◌, ◌^◌, ◌<◌, ◌++◌, ◌∷◌, [], List, map, length, IfOk, vec_len};
ghost use Rattle.slnf_turns.specs.declared.views.Line.{Line};
ghost use Rattle.slnf_turns.specs.Views.{AllOf, number_line};
ghost use Rattle.slnf_turns.specs.Values.{AreFresh};
ghost use Rattle.slnf_turns.specs.Passes.{view, shards, IsOf, IsRoot, HasNoTurn};

use crate::{Chronicle, Held, Pass, Turns};
use slnf_base::NoMemory;
use std::alloc::Global;
use std::sync::Wait;
use std::test::Fail;
use std::thread::{Threads, join};

const ROUNDS: u64 = 1000;

/// A value that stores its lines, each a pass's number and the round in which it came.
#[derive(Drop)]
struct Ledger {
    place: u32,
    lines: Vec<(u64, u64)>,
}

impl Chronicle for Ledger {
    ghost lines = { λ ledger. map (λ line. number_line line.0 line.1) ledger.lines.items };

    ghost place = { λ ledger. ledger.place };

    ghost places = { λ _. 3 };
}

fn ledgers(alloc: Global) -> Result<Vec<Ledger>, NoMemory>
    ensures count { IfOk result (λ values. vec_len values ≡ 3) }
    ensures fresh { IfOk result (λ values. AreFresh ⟦<Ledger as Chronicle>⟧.lines ⟦<Ledger as Chronicle>⟧.place ⟦<Ledger as Chronicle>⟧.places (vec_len values) values.items) }
{
    let mut values = Vec::with_capacity(alloc, 3)?;
    for place in 0..3u32 {
        values.push(Ledger {
            place,
            lines: Vec::new(alloc),
        })?;
    }
    Ok(values)
}

// Adds a line where there is memory.
fn note(held: &mut Held<Ledger>, number: u64, round: u64)
    ensures place { (held.new.shard ≡ held.old.shard) × (held.new.value.place ≡ held.old.value.place) }
    ensures lines { (more : List Line) × (⟦<Ledger as Chronicle>⟧.lines held.new.value ≡ ⟦<Ledger as Chronicle>⟧.lines held.old.value ++ more) × AllOf number more }
{
    let _ = held.value.lines.push((number, round));
}

fn one_turn<R: Wait>(
    rt: &R,
    turns: &Turns<Ledger>,
    pass: &mut Pass<Ledger>,
    number: u64,
    shard: u32,
    round: u64,
)
    requires turns { IsOf turns.now pass.old × (shards turns.now ≡ 3) × (shard < 3) }
    requires pass { HasNoTurn (view pass.old) × ((view pass.old).number ≡ number) }
    ensures turns { IsOf turns.now pass.new }
    ensures pass { HasNoTurn (view pass.new) × ((view pass.new).number ≡ number) }
{
    let mut held = turns.take(rt, pass, shard);
    note(&mut held, number, round);
    turns.give(pass, held);
}

fn work<R: Wait>(rt: &R, turns: &Turns<Ledger>, mut pass: Pass<Ledger>, number: u64) -> Pass<Ledger>
    requires turns { IsOf turns.now pass × (shards turns.now ≡ 3) }
    requires pass { HasNoTurn (view pass) × ((view pass).number ≡ number) }
    ensures { IsOf turns.now result × HasNoTurn (view result) }
{
    for round in 0..ROUNDS {
        for shard in 0..3u32 {
            one_turn(rt, turns, &mut pass, number, shard, round);
        }
    }
    pass
}

// Two passes work in a thread each.
fn pair<R: Threads + Wait + Sync>(
    rt: &R,
    turns: &Turns<Ledger>,
    first: Pass<Ledger>,
    second: Pass<Ledger>,
    number: u64,
) -> (Pass<Ledger>, Pass<Ledger>)
    requires turns { IsOf turns.now first × IsOf turns.now second × (shards turns.now ≡ 3) × (number < 1000) }
    requires first { HasNoTurn (view first) × ((view first).number ≡ number) }
    requires second { HasNoTurn (view second) × ((view second).number ≡ number + 1) }
    ensures first { IsOf turns.now result.0 × HasNoTurn (view result.0) }
    ensures second { IsOf turns.now result.1 × HasNoTurn (view result.1) }
{
    join(
        rt,
        || -> Pass<Ledger>
            requires { (shards turns.now ≡ 3) × IsOf turns.now first × HasNoTurn (view first) × ((view first).number ≡ number) }
            ensures { IsOf turns.entry.now result × HasNoTurn (view result) }
        { work(rt, turns, first, number) },
        || -> Pass<Ledger>
            requires { (number < 1000) × (shards turns.now ≡ 3) × IsOf turns.now second × HasNoTurn (view second) × ((view second).number ≡ number + 1) }
            ensures { IsOf turns.entry.now result × HasNoTurn (view result) }
        { work(rt, turns, second, number + 1) },
    )
}

// Two passes are split off, work in threads of their own, and are joined.
fn two_more<R: Threads + Wait + Sync>(
    rt: &R,
    turns: &Turns<Ledger>,
    root: &mut Pass<Ledger>,
    number: u64,
)
    requires turns { IsOf turns.now root.old × (shards turns.now ≡ 3) }
    requires root { IsRoot (view root.old) × HasNoTurn (view root.old) }
    requires number { (length (view root.old).before + 1 ≡ number) × (number < 1000) }
    ensures turns { IsOf turns.now root.new }
    ensures root { IsRoot (view root.new) × HasNoTurn (view root.new) }
    ensures splits { length (view root.new).before ≡ length (view root.old).before + 2 }
    ensures joins { length (view root.new).joined ≡ length (view root.old).joined + 2 }
{
    let first = turns.split(root);
    let second = turns.split(root);
    let (first, second) = pair(rt, turns, first, second, number);
    turns.join(root, first);
    turns.join(root, second);
}

// Whether each value has each round of each of the first numbers once, in order.
fn are_whole(values: &[Ledger], numbers: usize) -> bool {
    values.iter().all(|value| is_whole(&value.lines, numbers))
}

fn is_whole(lines: &[(u64, u64)], numbers: usize) -> bool {
    let mut next = [0u64; 8];
    for line in lines {
        let Some(due) = next.get_mut(line.0 as usize) else {
            return false;
        };
        if line.1 != *due {
            return false;
        }
        *due = line.1.wrapping_add(1);
    }
    (1..8usize).all(|number| next[number] == if number <= numbers { ROUNDS } else { 0 })
}

fn rounds<R: Threads + Wait + Sync>(rt: &R, alloc: Global) -> Result<Vec<Ledger>, NoMemory> {
    let (turns, mut root) = Turns::make(alloc, ledgers(alloc)?)?;
    two_more(rt, &turns, &mut root, 1);
    two_more(rt, &turns, &mut root, 3);
    two_more(rt, &turns, &mut root, 5);
    Ok(turns.close(root).0)
}

#[test]
fn two_threads_in_three_rounds(rt: HostRuntime) -> Result<(), Fail> {
    let values = rounds(&rt, rt.alloc())?;
    assert!(rt; values.len() == 3 && are_whole(&values, 6));
    Ok(())
}

fn four_at_once<R: Threads + Wait + Sync>(rt: &R, alloc: Global) -> Result<Vec<Ledger>, NoMemory> {
    let (turns, mut root) = Turns::make(alloc, ledgers(alloc)?)?;
    let one = turns.split(&mut root);
    let two = turns.split(&mut root);
    let three = turns.split(&mut root);
    let four = turns.split(&mut root);
    let shared = &turns;
    let ((one, two), (three, four)) = join(
        rt,
        || -> (Pass<Ledger>, Pass<Ledger>)
            requires { (shards shared.now ≡ 3) × IsOf shared.now one × HasNoTurn (view one) × ((view one).number ≡ 1) × IsOf shared.now two × HasNoTurn (view two) × ((view two).number ≡ 2) }
            ensures { IsOf shared.entry.now result.0 × HasNoTurn (view result.0) × IsOf shared.entry.now result.1 × HasNoTurn (view result.1) }
        { pair(rt, shared, one, two, 1) },
        || -> (Pass<Ledger>, Pass<Ledger>)
            requires { (shards shared.now ≡ 3) × IsOf shared.now three × HasNoTurn (view three) × ((view three).number ≡ 3) × IsOf shared.now four × HasNoTurn (view four) × ((view four).number ≡ 4) }
            ensures { IsOf shared.entry.now result.0 × HasNoTurn (view result.0) × IsOf shared.entry.now result.1 × HasNoTurn (view result.1) }
        { pair(rt, shared, three, four, 3) },
    );
    turns.join(&mut root, four);
    turns.join(&mut root, one);
    turns.join(&mut root, three);
    turns.join(&mut root, two);
    Ok(turns.close(root).0)
}

#[test]
fn four_threads_at_once(rt: HostRuntime) -> Result<(), Fail> {
    let values = four_at_once(&rt, rt.alloc())?;
    assert!(rt; values.len() == 3 && are_whole(&values, 4));
    Ok(())
}
