ghost use Rattle.std.specs.Prelude.{◌≡◌, ◌+◌, ◌^◌, ◌<◌, ◌≤◌, Some, length, map, IfOk};
ghost use Rattle.std.specs.List.{range_with_len};
ghost use Rattle.slnf_access.specs.Machines.{machine_of, Stand, Flies, Ends, stand_of_start, stand_of_step, stand_step};
ghost use Rattle.slnf_access.specs.Map.{CanReply};
ghost use Rattle.slnf_access.specs.declared.requests.Entry.{Entry};
ghost use Rattle.slnf_verdicts.specs.Standings.{standing_at, begun_of, stood, IsFollowed};
ghost use Rattle.slnf_run.specs.Jobs.{verdict_at};

use slnf_access::{Entry, Function, Reply, Start, Step};
use slnf_base::{NoMemory, Verdict};
use slnf_flight::{Taken, begin};
use std::alloc::Global;

/// Where a packet stands: its flight while it is under way, and its verdict, which is `Lost` until it has ended.
#[derive(Debug, Drop)]
pub(crate) struct Standing<T> {
    pub(crate) flight: Option<T>,
    pub(crate) verdict: Verdict,
}

/// A packet that is under way, with this flight.
fn under_way<T: Drop>(flight: T) -> Standing<T>
    ensures { result ≡ standing_at (Flies flight) }
{
    Standing {
        flight: Some(flight),
        verdict: Verdict::Lost,
    }
}

/// A packet that has ended, with this verdict.
fn ended<T: Drop>(verdict: Verdict) -> Standing<T>
    ensures { result ≡ standing_at (Ends (Some verdict)) }
{
    Standing {
        flight: None,
        verdict,
    }
}

/// Where a packet stands that begins so.
fn started<T: Drop>(start: Start<T>) -> Standing<T>
    ensures { result ≡ standing_at (stand_of_start start) }
{
    match start {
        Start::Go(flight) => under_way(flight),
        Start::Over(reason) => ended(Verdict::Dropped(reason)),
    }
}

/// Where a packet stands that goes on so.
fn gone<T: Drop>(step: Step<T>) -> Standing<T>
    ensures { result ≡ standing_at (stand_of_step step) }
{
    match step {
        Step::Go(flight) => under_way(flight),
        Step::Over(verdict) => ended(verdict),
    }
}

/// Lets a packet that is under way go on by the reply to its access.
fn answer<F: Function>(function: &F, standing: &mut Standing<F::Flight>, reply: Reply)
    requires { (flight : F.Flight) → standing.old.flight ≡ Some flight →
        CanReply ((F.behaviour function.now).asks flight) reply }
    ensures { (stand : Stand F.Flight) (e : Entry) → standing.old ≡ standing_at stand → e.reply ≡ reply
        → standing.new ≡ standing_at (stand_step (machine_of (F.behaviour function.now)) stand e) }
{
    if let Some(flight) = standing.flight.take() {
        *standing = gone(function.after(flight, reply));
    }
}

/// Where the `count` packets from `at` on stand before their first accesses.
fn begin_all<F: Function>(
    alloc: Global,
    function: &F,
    incarnation: u64,
    packets: &[Taken],
    at: usize,
    count: usize,
) -> Result<Vec<Standing<F::Flight>>, NoMemory>
    requires incarnation { incarnation < 2 ^ 32 }
    requires few { length packets.now < 2 ^ 32 }
    requires inside { 0 < count → at + count ≤ length packets.now }
    ensures { IfOk result (λ standings. standings.items
        ≡ map (λ number. standing_at (begun_of ((F.behaviour function.now).begins incarnation) packets.now number))
        (range_with_len at count)) }
{
    let mut standings = Vec::new(alloc);
    for place in 0..count {
        let number = at + place;
        standings.push(started(begin(function, incarnation, number, &packets[number])))?;
    }
    Ok(standings)
}

/// Where the `count` packets from `at` on stand after these entries of their incarnation.
fn stand_all<F: Function>(
    alloc: Global,
    function: &F,
    incarnation: u64,
    packets: &[Taken],
    at: usize,
    count: usize,
    entries: &[Entry],
) -> Result<Vec<Standing<F::Flight>>, NoMemory>
    requires incarnation { incarnation < 2 ^ 32 }
    requires few { length packets.now < 2 ^ 32 }
    requires inside { 0 < count → at + count ≤ length packets.now }
    requires followed { IsFollowed (machine_of (F.behaviour function.now))
        (begun_of ((F.behaviour function.now).begins incarnation) packets.now) entries.now }
    ensures { IfOk result (λ standings. standings.items
        ≡ map (λ number. standing_at (stood (machine_of (F.behaviour function.now))
        (begun_of ((F.behaviour function.now).begins incarnation) packets.now) entries.now number))
        (range_with_len at count)) }
{
    let mut standings = begin_all(alloc, function, incarnation, packets, at, count)?;
    for entry in entries {
        let item = entry.item as usize;
        if at <= item && item - at < count {
            answer(function, &mut standings[item - at], entry.reply);
        }
    }
    Ok(standings)
}

/// The verdicts of packets that stand so.
fn verdicts_in<T>(alloc: Global, standings: &[Standing<T>]) -> Result<Vec<Verdict>, NoMemory>
    ensures { IfOk result (λ verdicts. verdicts.items ≡ map (λ standing. standing.verdict) standings.now) }
{
    let mut verdicts = Vec::new(alloc);
    for standing in standings {
        verdicts.push(standing.verdict)?;
    }
    Ok(verdicts)
}

/// The verdicts of the `count` packets from `at` on, by these entries of the incarnation that took them. The entries
/// are paths of the function, whole or not, with replies that their requests can have.
pub(crate) fn verdicts_by<F: Function>(
    alloc: Global,
    function: &F,
    incarnation: u64,
    packets: &[Taken],
    at: usize,
    count: usize,
    entries: &[Entry],
) -> Result<Vec<Verdict>, NoMemory>
    requires incarnation { incarnation < 2 ^ 32 }
    requires few { length packets.now < 2 ^ 32 }
    requires inside { 0 < count → at + count ≤ length packets.now }
    requires followed { IsFollowed (machine_of (F.behaviour function.now))
        (begun_of ((F.behaviour function.now).begins incarnation) packets.now) entries.now }
    ensures { IfOk result (λ verdicts. verdicts.items
        ≡ map (λ number. verdict_at (stood (machine_of (F.behaviour function.now))
        (begun_of ((F.behaviour function.now).begins incarnation) packets.now) entries.now number))
        (range_with_len at count)) }
{
    let standings = stand_all(alloc, function, incarnation, packets, at, count, entries)?;
    let verdicts = verdicts_in(alloc, standings.as_slice())?;
    Ok(verdicts)
}
