//! Worked runs in threads, held by gates.
use crate::cases::BALANCER;
use crate::entries::{OTHER_PIN, OTHER_PINNED, PIN, PINNED, entry, put, read};
use crate::gates::{AfterFirst, Flag, InTurn, Turns};
use crate::lanes::{lanes_of, plan_of};
use crate::letters::letters;
use slnf_access::Reply;
use slnf_flight::Outcome;
use slnf_store::{Gate, NoGate};
use slnf_threads::run_plan;
use std::alloc::Global;
use std::hash::RandomState;
use std::sync::Wait;
use std::sync::atomic::{AtomicU64, Ordering};
use std::test::Fail;
use std::thread::Threads;

/// How often a hold looks at its flag, where it is raised by another thread.
const MOST: u64 = 1_000_000_000;

/// How often it does where nobody raises it.
const FEW: u64 = 1_000_000;

/// Runs the balancer's plan with these epochs over the lanes of a text.
fn run<R: Threads + Wait + Sync, G: Gate + Sync>(
    rt: &R,
    alloc: Global,
    state: RandomState,
    epochs: &str,
    lanes: &str,
    gate: &G,
) -> Result<Outcome, Fail> {
    let plan = plan_of(alloc, BALANCER, epochs)?;
    let lanes = lanes_of(alloc, lanes)?;
    let outcome = run_plan(rt, alloc, state, &plan, lanes.as_slice(), gate)?;
    Ok(outcome.joined(alloc)?)
}

/// A gate that holds instances apart, in holds of so many loads.
fn in_turn(most: u64) -> InTurn {
    InTurn {
        taken: Flag::new(),
        let_go: Flag::new(),
        given_back: Flag::new(),
        most,
        mark: Flag::new(),
    }
}

#[test]
fn two_instances_agree_on_a_flow(rt: HostRuntime) -> Result<(), Fail> {
    let state = RandomState::new(&rt)?;
    let epochs =
        "shards = 1\nepoch = [{ instances = [{ lane = 0 }, { lane = 1 }], schedule = [0, 1, 0, 1] }]";
    let outcome = run(&rt, rt.alloc(), state, epochs, "a|a", &NoGate)?;
    let verdicts = letters(rt.alloc(), outcome.verdicts.as_slice())?;
    assert!(rt; verdicts.as_str() == "x|x" || verdicts.as_str() == "y|y");
    assert_eq!(rt; outcome.left, 0);
    Ok(())
}

#[test]
fn an_instance_waits_for_another(rt: HostRuntime) -> Result<(), Fail> {
    let state = RandomState::new(&rt)?;
    let gate = AfterFirst {
        made_three: Flag::new(),
        held: Flag::new(),
        most: MOST,
        mark: Flag::new(),
    };
    let epochs = "shards = 1\nepoch = [{ instances = [{ lane = 0 }, { lane = 1 }] }]";
    let outcome = run(&rt, rt.alloc(), state, epochs, "aaa|aaa", &gate)?;
    assert!(rt; gate.made_three.is_raised());
    assert!(rt; gate.held.is_raised());
    assert!(rt; !gate.mark.is_raised());
    let verdicts = letters(rt.alloc(), outcome.verdicts.as_slice())?;
    assert_eq!(rt; verdicts.as_str(), "xxx|xxx");
    Ok(())
}

#[test]
fn shards_are_held_apart(rt: HostRuntime) -> Result<(), Fail> {
    let state = RandomState::new(&rt)?;
    let gate = in_turn(MOST);
    let epochs =
        "shards = 2\nepoch = [{ instances = [{ lane = 0 }, { lane = 1 }], schedule = [0, 1, 0, 1] }]";
    let outcome = run(&rt, rt.alloc(), state, epochs, "a|b", &gate)?;
    assert!(rt; gate.taken.is_raised());
    assert!(rt; gate.let_go.is_raised());
    assert!(rt; gate.given_back.is_raised());
    assert!(rt; !gate.mark.is_raised());
    let mut other = entry([1, 1, 0], read(OTHER_PIN), Reply::Absent);
    other.shard = 1;
    let mut last = entry([2, 1, 0], put(OTHER_PIN, OTHER_PINNED), Reply::Done(2));
    last.shard = 1;
    let expected = [
        entry([1, 0, 0], read(PIN), Reply::Absent),
        other,
        entry([2, 0, 0], put(PIN, PINNED), Reply::Done(2)),
        last,
    ];
    assert_eq!(rt; outcome.journal.as_slice(), expected.as_slice());
    let verdicts = letters(rt.alloc(), outcome.verdicts.as_slice())?;
    assert_eq!(rt; verdicts.as_str(), "x|y");
    Ok(())
}

#[test]
fn actors_that_take_turns_are_marked(rt: HostRuntime) -> Result<(), Fail> {
    // As one thread would run them, and with one turn for all keys.
    let apart =
        "shards = 2\nepoch = [{ instances = [{ lane = 0 }] }, { instances = [{ lane = 1 }] }]";
    let together = "shards = 1\nepoch = [{ instances = [{ lane = 0 }, { lane = 1 }] }]";
    for epochs in [apart, together] {
        let state = RandomState::new(&rt)?;
        let gate = in_turn(FEW);
        let outcome = run(&rt, rt.alloc(), state, epochs, "a|b", &gate)?;
        assert!(rt; gate.mark.is_raised());
        let verdicts = letters(rt.alloc(), outcome.verdicts.as_slice())?;
        assert_eq!(rt; verdicts.as_str(), "x|y");
    }
    Ok(())
}

#[test]
fn a_round_to_one_shard_is_one_turn(rt: HostRuntime) -> Result<(), Fail> {
    let state = RandomState::new(&rt)?;
    let gate = Turns {
        count: AtomicU64::new(0),
    };
    let epochs = "shards = 1\nbatch = 3\nepoch = [{ instances = [{ lane = 0 }] }]";
    let outcome = run(&rt, rt.alloc(), state, epochs, "aba", &gate)?;
    assert_eq!(rt; gate.count.load(Ordering::SeqCst), 3);
    let expected = [
        entry([1, 0, 0], read(PIN), Reply::Absent),
        entry([2, 0, 1], read(OTHER_PIN), Reply::Absent),
        entry([3, 0, 0], put(PIN, PINNED), Reply::Done(3)),
        entry([4, 0, 1], put(OTHER_PIN, OTHER_PINNED), Reply::Done(4)),
        entry([5, 0, 2], read(PIN), Reply::Found(PINNED, 3)),
    ];
    assert_eq!(rt; outcome.journal.as_slice(), expected.as_slice());
    let verdicts = letters(rt.alloc(), outcome.verdicts.as_slice())?;
    assert_eq!(rt; verdicts.as_str(), "xyx");
    Ok(())
}
