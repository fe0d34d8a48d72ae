//! Worked runs of the loops that run a plan.
use crate::box_cases::BOX_CASES;
use crate::cases::{BALANCER, CASES, NAT, NAT_OF_TWO, SWEPT};
use crate::entries::{
    CLAIM, FIRST_PORT, FIRST_UDP_PORT, FLOW, LATER_CLAIM, OTHER_CLAIM, OTHER_FLOW, OTHER_PIN,
    OTHER_PINNED, PIN, PINNED, SECOND_PORT, SECOND_UDP_PORT, THIRD_PORT, TO_FIRST, TO_SECOND,
    TO_THIRD, delete, entry, put, read,
};
use crate::lanes::{lanes_of, plan_of};
use crate::letters::letters;
use slnf_access::Reply;
use slnf_flight::Outcome;
use slnf_orch::step_plan;
use slnf_replay::box_lines;
use slnf_verdicts::verdicts_of;
use std::alloc::Global;
use std::hash::RandomState;
use std::test::Fail;

/// Runs a plan over the lanes of a text.
fn run(
    alloc: Global,
    state: RandomState,
    plan: &str,
    epochs: &str,
    lanes: &str,
) -> Result<Outcome, Fail> {
    let plan = plan_of(alloc, plan, epochs)?;
    let lanes = lanes_of(alloc, lanes)?;
    Ok(step_plan(alloc, state, &plan, lanes.as_slice())?)
}

/// What becomes of each packet as the loops tell it and as the journal alone does, and how many accesses were made.
#[derive(Drop)]
struct Told {
    by_loops: String,
    by_journal: String,
    entries: usize,
}

/// Runs a plan over the lanes of a text, and reads the verdicts again off the journal.
fn run_and_read(
    alloc: Global,
    state: RandomState,
    plan: &str,
    epochs: &str,
    lanes: &str,
) -> Result<Told, Fail> {
    let plan = plan_of(alloc, plan, epochs)?;
    let lanes = lanes_of(alloc, lanes)?;
    let outcome = step_plan(alloc, state, &plan, lanes.as_slice())?;
    let verdicts = verdicts_of(alloc, &plan, lanes.as_slice(), outcome.journal.as_slice())?;
    Ok(Told {
        by_loops: letters(alloc, outcome.verdicts.as_slice())?,
        by_journal: letters(alloc, verdicts.as_slice())?,
        entries: outcome.journal.len(),
    })
}

#[test]
fn worked_runs_end_so(rt: HostRuntime) -> Result<(), Fail> {
    let alloc = rt.alloc();
    for case in CASES.iter() {
        let state = RandomState::new(&rt)?;
        let told = run_and_read(alloc, state, case.plan, case.epochs, case.lanes)?;
        assert_eq!(rt; told.by_loops.as_str(), case.verdicts);
        assert_eq!(rt; told.by_journal.as_str(), case.verdicts);
        assert_eq!(rt; told.entries, case.entries);
    }
    Ok(())
}

#[test]
fn ordinary_boxes_answer_so(rt: HostRuntime) -> Result<(), Fail> {
    let alloc = rt.alloc();
    for case in BOX_CASES.iter() {
        let state = RandomState::new(&rt)?;
        let plan = plan_of(alloc, case.plan, case.epochs)?;
        let lanes = lanes_of(alloc, case.lanes)?;
        let outcome = step_plan(alloc, state, &plan, lanes.as_slice())?;
        let text = box_lines(alloc, &plan, lanes.as_slice(), outcome.journal.as_slice())?;
        assert_eq!(rt; text.as_slice(), case.text.as_bytes());
    }
    Ok(())
}

#[test]
fn two_first_packets_of_a_flow_agree(rt: HostRuntime) -> Result<(), Fail> {
    let state = RandomState::new(&rt)?;
    let epochs =
        "shards = 1\nepoch = [{ instances = [{ lane = 0 }, { lane = 1 }], schedule = [0, 1, 0, 1, 0, 1, 1, 1] }]";
    let outcome = run(rt.alloc(), state, NAT, epochs, "s|s")?;
    let expected = [
        entry([1, 0, 0], read(FLOW), Reply::Absent),
        entry([2, 1, 0], read(FLOW), Reply::Absent),
        entry([3, 0, 0], put(SECOND_PORT, CLAIM), Reply::Done(3)),
        entry(
            [4, 1, 0],
            put(SECOND_PORT, LATER_CLAIM),
            Reply::Found(CLAIM, 3),
        ),
        entry([5, 0, 0], put(FLOW, TO_SECOND), Reply::Done(5)),
        entry([6, 1, 0], put(THIRD_PORT, LATER_CLAIM), Reply::Done(6)),
        entry([7, 1, 0], put(FLOW, TO_THIRD), Reply::Found(TO_SECOND, 5)),
        entry([8, 1, 0], delete(THIRD_PORT, 6), Reply::Done(8)),
    ];
    assert_eq!(rt; outcome.journal.as_slice(), expected.as_slice());
    assert_eq!(rt; outcome.left, 0);
    Ok(())
}

#[test]
fn a_sweep_takes_an_orphan_away(rt: HostRuntime) -> Result<(), Fail> {
    let state = RandomState::new(&rt)?;
    let outcome = run(rt.alloc(), state, NAT_OF_TWO, SWEPT, "s|t")?;
    let expected = [
        entry([1, 0, 0], read(FLOW), Reply::Absent),
        entry([2, 0, 0], put(SECOND_PORT, CLAIM), Reply::Done(2)),
        entry([3, 1, 0], read(OTHER_FLOW), Reply::Absent),
        entry([4, 1, 0], put(FIRST_PORT, OTHER_CLAIM), Reply::Done(4)),
        entry([5, 2, 0], read(FIRST_PORT), Reply::Found(OTHER_CLAIM, 4)),
        entry([6, 2, 1], read(SECOND_PORT), Reply::Found(CLAIM, 2)),
        entry([7, 2, 1], read(FLOW), Reply::Absent),
        entry([8, 2, 1], delete(SECOND_PORT, 2), Reply::Done(8)),
        entry([9, 1, 0], put(OTHER_FLOW, TO_FIRST), Reply::Done(9)),
        entry([10, 2, 2], read(FIRST_UDP_PORT), Reply::Absent),
        entry([11, 2, 3], read(SECOND_UDP_PORT), Reply::Absent),
    ];
    assert_eq!(rt; outcome.journal.as_slice(), expected.as_slice());
    Ok(())
}

#[test]
fn a_batch_goes_in_rounds(rt: HostRuntime) -> Result<(), Fail> {
    let state = RandomState::new(&rt)?;
    let epochs = "shards = 1\nbatch = 3\nepoch = [{ instances = [{ lane = 0 }] }]";
    let outcome = run(rt.alloc(), state, BALANCER, epochs, "aba")?;
    let expected = [
        entry([1, 0, 0], read(PIN), Reply::Absent),
        entry([2, 0, 1], read(OTHER_PIN), Reply::Absent),
        entry([3, 0, 0], put(PIN, PINNED), Reply::Done(3)),
        entry([4, 0, 1], put(OTHER_PIN, OTHER_PINNED), Reply::Done(4)),
        entry([5, 0, 2], read(PIN), Reply::Found(PINNED, 3)),
    ];
    assert_eq!(rt; outcome.journal.as_slice(), expected.as_slice());
    Ok(())
}

#[test]
fn each_shard_has_its_clock(rt: HostRuntime) -> Result<(), Fail> {
    let state = RandomState::new(&rt)?;
    let epochs =
        "shards = 2\nepoch = [{ instances = [{ lane = 0 }, { lane = 1, quota = 0 }] }, { instances = [{ lane = 1 }] }]";
    let outcome = run(rt.alloc(), state, BALANCER, epochs, "aa|b")?;
    let mut other = entry([4, 2, 0], read(OTHER_PIN), Reply::Absent);
    other.shard = 1;
    let mut last = entry([5, 2, 0], put(OTHER_PIN, PINNED), Reply::Done(5));
    last.shard = 1;
    let expected = [
        entry([1, 0, 0], read(PIN), Reply::Absent),
        entry([2, 0, 0], put(PIN, PINNED), Reply::Done(2)),
        entry([3, 0, 1], read(PIN), Reply::Found(PINNED, 2)),
        other,
        last,
    ];
    assert_eq!(rt; outcome.journal.as_slice(), expected.as_slice());
    Ok(())
}
