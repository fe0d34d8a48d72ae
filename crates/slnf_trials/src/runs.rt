//! Many runs in threads, whose files are those of true runs.
ghost use Rattle.std.specs.Prelude.{◌≡◌, ◌≤◌, length, IfOk};
ghost use Rattle.slnf_flight.specs.Lanes.{packet_count};
ghost use Rattle.slnf_check.specs.Given.{AreRead, IsGiven};

use crate::captures::read_lane;
use crate::cases::{BALANCER, FIREWALL, NAT};
use crate::lanes::plan_of;
use slnf_base::{Row, Verdict};
use slnf_check::{Given, RunFiles, box_lines, check};
use slnf_flight::{Lane, Outcome, write_output};
use slnf_journal::{write_journal, write_verdicts};
use slnf_plan::Plan;
use slnf_store::NoGate;
use slnf_threads::run_plan;
use std::alloc::Global;
use std::hash::RandomState;
use std::sync::Wait;
use std::test::Fail;
use std::thread::Threads;

/// Epochs with many instances, stops and quotas.
const EPOCHS: [&str; 4] = [
    "epoch = [{ instances = [{ lane = 0 }, { lane = 1 }, { lane = 2 }, { lane = 3 }] }]",
    "epoch = [{ instances = [{ lane = 0, stop = 5 }, { lane = 1 }, { lane = 2, quota = 3 }] },
       { instances = [{ lane = 2 }, { lane = 3 }, { lane = 0 }] }]",
    "epoch = [{ instances = [{ lane = 3, stop = 0 }, { lane = 2, stop = 1 }, { lane = 1, stop = 2 }, { lane = 0, stop = 3 }] },
       { instances = [{ lane = 0 }, { lane = 1, quota = 0 }] },
       { instances = [{ lane = 3 }, { lane = 1 }] }]",
    "epoch = [{ instances = [{ lane = 0, quota = 2, stop = 4 }, { lane = 1, quota = 4 }] },
       { instances = [{ lane = 1, stop = 7 }, { lane = 0 }, { lane = 2 }, { lane = 3 }] }]",
];

/// Epochs with sweeps, of which one is stopped.
const SWEPT: &str =
    "epoch = [{ instances = [{ lane = 0, stop = 2 }, { lane = 1, stop = 3 }, { lane = 2 }], sweep = true },
       { instances = [{ lane = 0 }, { lane = 3 }], sweep = true, sweep_stop = 5 },
       { instances = [{ lane = 1 }], sweep = true }]";

/// A function over four lanes.
struct Load {
    function: &'static str,
    lanes: [&'static str; 4],
}

static BALANCED: Load = Load {
    function: BALANCER,
    lanes: ["abacab", "babxa", "aabb", "cab"],
};

static TRANSLATED: Load = Load {
    function: NAT,
    lanes: ["stusrAx", "tusst", "rsut", "stust"],
};

static GUARDED: Load = Load {
    function: FIREWALL,
    lanes: ["sARtAR", "RstA", "xsst", "ARus"],
};

/// What check and box tell of a run in threads.
#[derive(Drop)]
struct Told {
    entries: u64,
    lines: usize,
}

/// The output capture of a lane by its verdicts.
fn output_of(alloc: Global, given: &Given, verdicts: Option<&Row<Verdict>>) -> Result<Row<u8>, Fail>
    requires { IsGiven given.now }
{
    let verdicts = verdicts.ok_or("it has a lane")?;
    if verdicts.len() != given.capture.packets.len() {
        return Err("it has a verdict for each packet")?;
    }
    let text = write_output(
        alloc,
        given.bytes.as_slice(),
        &given.capture,
        verdicts.as_slice(),
    )?;
    Ok(Row::from_vec(text))
}

/// The output captures of four lanes by their verdicts.
fn outputs_of(
    alloc: Global,
    first: &Given,
    second: &Given,
    third: &Given,
    fourth: &Given,
    verdicts: &[Row<Verdict>],
) -> Result<Vec<Row<u8>>, Fail>
    requires first { IsGiven first.now }
    requires second { IsGiven second.now }
    requires third { IsGiven third.now }
    requires fourth { IsGiven fourth.now }
    ensures { IfOk result (λ outputs. length outputs.items ≡ 4) }
{
    let mut outputs = Vec::with_capacity(alloc, 4)?;
    outputs.push(output_of(alloc, first, verdicts.get(0))?)?;
    outputs.push(output_of(alloc, second, verdicts.get(1))?)?;
    outputs.push(output_of(alloc, third, verdicts.get(2))?)?;
    outputs.push(output_of(alloc, fourth, verdicts.get(3))?)?;
    Ok(outputs)
}

/// The files of a run with these outputs.
fn files_of(alloc: Global, outcome: &Outcome, outputs: Vec<Row<u8>>) -> Result<RunFiles, Fail>
    ensures { IfOk result (λ files. files.outputs ≡ outputs.items) }
{
    let journal = write_journal(alloc, outcome.journal.as_slice())?;
    let verdicts = write_verdicts(alloc, outcome.verdicts.as_slice())?;
    Ok(RunFiles {
        journal: Row::from_vec(journal),
        verdicts: Row::from_vec(verdicts),
        outputs: Row::from_vec(outputs),
    })
}

/// What check and box tell of the files.
fn told_of(
    alloc: Global,
    state: RandomState,
    plan: &Plan,
    lanes: &[Lane],
    given: &[Given],
    files: &RunFiles,
) -> Result<Told, Fail>
    requires few_lanes { length lanes.now ≤ 32 }
    requires few_packets { packet_count lanes.now ≤ 1048576 }
    requires read { AreRead given.now lanes.now }
    requires outputs { length files.now.outputs ≡ length given.now }
{
    let accepted = check(alloc, state, plan, lanes, given, files).map_err(|_| "check refuses it")?;
    let journal = files.journal.as_slice();
    let lines = box_lines(alloc, state, plan, lanes, journal).map_err(|_| "box refuses it")?;
    Ok(Told {
        entries: accepted.entries,
        lines: lines.len(),
    })
}

/// Runs the plan in threads over the captures of these lanes, and asks check and box about its files.
fn run_and_check<R: Threads + Wait + Sync>(
    rt: &R,
    alloc: Global,
    state: RandomState,
    plan: &Plan,
    texts: [&'static str; 4],
) -> Result<Told, Fail> {
    let [first, second, third, fourth] = texts;
    let first = read_lane(alloc, first)?;
    let second = read_lane(alloc, second)?;
    let third = read_lane(alloc, third)?;
    let fourth = read_lane(alloc, fourth)?;
    let lanes = [first.lane, second.lane, third.lane, fourth.lane];
    let outcome = run_plan(rt, alloc, state, plan, &lanes, &NoGate)?.joined(alloc)?;
    let outputs = outputs_of(
        alloc,
        &first.given,
        &second.given,
        &third.given,
        &fourth.given,
        outcome.verdicts.as_slice(),
    )?;
    let files = files_of(alloc, &outcome, outputs)?;
    let given = [first.given, second.given, third.given, fourth.given];
    told_of(alloc, state, plan, &lanes, &given, &files)
}

/// The epochs of a number.
fn epochs_of(number: u32) -> &'static str {
    match number % 5 {
        0 => EPOCHS[0],
        1 => EPOCHS[1],
        2 => EPOCHS[2],
        3 => EPOCHS[3],
        _ => SWEPT,
    }
}

/// The function of a number and its lanes. Only a NAT has sweeps.
fn load_of(number: u32) -> &'static Load {
    match number % 3 {
        _ if number % 5 == 4 => &TRANSLATED,
        0 => &BALANCED,
        1 => &TRANSLATED,
        _ => &GUARDED,
    }
}

#[test]
fn runs_in_threads_are_accepted(rt: HostRuntime) -> Result<(), Fail> {
    let alloc = rt.alloc();
    for number in 0..100u32 {
        let shards = 1 + number % 7;
        let batch = 1 + number % 4;
        let epochs = epochs_of(number);
        let text = format!(in alloc; "shards = {shards}\nbatch = {batch}\n{epochs}")?;
        let state = RandomState::new(&rt)?;
        let load = load_of(number);
        let plan = plan_of(alloc, load.function, text.as_str())?;
        let told = run_and_check(&rt, alloc, state, &plan, load.lanes)?;
        assert!(rt; told.entries > 0);
        assert!(rt; told.lines > 0);
    }
    Ok(())
}
