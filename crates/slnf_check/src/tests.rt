ghost use Rattle.std.specs.Prelude.{◌<◌, ◌≤◌, length, IfOk};
ghost use Rattle.slnf_check.specs.Given.{IsRead};

use crate::{Accepted, At, CheckError, Given, Refusal, RunFiles, check};
use slnf_base::Row;
use slnf_flight::{Lane, make_lane};
use slnf_pcap::read_capture;
use slnf_plan::read_plan;
use std::alloc::Global;
use std::hash::RandomState;
use std::test::Fail;

/// A balancer of two backends, and an instance for each of two lanes.
const PLAN: &str = r#"
shards = 1
function = "balancer"
balancer = { proto = "udp", service = "198.51.100.10:53", backends = ["10.1.0.1:53", "10.1.0.2:53"] }
epoch = [{ instances = [{ lane = 0 }, { lane = 1 }], schedule = [0, 1, 0, 1] }]
"#;

/// A datagram of 192.0.2.1:4000 to the service.
const CAPTURE: &[u8] =
    b"\xd4\xc3\xb2\xa1\x02\x00\x04\x00\x00\x00\x00\x00\x00\x00\x00\x00\x00\x00\x04\x00\x65\x00\x00\x00\x01\x00\x00\x00\x00\x00\x00\x00\x1c\x00\x00\x00\x1c\x00\x00\x00\x45\x00\x00\x1c\x00\x01\x00\x00\x40\x11\x8e\x91\xc0\x00\x02\x01\xc6\x33\x64\x0a\x0f\xa0\x00\x35\x00\x08\x03\xca";

/// The same, sent on to the first backend.
const OUTPUT: &[u8] =
    b"\xd4\xc3\xb2\xa1\x02\x00\x04\x00\x00\x00\x00\x00\x00\x00\x00\x00\x00\x00\x04\x00\x65\x00\x00\x00\x01\x00\x00\x00\x00\x00\x00\x00\x1c\x00\x00\x00\x1c\x00\x00\x00\x45\x00\x00\x1c\x00\x01\x00\x00\x40\x11\xae\xcd\xc0\x00\x02\x01\x0a\x01\x00\x01\x0f\xa0\x00\x35\x00\x08\x24\x06";

const VERDICTS: &str = "slnf verdicts 1\n0 0 emit dest 10.1.0.1:53\n1 0 emit dest 10.1.0.1:53\n";

/// The journal of both instances, line by line.
const JOURNAL: [&str; 5] = [
    "slnf journal 1\n",
    "1 0 0 0 read 04110000000000000000c00002010fa0 absent\n",
    "2 0 1 0 read 04110000000000000000c00002010fa0 absent\n",
    "3 0 0 0 put 04110000000000000000c00002010fa0 000000000000000000000a0100010035 done 3\n",
    "4 0 1 0 put 04110000000000000000c00002010fa0 000000000000000000000a0100020035 found 000000000000000000000a0100010035 3\n",
];

/// A capture that was read, and its lane.
#[derive(Drop)]
struct OneLane {
    given: Given,
    lane: Lane,
}

/// A capture of four packets at most.
fn read_lane(alloc: Global, bytes: &[u8]) -> Result<OneLane, Fail>
    ensures read { IfOk result (λ one. IsRead one.given one.lane) }
    ensures few { IfOk result (λ one. length one.lane.packets ≤ 4) }
{
    let capture = read_capture(alloc, bytes).map_err(|_| "it is a capture")?;
    let lane = make_lane(alloc, bytes, &capture)?;
    if lane.packets.len() > 4 {
        return Err("it is too long")?;
    }
    let bytes = Row::from_vec(Vec::from_slice(alloc, bytes)?);
    Ok(OneLane {
        given: Given { bytes, capture },
        lane,
    })
}

fn row(alloc: Global, bytes: &[u8]) -> Result<Row<u8>, Fail> {
    Ok(Row::from_vec(Vec::from_slice(alloc, bytes)?))
}

/// What is told of files of the plan.
fn told(
    rt: &HostRuntime,
    journal: &[&str],
    verdicts: &str,
    first: &[u8],
    second: &[u8],
) -> Result<Result<Accepted, CheckError>, Fail> {
    let alloc = rt.alloc();
    let plan = read_plan(alloc, PLAN.as_bytes()).map_err(|_| "it is a plan")?;
    let one = read_lane(alloc, CAPTURE)?;
    let other = read_lane(alloc, CAPTURE)?;
    let mut lines = Vec::new(alloc);
    for line in journal {
        lines.extend_from_slice(line.as_bytes())?;
    }
    let files = RunFiles {
        journal: Row::from_vec(lines),
        verdicts: row(alloc, verdicts.as_bytes())?,
        outputs: Row::from_vec(vec![in alloc; row(alloc, first)?, row(alloc, second)?]?),
    };
    let state = RandomState::new(rt)?;
    let lanes = [one.lane, other.lane];
    let given = [one.given, other.given];
    Ok(check(alloc, state, &plan, &lanes, &given, &files))
}

/// What is told of a journal whose line of this index is another one.
fn told_with(
    rt: &HostRuntime,
    index: usize,
    line: &'static str,
) -> Result<Result<Accepted, CheckError>, Fail>
    requires { index < 5 }
{
    let mut journal = JOURNAL;
    journal[index] = line;
    told(rt, &journal, VERDICTS, OUTPUT, OUTPUT)
}

fn refused(rule: u8, at: At) -> Result<Accepted, CheckError> {
    Err(CheckError::Refused(Refusal { rule, at }))
}

#[test]
fn the_files_of_a_run_are_accepted(rt: HostRuntime) -> Result<(), Fail> {
    let files = told(&rt, &JOURNAL, VERDICTS, OUTPUT, OUTPUT)?;
    assert_eq!(rt; files, Ok(Accepted { entries: 4 }));
    Ok(())
}

#[test]
fn what_is_no_journal_has_its_line(rt: HostRuntime) -> Result<(), Fail> {
    let told = |index, line| told_with(&rt, index, line);
    assert_eq!(rt; told(0, "slnf journal 9\n")?, refused(1, At::Line(1)));
    let unended =
        "4 0 1 0 put 04110000000000000000c00002010fa0 000000000000000000000a0100020035 found 000000000000000000000a0100010035 3";
    assert_eq!(rt; told(4, unended)?, refused(1, At::Line(5)));
    assert_eq!(rt; told(2, "2 0 1 0 write\n")?, refused(1, At::Line(3)));
    Ok(())
}

#[test]
fn entries_that_are_no_run_have_the_rule_and_the_place(rt: HostRuntime) -> Result<(), Fail> {
    let told = |index, line| told_with(&rt, index, line);
    // An earlier stamp, and another shard.
    let early = "1 0 1 0 read 04110000000000000000c00002010fa0 absent\n";
    assert_eq!(rt; told(2, early)?, refused(2, At::Entry(2)));
    let aside = "1 1 0 0 read 04110000000000000000c00002010fa0 absent\n";
    assert_eq!(rt; told(1, aside)?, refused(2, At::Entry(1)));
    // Replies that the map doesn't give.
    let later =
        "3 0 0 0 put 04110000000000000000c00002010fa0 000000000000000000000a0100010035 done 4\n";
    assert_eq!(rt; told(3, later)?, refused(3, At::Entry(3)));
    let another =
        "4 0 1 0 put 04110000000000000000c00002010fa0 000000000000000000000a0100020035 found 000000000000000000000a0100020035 3\n";
    assert_eq!(rt; told(4, another)?, refused(3, At::Entry(4)));
    // A request that isn't asked, an incarnation that isn't there, and an item that isn't in hand.
    let unasked =
        "4 0 1 0 put 04110000000000000000c00002010fa0 000000000000000000000a0100010035 found 000000000000000000000a0100010035 3\n";
    assert_eq!(rt; told(4, unasked)?, refused(4, At::Entry(4)));
    let nobody = "1 0 2 0 read 04110000000000000000c00002010fa0 absent\n";
    assert_eq!(rt; told(1, nobody)?, refused(4, At::Entry(1)));
    let nothing =
        "4 0 1 1 put 04110000000000000000c00002010fa0 000000000000000000000a0100020035 found 000000000000000000000a0100010035 3\n";
    assert_eq!(rt; told(4, nothing)?, refused(4, At::Entry(4)));
    Ok(())
}

#[test]
fn an_entry_too_many_and_one_too_few(rt: HostRuntime) -> Result<(), Fail> {
    let told = |journal: &[&str]| told(&rt, journal, VERDICTS, OUTPUT, OUTPUT);
    let [header, first, second, third, fourth] = JOURNAL;
    let fifth =
        "5 0 1 0 read 04110000000000000000c00002010fa0 found 000000000000000000000a0100010035 3\n";
    let more = told(&[header, first, second, third, fourth, fifth])?;
    assert_eq!(rt; more, refused(4, At::Entry(5)));
    assert_eq!(rt;
        told(&[header, first, second, third])?,
        refused(5, At::Incarnation(1))
    );
    assert_eq!(rt; told(&[header])?, refused(5, At::Incarnation(0)));
    Ok(())
}

#[test]
fn other_verdicts_have_their_line(rt: HostRuntime) -> Result<(), Fail> {
    let told = |verdicts: &str| told(&rt, &JOURNAL, verdicts, OUTPUT, OUTPUT);
    let lost = "slnf verdicts 1\n0 0 emit dest 10.1.0.1:53\n1 0 lost\n";
    assert_eq!(rt; told(lost)?, refused(6, At::Line(3)));
    let fewer = "slnf verdicts 1\n0 0 emit dest 10.1.0.1:53\n";
    assert_eq!(rt; told(fewer)?, refused(6, At::Line(3)));
    let unended = "slnf verdicts 1\n0 0 emit dest 10.1.0.1:53\n1 0 emit dest 10.1.0.1:53";
    assert_eq!(rt; told(unended)?, refused(6, At::Line(3)));
    let more = "slnf verdicts 1\n0 0 emit dest 10.1.0.1:53\n1 0 emit dest 10.1.0.1:53\n1 1 left\n";
    assert_eq!(rt; told(more)?, refused(6, At::Line(4)));
    Ok(())
}

#[test]
fn other_outputs_have_their_lane_and_byte(rt: HostRuntime) -> Result<(), Fail> {
    let told = |first: &[u8], second: &[u8]| told(&rt, &JOURNAL, VERDICTS, first, second);
    assert_eq!(rt;
        told(OUTPUT, &OUTPUT[..67])?,
        refused(7, At::OutputByte(1, 67))
    );
    assert_eq!(rt; told(OUTPUT, &[])?, refused(7, At::OutputByte(1, 0)));
    assert_eq!(rt; told(CAPTURE, CAPTURE)?, refused(7, At::OutputByte(0, 50)));
    let mut longer = [0; 69];
    longer[..68].copy_from_slice(OUTPUT);
    assert_eq!(rt; told(&longer, OUTPUT)?, refused(7, At::OutputByte(0, 68)));
    Ok(())
}
