//! Runs in threads. Each line is one of `cases`, or says how `top` ends:
//!
//! - `top CODE WORDS`: it ends with this status on these words.
//! - `one TEXT%TEXT`: the verdicts are one of these two texts.
//! - `accepted`: `check` accepts the files, and so does `box`.
use super::{Scene, empty, first_wrong, joined, parted, spelled, words_of};
use crate::top;
use slnf_store::{Gate, NoGate};
use std::alloc::Global;
use std::hash::RandomState;
use std::sync::Wait;
use std::sync::atomic::{AtomicU64, Ordering};
use std::test::Fail as Failed;
use std::thread::Threads;

/// Epochs of one actor each: the journal is the schedule's.
const ALONE: &str = r#"
start
balancer 1 udp 1 [[epoch]];instances = [{ lane = 0 }];
in 1 1 h PPrv
top 0 run plan.toml out in.0.pcap
holds out.0.pcap haau
says out.verdicts slnf verdicts 1;0 0 emit dest 10.1.0.1:53;0 1 emit dest 10.1.0.1:53;
  0 2 emit source 198.51.100.10:53;0 3 drop 11;
says out.journal slnf journal 1;1 0 0 0 read K absent;2 0 0 0 put K A done 2;3 0 0 1 read K found A 2;
  4 0 0 2 read K found A 2;5 0 0 3 read K found A 2;
says - packets 4 emitted 3 dropped 1 lost 0 left 0 entries 5;
accepted

# A quota, and a packet that is left.
start
balancer 1 udp 1 [[epoch]];instances = [{ lane = 0, quota = 3 }];[[epoch]];instances = [{ lane = 0, quota = 1 }];
in 1 5 h P
top 1 run plan.toml out in.0.pcap
holds out.0.pcap haaaa
says out.verdicts slnf verdicts 1;0 0 emit dest 10.1.0.1:53;0 1 emit dest 10.1.0.1:53;0 2 emit dest 10.1.0.1:53;
  0 3 emit dest 10.1.0.1:53;0 4 left;
says out.journal slnf journal 1;1 0 0 0 read K absent;2 0 0 0 put K A done 2;3 0 0 1 read K found A 2;
  4 0 0 2 read K found A 2;5 0 1 3 read K found A 2;
says - packets 5 emitted 4 dropped 0 lost 0 left 1 entries 5;
accepted

# Batches, and a stop that loses one.
start
nat shards=1;batch=8 40000 40003 [[epoch]];instances = [{ lane = 0, stop = 4 }];[[epoch]];instances = [{ lane = 0 }];
in 1 1 h 161
top 0 run plan.toml out in.0.pcap
holds out.0.pcap h9
says out.verdicts slnf verdicts 1;0 0 lost;0 1 lost;0 2 emit source 203.0.113.1:40003;
says out.journal slnf journal 1;1 0 0 0 read F absent;2 0 0 1 read G absent;3 0 0 0 put Q C done 3;
  4 0 0 1 put R E done 4;5 0 1 2 read F absent;6 0 1 2 put Q D found C 3;7 0 1 2 put R D found E 4;
  8 0 1 2 put 02060000000000000000cb0071019c43 D done 8;9 0 1 2 put F 00000000000000000000cb0071019c43 done 9;
says - packets 3 emitted 1 dropped 0 lost 2 left 0 entries 9;
accepted

# A sweep alone between two instances.
start
nat shards=8 1024 65535 [[epoch]];instances = [{ lane = 0, stop = 2 }];[[epoch]];instances = [];sweep = true;
  [[epoch]];instances = [{ lane = 0 }];
in 1 1 h mm
top 0 run plan.toml out in.0.pcap
holds out.0.pcap hn
says out.verdicts slnf verdicts 1;0 0 lost;0 1 emit source 203.0.113.1:65535;
says - packets 2 emitted 1 dropped 0 lost 1 left 0 entries 129031;

# A capture without packets, and an output that has an input's name.
start
balancer 1 udp 1 [[epoch]];instances = [{ lane = 0 }];
in 1 0 h P
top 0 run plan.toml out in.0.pcap
holds out.0.pcap h
says out.verdicts slnf verdicts 1;
says out.journal slnf journal 1;
says - packets 0 emitted 0 dropped 0 lost 0 left 0 entries 0;
start
balancer 1 udp 1 [[epoch]];instances = [{ lane = 0 }];
in 1 1 h P
top 0 run plan.toml in in.0.pcap
holds in.0.pcap ha
"#;

/// Instances side by side, also with a sweep.
const SIDE_BY_SIDE: &str = r#"
# Two instances, one flow: both packets go to one backend.
start
balancer 1 udp 1 [[epoch]];instances = [{ lane = 0 }, { lane = 1 }];schedule = [0, 1, 0, 1];
in 2 1 h P
top 0 run plan.toml out in.0.pcap in.1.pcap
one slnf verdicts 1;0 0 emit dest 10.1.0.1:53;1 0 emit dest 10.1.0.1:53;%slnf verdicts 1;0 0 emit dest 10.1.0.2:53;
  1 0 emit dest 10.1.0.2:53;
accepted

# 32 instances, and two shards.
start
balancer 2 udp 1 [[epoch]];instances = [@];
in 32 100 h PQ
top 0 run plan.toml out in.0.pcap in.1.pcap in.2.pcap in.3.pcap in.4.pcap in.5.pcap in.6.pcap in.7.pcap in.8.pcap
   in.9.pcap in.10.pcap in.11.pcap in.12.pcap in.13.pcap in.14.pcap in.15.pcap in.16.pcap in.17.pcap in.18.pcap
   in.19.pcap in.20.pcap in.21.pcap in.22.pcap in.23.pcap in.24.pcap in.25.pcap in.26.pcap in.27.pcap in.28.pcap
   in.29.pcap in.30.pcap in.31.pcap
accepted

# An orphan, and its sweep beside instances.
start
nat shards=8;batch=4 40000 40003 [[epoch]];instances = [{ lane = 0, stop = 5 }, { lane = 1 }];[[epoch]];
  instances = [{ lane = 0 }, { lane = 2 }];sweep = true;
in 1 9 h 16
in 1 9 h 613
in 1 1 h 1
top 0 run plan.toml out in.0.pcap in.1.pcap in.2.pcap
accepted

# A connection at three instances.
start
firewall [[epoch]];instances = [{ lane = 0 }, { lane = 1 }];[[epoch]];instances = [{ lane = 2 }];
in 1 1 h 1A
in 1 1 h BC
in 1 1 h EA
top 0 run plan.toml out in.0.pcap in.1.pcap in.2.pcap
accepted
"#;

/// What `run` refuses, and words that are none of its.
const REFUSED: &str = r#"
start
balancer 1 udp 1 [[epoch]];instances = [{ lane = 0 }];
in 1 1 h P
top 2
top 2 run
top 2 run plan.toml
top 2 run plan.toml out
top 2 run -p out in.0.pcap
top 2 run plan.toml -o in.0.pcap
top 2 runs plan.toml out in.0.pcap
was Usage
words 2 run plan.toml out in.0.pcap
was Usage
none out.0.pcap
none -

# All other words are handed on.
top 0 step plan.toml out in.0.pcap
accepted
top 0 check plan.toml out in.0.pcap
says - accepted entries 2;
top 0 box plan.toml out in.0.pcap
says - 2 0 0 emit dest 10.1.0.1:53;
top 0 load 7 1 1
says - packets 1 emitted 1 dropped 0 lost 0 left 0 entries 3;

# Inputs that are refused, or aren't there.
top 5 run plan.toml other in.1.pcap
was ReadFault
top 5 run none.toml other in.0.pcap
in 1 1 h O
top 4 run plan.toml other in.0.pcap in.1.pcap
was CaptureBad { lane: 1, error: OverSnap(24) }
toml colour = 1
top 3 run plan.toml other in.0.pcap
none other.0.pcap

# Faults of writing.
start begin 3
balancer 1 udp 1 [[epoch]];instances = [{ lane = 0 }];
in 1 1 h P
top 6 run plan.toml out in.0.pcap
was WriteFault
holds out.0.pcap ha
says out.verdicts slnf verdicts 1;0 0 emit dest 10.1.0.1:53;
none out.journal
none -
start append 4
balancer 1 udp 1 [[epoch]];instances = [{ lane = 0 }];
in 1 1 h P
top 6 run plan.toml out in.0.pcap
says out.journal slnf journal 1;1 0 0 0 read K absent;2 0 0 0 put K A done 2;
says -
"#;

/// Runs `top` on these words, and says whether it ends with this status.
fn ends<R: Threads + Wait + Sync, G: Gate + Sync>(
    rt: &R,
    scene: &mut Scene,
    gate: &G,
    code: &str,
    words: &str,
) -> Result<bool, Failed> {
    let code: u8 = code.parse()?;
    let words = words_of(scene.alloc, words)?;
    scene.status = top(
        rt,
        scene.alloc,
        scene.state,
        words.as_slice(),
        &mut scene.shelf,
        gate,
    );
    Ok(scene.status.code() == code)
}

/// Whether the verdicts are one of these two texts.
fn is_one(scene: &mut Scene, texts: &str) -> Result<bool, Failed> {
    let (first, other) = texts.split_once('%').ok_or("no texts")?;
    let first = spelled(scene.alloc, first, 1)?;
    let other = spelled(scene.alloc, other, 1)?;
    Ok(
        scene.holds("out.verdicts", first.as_bytes())?
            || scene.holds("out.verdicts", other.as_bytes())?,
    )
}

/// Does what a line says, and says whether what it tells is so.
fn follow<R: Threads + Wait + Sync, G: Gate + Sync>(
    rt: &R,
    scene: &mut Scene,
    gate: &G,
    line: &str,
) -> Result<bool, Failed> {
    let (verb, rest) = parted(line);
    let (first, last) = parted(rest);
    match verb {
        "top" => ends(rt, scene, gate, first, last),
        "one" => is_one(scene, rest),
        "accepted" => Ok(scene.is_accepted()? && scene.ends("box", "0", "")?),
        _ => scene.follow(line),
    }
}

/// Which line of a text told what isn't so.
fn wrong_in<R: Threads + Wait + Sync, G: Gate + Sync>(
    rt: &R,
    alloc: Global,
    state: RandomState,
    gate: &G,
    lines: &str,
) -> Result<Option<String>, Failed> {
    let mut scene = empty(alloc, state);
    let text = joined(alloc, lines)?;
    for line in text.as_str().lines() {
        if !follow(rt, &mut scene, gate, line)? {
            return Ok(Some(String::from_str(alloc, line)?));
        }
    }
    Ok(None)
}

#[test]
fn one_instance_makes_the_schedules_journal(rt: HostRuntime) -> Result<(), Failed> {
    let state = RandomState::new(&rt)?;
    assert_eq!(rt; wrong_in(&rt, rt.alloc(), state, &NoGate, ALONE)?, None);
    Ok(())
}

#[test]
fn instances_side_by_side(rt: HostRuntime) -> Result<(), Failed> {
    let state = RandomState::new(&rt)?;
    assert_eq!(rt;
        wrong_in(&rt, rt.alloc(), state, &NoGate, SIDE_BY_SIDE)?,
        None
    );
    Ok(())
}

#[test]
fn refusals(rt: HostRuntime) -> Result<(), Failed> {
    let state = RandomState::new(&rt)?;
    assert_eq!(rt; wrong_in(&rt, rt.alloc(), state, &NoGate, REFUSED)?, None);
    Ok(())
}

/// A run whose turns are counted: three packets in batches of 3, of which the third one's client is the first one's.
const COUNTED: &str = r#"
start
toml function = "balancer";shards = 1;batch = 3;[balancer];proto = "udp";service = "198.51.100.10:53";
  backends = ["10.1.0.1:53", "10.1.0.2:53"];[[epoch]];instances = [{ lane = 0 }];
in 1 1 h PQP
top 0 run plan.toml out in.0.pcap
says out.journal slnf journal 1;1 0 0 0 read K absent;2 0 0 1 read L absent;3 0 0 0 put K A done 3;
  4 0 0 1 put L B done 4;5 0 0 2 read K found A 3;
accepted
"#;

/// A gate that counts turns.
#[derive(Drop)]
struct Turns {
    count: AtomicU64,
}

impl Gate for Turns {
    fn between(&self, _incarnation: u64, _accesses: u64) {}

    fn inside(&self, _shard: u32) {
        let _ = self.count.fetch_add(1, Ordering::SeqCst);
    }
}

/// Each round's accesses to the one shard share a turn, as the gate that `top` is given sees.
#[test]
fn a_gate_sees_three_turns(rt: HostRuntime) -> Result<(), Failed> {
    let state = RandomState::new(&rt)?;
    let gate = Turns {
        count: AtomicU64::new(0),
    };
    assert_eq!(rt; wrong_in(&rt, rt.alloc(), state, &gate, COUNTED)?, None);
    assert_eq!(rt; gate.count.load(Ordering::SeqCst), 3);
    Ok(())
}

/// Plans with many instances, shards, batches and stops.
static PLANS: [&str; 4] = [
    r#"
start
balancer 3 udp 1 [[epoch]];instances = [{ lane = 0, stop = 7 }, { lane = 1 }, { lane = 2, quota = 5 }];[[epoch]];
  instances = [{ lane = 2 }, { lane = 3 }, { lane = 0 }];
in 2 3 h PQP
in 2 3 h QP
"#,
    r#"
start
nat shards=8;batch=4 40000 40003 [[epoch]];instances = [{ lane = 0, stop = 2 }, { lane = 1, stop = 3 }, { lane = 2 }];
  sweep = true;[[epoch]];instances = [{ lane = 0 }, { lane = 3 }];sweep = true;sweep_stop = 5;[[epoch]];
  instances = [{ lane = 1 }];sweep = true;
in 1 3 h 161
in 1 3 h 613
in 2 3 h 16
"#,
    r#"
start
nat shards=2;batch=2 40000 40001 [[epoch]];instances = [{ lane = 3, stop = 0 }, { lane = 2, stop = 1 }, { lane = 1,
   stop = 2 }, { lane = 0, stop = 3 }];[[epoch]];instances = [{ lane = 0 }, { lane = 1, quota = 2 }];[[epoch]];
  instances = [{ lane = 3 }, { lane = 1 }, { lane = 2 }];
in 4 3 h 161
"#,
    r#"
start
firewall [[epoch]];instances = [{ lane = 0 }, { lane = 1, stop = 3 }, { lane = 2 }];[[epoch]];
  instances = [{ lane = 3 }, { lane = 1 }];
in 1 1 h 1AE
in 1 1 h BC
in 1 1 h EA
in 1 1 h RB
"#,
];

/// Whether a run ends with Ok or Left, and `check` and `box` accept its files.
fn is_run<R: Threads + Wait + Sync>(
    rt: &R,
    alloc: Global,
    state: RandomState,
    plan: &str,
) -> Result<bool, Failed> {
    let mut scene = empty(alloc, state);
    if first_wrong(&mut scene, plan)?.is_some() {
        return Ok(false);
    }
    let words = "run plan.toml out in.0.pcap in.1.pcap in.2.pcap in.3.pcap";
    let ended = ends(rt, &mut scene, &NoGate, "0", words)? || scene.status.code() == 1;
    Ok(ended && scene.is_accepted()? && scene.ends("box", "0", "")?)
}

#[test]
fn a_hundred_runs(rt: HostRuntime) -> Result<(), Failed> {
    for number in 0..100usize {
        let state = RandomState::new(&rt)?;
        assert!(rt;
            is_run(&rt, rt.alloc(), state, PLANS[number % 4])?,
            "run {number}"
        );
    }
    Ok(())
}
