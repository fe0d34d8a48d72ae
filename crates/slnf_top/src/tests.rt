//! The command over files in memory, by the lines of a text.
ghost use Rattle.std.specs.Prelude.{◌<◌};

mod threads;
mod transitions;

use super::*;
use crate::cases;
use crate::letters::{letter, sign};
use slnf_base::Row;
use slnf_shelf::{Call, Fail, MemoryShelf, Shelf, read_whole};
use std::alloc::Global;
use std::hash::RandomState;
use std::test::Fail as Failed;

/// The files, the captures among them, and whether a call is going to fail.
#[derive(Drop)]
struct Scene {
    alloc: Global,
    state: RandomState,
    shelf: MemoryShelf,
    fails: bool,
    captures: usize,
    status: Status,
}

/// The first word and the rest.
fn parted(text: &str) -> (&str, &str) {
    text.split_once(' ').unwrap_or((text, ""))
}

/// The text that is spelled so, so many times.
fn spelled(alloc: Global, text: &str, count: usize) -> Result<String, Failed> {
    let mut spelled = String::new(alloc);
    for c in text.chars() {
        match sign(c) {
            "" => spelled.push(c)?,
            piece => spelled.push_str(piece)?,
        }
    }
    Ok(spelled.as_str().repeat(alloc, count)?)
}

/// The bytes that the letters stand for, so many times.
fn bytes_of(alloc: Global, letters: &str, count: usize) -> Result<Vec<u8>, Failed> {
    let mut bytes = Vec::new(alloc);
    for _ in 0..count {
        for c in letters.chars() {
            bytes.extend_from_slice(letter(c))?;
        }
    }
    Ok(bytes)
}

/// The name of an input.
fn input_name(alloc: Global, lane: usize) -> Result<String, Failed> {
    Ok(format!(in alloc; "in.{lane}.pcap")?)
}

/// A shelf whose call of this kind and number fails, if one is told.
fn shelf_of(alloc: Global, fails: &str) -> Result<MemoryShelf, Failed> {
    let (kind, count) = parted(fails);
    let call = match kind {
        "read" => Call::Read,
        "begin" => Call::Begin,
        "append" => Call::Append,
        _ => return Ok(MemoryShelf::make(alloc, Vec::new(alloc))),
    };
    let count: u8 = count.parse()?;
    let fail = Fail {
        call,
        count: u64::from(count),
    };
    Ok(MemoryShelf::make(alloc, [fail].to_vec(alloc)?))
}

/// The rule that permits all TCP from inside to outside.
const TCP_OUT: &str = r#"{ action = "permit", direction = "out", proto = "tcp" }"#;

/// One epoch with one instance.
const ONE_INSTANCE: &str = "[[epoch]];instances = [{ lane = 0 }];";

/// Appends the record of a datagram to 198.51.100.7:53 of the host 10.0.0.HOST and the port 1024 + 256 * STEP.
fn put_flow(capture: &mut Vec<u8>, step: u8, host: u8) -> Result<(), Failed>
    requires { step < 64 }
{
    capture.extend_from_slice(b"\x00\x00\x00\x00\x00\x00\x00\x00\x1c\x00\x00\x00\x1c\x00\x00\x00")?;
    capture.extend_from_slice(b"\x45\x00\x00\x1c\x00\x00\x00\x00\x40\x11\x00\x00")?;
    capture.extend_from_slice(&[10, 0, 0, host, 198, 51, 100, 7])?;
    capture.extend_from_slice(&[4 + step, 0, 0, 53, 0, 8, 0, 0])?;
    Ok(())
}

/// The verdicts of these flows. The pool has 64,512 ports from 1024 on, so the first candidate of 10.0.0.h and the port
/// 1024 + 256 * s is 43008 + 256 * s + h, which is free.
fn flowed(alloc: Global) -> Result<String, Failed> {
    let mut text = String::from_str(alloc, "slnf verdicts 1\n")?;
    for number in 0..16384u32 {
        let port = 43008 + number;
        let line = format!(in alloc; "0 {number} emit source 203.0.113.1:{port}\n")?;
        text.push_str(line.as_str())?;
    }
    Ok(text)
}

impl Scene {
    /// Puts a balancer's plan there.
    fn put_balancer(&mut self, text: &str) -> Result<(), Failed> {
        let (shards, rest) = parted(text);
        let (proto, rest) = parted(rest);
        let (count, epoch) = parted(rest);
        let epochs = spelled(self.alloc, epoch, count.parse()?)?;
        let plan = format!(in self.alloc;
            "function = \"balancer\"\nshards = {shards}\n[balancer]\nproto = \"{proto}\"\n\
            service = \"198.51.100.10:53\"\nbackends = [\"10.1.0.1:53\", \"10.1.0.2:53\"]\n{epochs}"
        )?;
        Ok(self.shelf.put("plan.toml", plan.as_bytes())?)
    }

    /// Puts a NAT's plan there.
    fn put_nat(&mut self, text: &str) -> Result<(), Failed> {
        let (head, rest) = parted(text);
        let head = spelled(self.alloc, head, 1)?;
        let (low, rest) = parted(rest);
        let (high, epochs) = parted(rest);
        let epochs = spelled(self.alloc, epochs, 1)?;
        let plan = format!(in self.alloc;
            "function = \"nat\"\n{head}\n[nat]\ninside = \"10.0.0.0/8\"\noutside = \"203.0.113.1\"\n\
            ports = [{low}, {high}]\n{epochs}"
        )?;
        Ok(self.shelf.put("plan.toml", plan.as_bytes())?)
    }

    /// Puts a firewall's plan there.
    fn put_firewall(&mut self, rules: &str, epochs: &str) -> Result<(), Failed> {
        let epochs = spelled(self.alloc, epochs, 1)?;
        let plan = format!(in self.alloc;
            "function = \"firewall\"\nshards = 1\n[firewall]\ninside = \"10.0.0.0/8\"\nrules = [{rules}]\n{epochs}"
        )?;
        Ok(self.shelf.put("plan.toml", plan.as_bytes())?)
    }

    /// Puts a firewall's plan there, whose rules are so many times one rule, and then others.
    fn put_rules(&mut self, text: &str) -> Result<(), Failed> {
        let (count, rest) = parted(text);
        let (often, once) = rest.split_once('%').unwrap_or((rest, ""));
        let mut rules = spelled(self.alloc, often, count.parse()?)?;
        rules.push_str(once)?;
        self.put_firewall(rules.as_str(), ONE_INSTANCE)
    }

    /// Puts a capture of one datagram of each flow there.
    fn put_flows(&mut self) -> Result<(), Failed> {
        let mut capture = bytes_of(self.alloc, "h", 1)?;
        for step in 0..64 {
            for host in 0..=255 {
                put_flow(&mut capture, step, host)?;
            }
        }
        let name = input_name(self.alloc, self.captures)?;
        self.shelf.put(name.as_str(), capture.as_slice())?;
        self.captures = self.captures.saturating_add(1);
        Ok(())
    }

    /// Puts captures there.
    fn put_captures(&mut self, text: &str) -> Result<(), Failed> {
        let (lanes, rest) = parted(text);
        let (count, rest) = parted(rest);
        let (header, records) = parted(rest);
        let mut capture = bytes_of(self.alloc, header, 1)?;
        let records = bytes_of(self.alloc, records, count.parse()?)?;
        capture.extend_from_slice(records.as_slice())?;
        let lanes: u8 = lanes.parse()?;
        for _ in 0..lanes {
            let name = input_name(self.alloc, self.captures)?;
            self.shelf.put(name.as_str(), capture.as_slice())?;
            self.captures = self.captures.saturating_add(1);
        }
        Ok(())
    }

    /// Runs the command on these words, and says whether it ends with this status.
    fn run(&mut self, code: &str, words: &[String]) -> Result<bool, Failed> {
        let code: u8 = code.parse()?;
        self.status = top_plain(self.alloc, self.state, words, &mut self.shelf);
        Ok(self.status.code() == code)
    }

    /// Runs the command of this name on the plan and the captures, and says whether it ends with this status and this
    /// fault line.
    fn ends(&mut self, name: &str, code: &str, line: &str) -> Result<bool, Failed> {
        let front = format!(in self.alloc; "{name} plan.toml out")?;
        let mut words = words_of(self.alloc, front.as_str())?;
        for lane in 0..self.captures {
            words.push(input_name(self.alloc, lane)?)?;
        }
        let ended = self.run(code, words.as_slice())?;
        let told = format!(in self.alloc; "{}", self.status)?;
        Ok(ended && told == line.replace(self.alloc, ";", "\n")?)
    }

    /// Whether `check` accepts what a run left, with as many entries as the summary's last word says. The summary is
    /// there again then.
    fn is_accepted(&mut self) -> Result<bool, Failed> {
        let summary = self.whole("-")?;
        let (_, count) = str::from_utf8(summary.as_slice())?
            .rsplit_once(' ')
            .ok_or("no summary")?;
        let accepted = format!(in self.alloc; "accepted entries {count}")?;
        let told = self.ends("check", "0", "")? && self.holds("-", accepted.as_bytes())?;
        self.shelf.put("-", summary.as_slice())?;
        Ok(told)
    }

    /// Runs `step`, and `check` on what it left where no call is going to fail.
    fn steps(&mut self, code: &str, line: &str) -> Result<bool, Failed> {
        let ended = self.ends("step", code, line)?;
        if self.fails || self.status.code() > 1 {
            return Ok(ended);
        }
        Ok(ended && self.is_accepted()?)
    }

    /// Whether the command refuses the files by this rule at this place.
    fn breaks(&mut self, name: &str, rule: &str, place: &str) -> Result<bool, Failed> {
        let line = format!(in self.alloc; "slnf: refused by rule {rule};")?;
        let refused = self.ends(name, "9", line.as_str())?;
        let told = format!(in self.alloc; "Refused(Refusal {{ rule: {rule}, at: {place} }})")?;
        Ok(refused && format!(in self.alloc; "{:?}", self.status)? == told)
    }

    /// Puts one text in the place of another in a file, and says whether it was there.
    fn swap(&mut self, name: &str, texts: &str) -> Result<bool, Failed> {
        let (old, new) = texts.split_once('%').ok_or("no texts")?;
        let old = spelled(self.alloc, old, 1)?;
        let new = spelled(self.alloc, new, 1)?;
        let bytes = self.whole(name)?;
        let text = str::from_utf8(bytes.as_slice())?;
        let swapped = text.replace(self.alloc, old.as_str(), new.as_str())?;
        self.shelf.put(name, swapped.as_bytes())?;
        Ok(text.contains(old.as_str()))
    }

    /// Takes the last byte of a file away.
    fn cut(&mut self, name: &str) -> Result<(), Failed> {
        let bytes = self.whole(name)?;
        let (_, front) = bytes.as_slice().split_last().ok_or("no byte")?;
        Ok(self.shelf.put(name, front)?)
    }

    /// What the file holds.
    fn whole(&mut self, name: &str) -> Result<Row<u8>, Failed> {
        Ok(read_whole(self.alloc, &mut self.shelf, name, 1_000_000)?)
    }

    /// Whether the file holds these bytes.
    fn holds(&mut self, name: &str, bytes: &[u8]) -> Result<bool, Failed> {
        Ok(self.whole(name)?.as_slice() == bytes)
    }

    /// Puts there what a line says, where its word is one that puts something.
    fn puts(&mut self, verb: &str, rest: &str) -> Result<bool, Failed> {
        let (first, last) = parted(rest);
        match verb {
            "start" => {
                self.shelf = shelf_of(self.alloc, rest)?;
                self.fails = !rest.is_empty();
                self.captures = 0;
            }
            "toml" => {
                let plan = spelled(self.alloc, rest, 1)?;
                self.shelf.put("plan.toml", plan.as_bytes())?;
            }
            "balancer" => self.put_balancer(rest)?,
            "nat" => self.put_nat(rest)?,
            "firewall" => self.put_firewall(TCP_OUT, rest)?,
            "rules" => self.put_rules(rest)?,
            "flows" => self.put_flows()?,
            "in" => self.put_captures(rest)?,
            "cut" => self.cut(first)?,
            "put" => {
                let text = spelled(self.alloc, last, 1)?;
                self.shelf.put(first, text.as_bytes())?;
            }
            _ => return Ok(false),
        }
        Ok(true)
    }

    /// Whether what a line tells is so.
    fn tells(&mut self, verb: &str, rest: &str) -> Result<bool, Failed> {
        let (first, last) = parted(rest);
        let (next, others) = parted(last);
        match verb {
            "ends" => self.steps(first, last),
            "runs" => self.ends(first, next, others),
            "breaks" => self.breaks(first, next, others),
            "unread" => {
                let text = spelled(self.alloc, last, 1)?;
                self.shelf.put("out.journal", text.as_bytes())?;
                self.breaks("check", "1", first)
            }
            "swap" => self.swap(first, last),
            "words" => {
                let words = words_of(self.alloc, last)?;
                self.run(first, words.as_slice())
            }
            "was" => Ok(format!(in self.alloc; "{:?}", self.status)?.as_str() == rest),
            "holds" => {
                let bytes = bytes_of(self.alloc, last, 1)?;
                self.holds(first, bytes.as_slice())
            }
            "says" => {
                let text = spelled(self.alloc, last, 1)?;
                self.holds(first, text.as_bytes())
            }
            "flowed" => {
                let text = flowed(self.alloc)?;
                self.holds(first, text.as_bytes())
            }
            "none" => Ok(self.shelf.read(rest, 0, &mut [0; 1]).is_err()),
            _ => Ok(verb.is_empty() || verb == "#"),
        }
    }

    /// Does what a line says, and says whether what it tells is so.
    fn follow(&mut self, line: &str) -> Result<bool, Failed> {
        let (verb, rest) = parted(line);
        Ok(self.puts(verb, rest)? || self.tells(verb, rest)?)
    }
}

/// The words of a text.
fn words_of(alloc: Global, text: &str) -> Result<Vec<String>, Failed> {
    let mut words = Vec::new(alloc);
    for word in text.split(' ') {
        if !word.is_empty() {
            words.push(String::from_str(alloc, word)?)?;
        }
    }
    Ok(words)
}

/// A scene without files.
fn empty(alloc: Global, state: RandomState) -> Scene {
    Scene {
        alloc,
        state,
        shelf: MemoryShelf::make(alloc, Vec::new(alloc)),
        fails: false,
        captures: 0,
        status: Status::Ok,
    }
}

/// The text whose lines go on with those behind them that begin with two blanks.
fn joined(alloc: Global, lines: &str) -> Result<String, Failed> {
    Ok(lines.replace(alloc, "\n  ", "")?)
}

/// Does what each line says, and says which one told what isn't so.
fn first_wrong(scene: &mut Scene, lines: &str) -> Result<Option<String>, Failed> {
    let text = joined(scene.alloc, lines)?;
    for line in text.as_str().lines() {
        if !scene.follow(line)? {
            return Ok(Some(String::from_str(scene.alloc, line)?));
        }
    }
    Ok(None)
}

/// Which line of a text told what isn't so.
pub(crate) fn wrong_in(rt: &HostRuntime, lines: &str) -> Result<Option<String>, Failed> {
    let mut scene = empty(rt.alloc(), RandomState::new(rt)?);
    first_wrong(&mut scene, lines)
}

/// Whole runs of a balancer, byte for byte, forward and back.
#[test]
fn balancers(rt: HostRuntime) -> Result<(), Failed> {
    assert_eq!(rt; wrong_in(&rt, cases::balancer::BALANCERS)?, None);
    Ok(())
}

/// Epochs, quotas and stops.
#[test]
fn endings(rt: HostRuntime) -> Result<(), Failed> {
    assert_eq!(rt; wrong_in(&rt, cases::balancer::ENDINGS)?, None);
    Ok(())
}

/// Batches of 3 and of 8 packets.
#[test]
fn batches(rt: HostRuntime) -> Result<(), Failed> {
    assert_eq!(rt; wrong_in(&rt, cases::many::BATCHES)?, None);
    Ok(())
}

/// Whole runs of a NAT: out and back, a race, pools that are full or wide, TCP and UDP with one pair.
#[test]
fn nats(rt: HostRuntime) -> Result<(), Failed> {
    assert_eq!(rt; wrong_in(&rt, cases::nat::NATS)?, None);
    Ok(())
}

/// As many flows as a generated load has at most.
#[test]
fn many_flows(rt: HostRuntime) -> Result<(), Failed> {
    assert_eq!(rt; wrong_in(&rt, cases::nat::FLOWS)?, None);
    Ok(())
}

/// Orphans and their sweeps, also beside instances that claim.
#[test]
fn sweeps(rt: HostRuntime) -> Result<(), Failed> {
    assert_eq!(rt; wrong_in(&rt, cases::sweep::SWEEPS)?, None);
    Ok(())
}

/// A sweep that is stopped after each of its accesses.
#[test]
fn stopped_sweeps(rt: HostRuntime) -> Result<(), Failed> {
    assert_eq!(rt; wrong_in(&rt, cases::sweep::STOPPED_SWEEPS)?, None);
    Ok(())
}

/// A sweep of 64,512 ports.
#[test]
fn wide_sweep(rt: HostRuntime) -> Result<(), Failed> {
    assert_eq!(rt; wrong_in(&rt, cases::sweep::WIDE_SWEEP)?, None);
    Ok(())
}

/// Whole runs of a firewall: connections that open, close and open anew, from both sides, and many replaces at once.
#[test]
fn firewalls(rt: HostRuntime) -> Result<(), Failed> {
    assert_eq!(rt; wrong_in(&rt, cases::firewall::FIREWALLS)?, None);
    Ok(())
}

/// Rules, each field of which decides, and 256 of them.
#[test]
fn rules(rt: HostRuntime) -> Result<(), Failed> {
    assert_eq!(rt; wrong_in(&rt, cases::firewall::RULES)?, None);
    Ok(())
}

/// Frames without a view, files that aren't there, faults, and words of no form.
#[test]
fn faults(rt: HostRuntime) -> Result<(), Failed> {
    assert_eq!(rt; wrong_in(&rt, cases::fault::FAULTS)?, None);
    Ok(())
}

/// Captures and plans that are refused, each with its status and its fault line.
#[test]
fn refusals(rt: HostRuntime) -> Result<(), Failed> {
    assert_eq!(rt; wrong_in(&rt, cases::fault::REFUSALS)?, None);
    Ok(())
}

/// Runs of many packets, epochs and instances.
#[test]
fn many(rt: HostRuntime) -> Result<(), Failed> {
    assert_eq!(rt; wrong_in(&rt, cases::many::MANY)?, None);
    Ok(())
}

/// The files that a run of two lanes writes.
static OUTPUTS: [&str; 5] = [
    "out.0.pcap",
    "out.1.pcap",
    "out.verdicts",
    "out.journal",
    "-",
];

/// Whether the file holds the same in both scenes.
fn is_same(first: &mut Scene, second: &mut Scene, name: &str) -> Result<bool, Failed> {
    let one = first.whole(name)?;
    let other = second.whole(name)?;
    Ok(one.as_slice() == other.as_slice())
}

/// Which file of a run differs in the two scenes.
fn first_other(first: &mut Scene, second: &mut Scene) -> Result<Option<String>, Failed> {
    for name in &OUTPUTS {
        if !is_same(first, second, name)? {
            return Ok(Some(String::from_str(first.alloc, name)?));
        }
    }
    Ok(None)
}

/// Which line of the text isn't so, or which file differs, where the text runs in both scenes.
fn unlike(first: &mut Scene, second: &mut Scene) -> Result<Option<String>, Failed> {
    if let Some(line) = first_wrong(first, cases::many::SEEDS)? {
        return Ok(Some(line));
    }
    if let Some(line) = first_wrong(second, cases::many::SEEDS)? {
        return Ok(Some(line));
    }
    first_other(first, second)
}

/// Two states of the store's hashing give the same files.
#[test]
fn seeds(rt: HostRuntime) -> Result<(), Failed> {
    let mut first = empty(rt.alloc(), RandomState::new(&rt)?);
    let mut second = empty(rt.alloc(), RandomState::new(&rt)?);
    assert_eq!(rt; unlike(&mut first, &mut second)?, None);
    Ok(())
}
