use super::*;
use crate::cases::{CASES, LISTS};
use slnf_base::{Pair, Proto};
use slnf_fw_table::Rule;
use std::alloc::{AllocError, Global};
use std::io::BufRead;
use std::process::Abort;
use std::test::*;

fn text_of(alloc: Global, pieces: &[&str]) -> Result<String, AllocError> {
    let mut text = String::new(alloc);
    for piece in pieces {
        text.push_str(piece)?;
    }
    Ok(text)
}

// Adds a piece in which a semicolon stands for a line's end.
fn add_lines(text: &mut String, piece: &str) -> Result<(), AllocError> {
    for c in piece.chars() {
        text.push(if c == ';' { '\n' } else { c })?;
    }
    Ok(())
}

// The document with the piece in its gap.
fn filled(alloc: Global, document: &str, piece: &str) -> Result<String, Fail> {
    let (head, tail) = document.split_once('@').ok_or("a gap")?;
    let mut text = String::new(alloc);
    add_lines(&mut text, head)?;
    add_lines(&mut text, piece)?;
    add_lines(&mut text, tail)?;
    Ok(text)
}

// A text is refused with this number and path, or is a plan, where the number is 0.
fn check_text(rt: &impl Abort, alloc: Global, text: &str, wanted: &str) -> Result<(), Fail> {
    let (number, path) = wanted.split_once(' ').unwrap_or((wanted, ""));
    let number: u8 = number.parse()?;
    match read_plan(alloc, text.as_bytes()) {
        Ok(_) => assert!(rt; number == 0, "accepted: {text}"),
        Err(error) => {
            assert!(rt; error.number() == Some(number), "{text}");
            assert!(rt; error.path() == Some(path), "{text}");
        }
    }
    Ok(())
}

#[test]
fn each_rule_of_a_plan_has_its_refusal(rt: HostRuntime) -> Result<(), Fail> {
    let mut document = String::new(rt.alloc());
    let mut cases = 0u32;
    for line in CASES.as_bytes().lines(rt.alloc()) {
        let line = line?;
        if line.contains('@') {
            document = line;
        } else if !line.starts_with('#') {
            if let Some((wanted, piece)) = line.split_once(':') {
                let text = filled(rt.alloc(), document.as_str(), piece)?;
                check_text(&rt, rt.alloc(), text.as_str(), wanted)?;
                cases = cases.saturating_add(1);
            }
        }
    }
    assert!(rt; cases == 209, "{cases}");
    Ok(())
}

fn repeated(alloc: Global, element: &str, count: usize) -> Result<String, AllocError> {
    let mut text = String::new(alloc);
    for _ in 0..count {
        text.push_str(element)?;
    }
    Ok(text)
}

#[test]
fn lists_have_a_greatest_length(rt: HostRuntime) -> Result<(), Fail> {
    for (document, element, most, longest, longer) in &LISTS {
        let mut elements = repeated(rt.alloc(), element, *most)?;
        let text = filled(rt.alloc(), document, elements.as_str())?;
        check_text(&rt, rt.alloc(), text.as_str(), longest)?;
        elements.push_str(element)?;
        let text = filled(rt.alloc(), document, elements.as_str())?;
        check_text(&rt, rt.alloc(), text.as_str(), longer)?;
    }
    Ok(())
}

const NAT: &str = "function = \"nat\"\n";

const FIREWALL: &str = "function = \"firewall\"\n";

const BALANCER: &str = "function = \"balancer\"\n";

const NAT_TABLE: &str =
    "[nat]\ninside = \"10.0.0.0/8\"\noutside = \"203.0.113.1\"\nports = [40000, 40003]\n";

const BALANCER_TABLE: &str =
    "[balancer]\nproto = \"udp\"\nservice = \"198.51.100.10:53\"\nbackends = [\"10.1.0.1:53\", \"10.1.0.2:53\"]\n";

const EPOCH: &str = "[[epoch]]\ninstances = [{ lane = 0 }]\n";

fn plan_of(alloc: Global, pieces: &[&str]) -> Result<Plan, Fail> {
    let text = text_of(alloc, pieces)?;
    Ok(read_plan(alloc, text.as_bytes()).map_err(|_| "it is a plan")?)
}

fn pair(addr: u32, port: u16) -> Pair {
    Pair { addr, port }
}

#[test]
fn a_balancer_plan_is_read(rt: HostRuntime) -> Result<(), Fail> {
    let pieces = [BALANCER, "shards = 1\n", BALANCER_TABLE, EPOCH];
    let plan = plan_of(rt.alloc(), &pieces)?;
    assert!(rt; (plan.shards, plan.batch) == (1, 1));
    let service = match &plan.function {
        FunctionPlan::Balancer(service) => service,
        _ => return Err("a balancer")?,
    };
    assert!(rt; service.proto == Proto::Udp);
    assert!(rt; service.front == pair(0xc633_640a, 53));
    let backends = [pair(0x0a01_0001, 53), pair(0x0a01_0002, 53)];
    assert!(rt; service.backends.as_slice() == backends.as_slice());
    let [epoch] = plan.epochs.as_slice() else {
        return Err("one epoch")?;
    };
    let instance = InstancePlan {
        lane: 0,
        quota: None,
        stop: None,
    };
    assert!(rt; epoch.instances.as_slice() == [instance].as_slice());
    assert!(rt; epoch.active.as_slice() == [0, 1].as_slice());
    assert!(rt; epoch.sweep == SweepPlan::No);
    assert!(rt; epoch.schedule.is_empty());
    Ok(())
}

const SWEEPS: &str =
    "[[epoch]]\ninstances = [{ lane = 31, quota = 3, stop = 4 }]\nsweep = true\nsweep_stop = 5\nschedule = [1, 0, 1]\n[[epoch]]\ninstances = []\nsweep = true\n";

#[test]
fn a_nat_plan_is_read(rt: HostRuntime) -> Result<(), Fail> {
    let plan = plan_of(rt.alloc(), &[NAT, "batch = 32\n", NAT_TABLE, SWEEPS])?;
    assert!(rt; (plan.shards, plan.batch) == (4, 32));
    let pool = match &plan.function {
        FunctionPlan::Nat(pool) => pool,
        _ => return Err("a NAT")?,
    };
    assert!(rt; (pool.inside.addr, pool.inside.bits) == (0x0a00_0000, 8));
    assert!(rt; (pool.outside, pool.low, pool.high) == (0xcb00_7101, 40000, 40003));
    let [first, second] = plan.epochs.as_slice() else {
        return Err("two epochs")?;
    };
    let instance = InstancePlan {
        lane: 31,
        quota: Some(3),
        stop: Some(4),
    };
    assert!(rt; first.instances.as_slice() == [instance].as_slice());
    assert!(rt; first.active.is_empty());
    assert!(rt; first.sweep == SweepPlan::Yes { stop: Some(5) });
    assert!(rt; first.schedule.as_slice() == [1, 0, 1].as_slice());
    assert!(rt; second.instances.is_empty());
    assert!(rt; second.sweep == SweepPlan::Yes { stop: None });
    Ok(())
}

const RULES: &str =
    "[firewall]\ninside = \"10.0.0.0/8\"\nrules = [{ action = \"permit\", direction = \"out\" }, { action = \"deny\", direction = \"in\", proto = \"udp\", source = \"192.0.2.0/24\", dest = \"10.1.2.3/32\", ports = [53, 54] }]\n";

#[test]
fn a_firewall_plan_is_read(rt: HostRuntime) -> Result<(), Fail> {
    let plan = plan_of(rt.alloc(), &[FIREWALL, RULES, EPOCH])?;
    let (inside, rules) = match &plan.function {
        FunctionPlan::Firewall { inside, rules } => (inside, rules),
        _ => return Err("a firewall")?,
    };
    assert!(rt; (inside.addr, inside.bits) == (0x0a00_0000, 8));
    let every = Rule {
        permit: true,
        outbound: true,
        proto: 0,
        source: 0,
        source_bits: 0,
        dest: 0,
        dest_bits: 0,
        low: 0,
        high: 65535,
    };
    let names = Rule {
        permit: false,
        outbound: false,
        proto: 17,
        source: 0xc000_0200,
        source_bits: 24,
        dest: 0x0a01_0203,
        dest_bits: 32,
        low: 53,
        high: 54,
    };
    assert!(rt; rules.as_slice() == [every, names].as_slice());
    Ok(())
}

fn number_of(alloc: Global, bytes: &[u8]) -> Option<u8> {
    read_plan(alloc, bytes)
        .err()
        .and_then(|error| error.number())
}

#[test]
fn odd_documents_are_no_toml(rt: HostRuntime) -> Result<(), Fail> {
    let mut deep = String::from_str(rt.alloc(), "a = ")?;
    for _ in 0..20000 {
        deep.push('[')?;
    }
    let mut long = String::from_str(rt.alloc(), "#")?;
    for _ in 0..1_000_000 {
        long.push('x')?;
    }
    let number = |bytes: &[u8]| number_of(rt.alloc(), bytes);
    assert!(rt; number(deep.as_bytes()) == Some(1));
    assert!(rt; number(long.as_bytes()) == Some(2));
    assert!(rt; number(b"# \xff\n") == Some(1));
    assert!(rt; number(b"\xed\xa0\x80 = 1\n") == Some(1));
    Ok(())
}

#[test]
fn errors_tell_their_paths(rt: HostRuntime) -> Result<(), Fail> {
    let mut told = String::new(rt.alloc());
    for text in ["colour = 1", "function = \"nat\"\nnat = {}", "= 1"] {
        if let Err(error) = read_plan(rt.alloc(), text.as_bytes()) {
            told.push_str(format!(in rt.alloc(); "{error}; ")?.as_str())?;
        }
    }
    let wanted = "unknown key at `colour`; missing key at `nat.inside`; not TOML; ";
    assert!(rt; told.as_str() == wanted, "{told}");
    Ok(())
}
