//! Worked runs, written out by hand: what becomes of each packet, and how many accesses are made.

/// A plan over lanes. Each letter of `lanes` is a packet and each one of `verdicts` what becomes of it, lane by lane
/// with a bar between two lanes. The journal has so many accesses.
pub struct Case {
    pub plan: &'static str,
    pub epochs: &'static str,
    pub lanes: &'static str,
    pub verdicts: &'static str,
    pub entries: usize,
}

/// A service of two backends.
pub const BALANCER: &str = r#"function = "balancer"
balancer.proto = "udp"
balancer.service = "198.51.100.10:53"
balancer.backends = ["10.1.0.1:53", "10.1.0.2:53"]
"#;

/// Pools of four ports, of two and of one.
pub const NAT: &str = r#"function = "nat"
nat.inside = "10.0.0.0/8"
nat.outside = "203.0.113.1"
nat.ports = [40000, 40003]
"#;

pub const NAT_OF_TWO: &str = r#"function = "nat"
nat.inside = "10.0.0.0/8"
nat.outside = "203.0.113.1"
nat.ports = [40000, 40001]
"#;

pub const NAT_OF_ONE: &str = r#"function = "nat"
nat.inside = "10.0.0.0/8"
nat.outside = "203.0.113.1"
nat.ports = [40000, 40000]
"#;

/// All TCP may go out.
pub const FIREWALL: &str = r#"function = "firewall"
firewall.inside = "10.0.0.0/8"
firewall.rules = [{ action = "permit", direction = "out", proto = "tcp" }]
"#;

/// An instance that is stopped behind its claim, and then another one beside a sweep.
pub const SWEPT: &str = r#"shards = 1
[[epoch]]
instances = [{ lane = 0, stop = 2 }]
[[epoch]]
instances = [{ lane = 1 }]
sweep = true
schedule = [0, 0, 1, 1, 1, 1, 0]
"#;

pub static CASES: [Case; 22] = [
    // A client stays with its backend, also where two instances see its first packets at once.
    Case {
        plan: BALANCER,
        epochs: "shards = 1\nepoch = [{ instances = [{ lane = 0 }] }]",
        lanes: "aa",
        verdicts: "xx",
        entries: 3,
    },
    Case {
        plan: BALANCER,
        epochs: "shards = 1\nepoch = [{ instances = [{ lane = 0 }, { lane = 1 }], schedule = [0, 1, 0, 1] }]",
        lanes: "a|a",
        verdicts: "x|x",
        entries: 4,
    },
    // A backend's answer goes out as the service's. The other backend's is none.
    Case {
        plan: BALANCER,
        epochs: "shards = 1\nepoch = [{ instances = [{ lane = 0 }] }]",
        lanes: "aacd",
        verdicts: "xxfP",
        entries: 5,
    },
    // A stop loses the packet in hand, and a quota leaves the others.
    Case {
        plan: BALANCER,
        epochs: r#"shards = 1
[[epoch]]
instances = [{ lane = 0, stop = 2 }]
[[epoch]]
instances = [{ lane = 0, quota = 1 }]"#,
        lanes: "aaaa",
        verdicts: "lx--",
        entries: 3,
    },
    Case {
        plan: BALANCER,
        epochs: r#"shards = 1
[[epoch]]
instances = [{ lane = 0, stop = 0 }]
[[epoch]]
instances = [{ lane = 1, quota = 0 }]"#,
        lanes: "aa|a",
        verdicts: "--|-",
        entries: 0,
    },
    // An instance takes up its lane where the one before it left off.
    Case {
        plan: BALANCER,
        epochs: r#"shards = 1
[[epoch]]
instances = [{ lane = 0, quota = 3 }]
[[epoch]]
instances = [{ lane = 0, quota = 1 }]"#,
        lanes: "aaaaa",
        verdicts: "xxxx-",
        entries: 5,
    },
    // The lanes change places, and the second epoch's backend is another.
    Case {
        plan: BALANCER,
        epochs: r#"shards = 1
[[epoch]]
instances = [{ lane = 1 }, { lane = 0, quota = 1 }]
active = [0]
[[epoch]]
instances = [{ lane = 0 }]
active = [1]"#,
        lanes: "ab|a",
        verdicts: "xy|x",
        entries: 6,
    },
    // A lane without a capture has no packets, and a packet with a reason against it makes no access.
    Case {
        plan: BALANCER,
        epochs: "shards = 1\nepoch = [{ instances = [{ lane = 7 }, { lane = 0 }] }]",
        lanes: "!a",
        verdicts: "Fx",
        entries: 2,
    },
    // Three packets of a batch go side by side, and one whose client has one in the batch waits.
    Case {
        plan: BALANCER,
        epochs: "shards = 1\nbatch = 3\nepoch = [{ instances = [{ lane = 0 }] }]",
        lanes: "aba",
        verdicts: "xyx",
        entries: 5,
    },
    Case {
        plan: BALANCER,
        epochs: "shards = 2\nbatch = 8\nepoch = [{ instances = [{ lane = 0, stop = 3 }] }]",
        lanes: "abaa",
        verdicts: "ll--",
        entries: 3,
    },
    // A stop loses both packets of the batch in hand, also the one whose last access found its client's pin. A quota
    // leaves the rest of its lane.
    Case {
        plan: BALANCER,
        epochs: r#"shards = 1
batch = 2
[[epoch]]
instances = [{ lane = 0, stop = 3 }, { lane = 1, quota = 1 }]
[[epoch]]
instances = [{ lane = 0 }]"#,
        lanes: "abab|ab",
        verdicts: "llyy|y-",
        entries: 8,
    },
    // A flow goes out and its answer comes back, and two first packets of a flow agree on a port.
    Case {
        plan: NAT,
        epochs: r#"shards = 1
[[epoch]]
instances = [{ lane = 0 }, { lane = 1 }]
schedule = [0, 0, 0, 1, 1]"#,
        lanes: "s|r",
        verdicts: "1|i",
        entries: 5,
    },
    Case {
        plan: NAT,
        epochs: r#"shards = 1
[[epoch]]
instances = [{ lane = 0 }, { lane = 1 }]
schedule = [0, 1, 0, 1, 0, 1, 1, 1]"#,
        lanes: "s|s",
        verdicts: "1|1",
        entries: 8,
    },
    // An answer that comes before its flow is confirmed.
    Case {
        plan: NAT,
        epochs: r#"shards = 1
[[epoch]]
instances = [{ lane = 0 }, { lane = 1 }]
schedule = [0, 0, 1, 1, 0]"#,
        lanes: "s|r",
        verdicts: "1|N",
        entries: 5,
    },
    // A stop behind the claim leaves no flow, and one behind the record leaves it.
    Case {
        plan: NAT,
        epochs: "shards = 1\nepoch = [{ instances = [{ lane = 0, stop = 2 }] }]",
        lanes: "s",
        verdicts: "l",
        entries: 2,
    },
    Case {
        plan: NAT,
        epochs: r#"shards = 1
[[epoch]]
instances = [{ lane = 0, stop = 3 }]
[[epoch]]
instances = [{ lane = 0 }]"#,
        lanes: "ss",
        verdicts: "l1",
        entries: 4,
    },
    // A pool of one port is full after one flow.
    Case {
        plan: NAT_OF_ONE,
        epochs: "shards = 1\nepoch = [{ instances = [{ lane = 0 }] }]",
        lanes: "st",
        verdicts: "0O",
        entries: 6,
    },
    // A sweep takes away what a stopped instance left, and takes none of the lanes' packets.
    Case {
        plan: NAT_OF_TWO,
        epochs: SWEPT,
        lanes: "s|t",
        verdicts: "l|0",
        entries: 11,
    },
    // A stop behind a flow's record and another flow's claim: the record stays, and the sweep takes the claim away.
    Case {
        plan: NAT_OF_TWO,
        epochs: r#"shards = 1
batch = 2
[[epoch]]
instances = [{ lane = 0, stop = 5 }]
[[epoch]]
instances = [{ lane = 1 }]
sweep = true"#,
        lanes: "st|s",
        verdicts: "ll|1",
        entries: 13,
    },
    // A connection from its opening to its last packet, over three instances.
    Case {
        plan: FIREWALL,
        epochs: r#"shards = 1
[[epoch]]
instances = [{ lane = 0 }, { lane = 1 }, { lane = 2 }]
schedule = [0, 0, 1, 1, 0, 0, 2, 2, 1, 1, 2, 2]"#,
        lanes: "sA|RG|EA",
        verdicts: "kk|kk|kk",
        entries: 12,
    },
    Case {
        plan: FIREWALL,
        epochs: "shards = 1\nepoch = [{ instances = [{ lane = 0 }] }]",
        lanes: "H",
        verdicts: "C",
        entries: 1,
    },
    // An answer without a connection is lost where its only access is the last before a stop. In the next epoch the
    // opener's segment reads the connection before the answer's write, and is denied.
    Case {
        plan: FIREWALL,
        epochs: r#"shards = 2
batch = 2
[[epoch]]
instances = [{ lane = 0, quota = 1 }, { lane = 1, stop = 1 }]
[[epoch]]
instances = [{ lane = 1, quota = 1 }, { lane = 0 }]"#,
        lanes: "sA|RRR",
        verdicts: "kS|lk-",
        entries: 6,
    },
];
