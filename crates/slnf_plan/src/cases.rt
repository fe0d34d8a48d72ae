//! Documents with their refusals: each key of each table missing, beside an unknown one, of a wrong kind, at
//! both ends of its range and one past them.

/// A line with `@` is a document with a gap. Each line after it fills the gap: behind the colon stands the
/// piece for it, and before the colon the number of the document's refusal and its path, or 0 where the
/// document is a plan. A semicolon stands for a line's end.
pub const CASES: &str = r#"
# Whole documents.
@
2 function:
1: a =
1: a = 99999999999999999999
1: shards = 1; shards = 1
3 colour: colour = 1
3 a.b: "a.b" = 1
2 function: shards = 1
4 function: function = 1
7 function: function = "router"
7 function: function = "NAT"
2 nat: function = "nat"
4 nat: function = "nat"; nat = 1
2 firewall: function = "firewall"
4 firewall: function = "firewall"; nat = {}; firewall = []
2 balancer: function = "balancer"
4 balancer: function = "balancer"; balancer = ""
# Of two refusals the first in the stated order is told, and of two unknown keys the first in byte order.
4 function: shards = 0; function = 1
3 ant: zebra = 1; ant = 1; function = 1
3 Zebra: ant = 1; Zebra = 1
3: function = 1; "" = 1

# Numbers beside a balancer.
function = "balancer"; @; [balancer]; proto = "udp"; service = "198.51.100.10:53"; backends = ["10.1.0.1:53", "10.1.0.2:53"]; [[epoch]]; instances = [{ lane = 0 }]
0:
4 shards: shards = "1"
4 shards: shards = 1.0
7 shards: shards = -1
7 shards: shards = 0
0: shards = 1
0: shards = 64
7 shards: shards = 65
7 shards: shards = 9223372036854775807
4 batch: batch = true
7 batch: batch = -1
7 batch: batch = 0
0: batch = 1
0: batch = 32
7 batch: batch = 33
7 shards: batch = 0; shards = 0
3 colour: batch = 0; colour = 1
# The tables of other functions are unread.
0: nat = 1; firewall = []

# Epochs beside a balancer.
function = "balancer"; @; [balancer]; proto = "udp"; service = "198.51.100.10:53"; backends = ["10.1.0.1:53", "10.1.0.2:53"]
10 epoch:
7 batch: batch = 33
10 epoch: epoch = []
4 epoch: epoch = 1
4 epoch: epoch = { instances = [] }
4 epoch.0: epoch = [1]
2 epoch.0.instances: epoch = [{}]
0: epoch = [{ instances = [] }]
4 epoch.1: epoch = [{ instances = [] }, []]
3 epoch.1.lane: epoch = [{ instances = [] }, { instances = [], lane = 0 }]
0: epoch = [{ instances = [{ lane = 0 }] }, { instances = [{ lane = 0 }] }]

# A NAT's inside.
function = "nat"; [nat]; @; [[epoch]]; instances = [{ lane = 0 }]
2 nat.inside:
3 nat.zone: zone = 1
3 nat.zone: inside = 1; zone = 1
4 nat.inside: inside = 1
6 nat.inside: inside = ""
6 nat.inside: inside = "10.0.0.0"
6 nat.inside: inside = "10.0.0.0/"
6 nat.inside: inside = "10.0.0.1/8"
6 nat.inside: inside = "10.0.0.0/8 "
6 nat.inside: inside = "10.0.0.0/08"
6 nat.inside: inside = "1.0.0.0/0"
6 nat.inside: inside = "0.0.0.0/00"
2 nat.outside: inside = "0.0.0.0/0"
2 nat.outside: inside = "255.255.255.255/32"
6 nat.inside: inside = "10.0.0.0/33"

# Its outside.
function = "nat"; [nat]; inside = "10.0.0.0/8"; @; [[epoch]]; instances = [{ lane = 0 }]
4 nat.outside: outside = []
5 nat.outside: outside = "203.0.113"
5 nat.outside: outside = "203.0.113."
5 nat.outside: outside = "203.0.113.256"
5 nat.outside: outside = "203.0.113.01"
5 nat.outside: outside = "203.0.113.1 "
5 nat.outside: outside = "203.0.113.1\n"
5 nat.outside: outside = "+203.0.113.1"
5 nat.outside: outside = "203.0.113.1.1"
5 nat.outside: outside = "10.0.0.0"
5 nat.outside: outside = "10.255.255.255"
2 nat.ports: outside = "9.255.255.255"
2 nat.ports: outside = "11.0.0.0"
2 nat.ports: outside = "0.0.0.0"
2 nat.ports: outside = "255.255.255.255"

# Its ports.
function = "nat"; [nat]; inside = "10.0.0.0/8"; outside = "203.0.113.1"; @; [[epoch]]; instances = [{ lane = 0 }]
2 nat.ports:
4 nat.ports: ports = 1024
4 nat.ports: ports = []
4 nat.ports: ports = [1024]
4 nat.ports: ports = [1024, 1025, 1026]
4 nat.ports.0: ports = ["1", 2]
4 nat.ports.1: ports = [1, "2"]
7 nat.ports: ports = [1023, 1024]
0: ports = [1024, 1024]
7 nat.ports: ports = [1025, 1024]
0: ports = [1024, 65535]
7 nat.ports: ports = [1024, 65536]
7 nat.ports: ports = [-1, 1024]

# A NAT's epoch.
function = "nat"; [nat]; inside = "10.0.0.0/8"; outside = "203.0.113.1"; ports = [40000, 40003]; [[epoch]]; instances = []; @
0:
3 epoch.0.active: active = [0]
4 epoch.0.sweep: sweep = 1; sweep_stop = -1
0: sweep = false
0: sweep = true
4 epoch.0.sweep_stop: sweep_stop = "0"
7 epoch.0.sweep_stop: sweep_stop = 0
7 epoch.0.sweep_stop: sweep = false; sweep_stop = 0
7 epoch.0.sweep_stop: sweep = true; sweep_stop = -1
0: sweep = true; sweep_stop = 0
0: sweep = true; sweep_stop = 1099511627776
7 epoch.0.sweep_stop: sweep = true; sweep_stop = 1099511627777
11 epoch.0.schedule.0: schedule = [0]
0: sweep = true; schedule = [0]
11 epoch.0.schedule.1: sweep = true; schedule = [0, 1]

# A firewall.
function = "firewall"; [firewall]; @; [[epoch]]; instances = [{ lane = 0 }]
2 firewall.inside:
3 firewall.zone: inside = true; zone = 1
4 firewall.inside: inside = true
6 firewall.inside: inside = "10.0.0.0/8/8"
2 firewall.rules: inside = "10.0.0.0/8"
4 firewall.rules: inside = "10.0.0.0/8"; rules = {}
4 firewall.rules.0: inside = "10.0.0.0/8"; rules = [1]
0: inside = "10.0.0.0/8"; rules = []

# A rule's required keys.
function = "firewall"; [firewall]; inside = "10.0.0.0/8"; rules = [{ @}]; [[epoch]]; instances = [{ lane = 0 }]
2 firewall.rules.0.action:
3 firewall.rules.0.port: action = 1, port = 1
4 firewall.rules.0.action: action = true
7 firewall.rules.0.action: action = "drop"
2 firewall.rules.0.direction: action = "deny"
4 firewall.rules.0.direction: action = "permit", direction = 1
7 firewall.rules.0.direction: action = "permit", direction = "up"
0: action = "deny", direction = "out"
2 firewall.rules.1.action: action = "deny", direction = "in" }, {

# Its other keys.
function = "firewall"; [firewall]; inside = "10.0.0.0/8"; rules = [{ action = "permit", direction = "in", @}]; [[epoch]]; instances = [{ lane = 0 }]
4 firewall.rules.0.proto: proto = 6
7 firewall.rules.0.proto: proto = "icmp"
0: proto = "tcp"
0: proto = "udp"
0: proto = "any"
4 firewall.rules.0.source: source = 1
6 firewall.rules.0.source: source = "10.0.0.0"
0: source = "10.0.0.0/7"
4 firewall.rules.0.dest: dest = []
6 firewall.rules.0.dest: dest = "10.0.0.0/6"
0: dest = "0.0.0.0/0"
4 firewall.rules.0.ports: ports = 1
4 firewall.rules.0.ports: ports = [1]
4 firewall.rules.0.ports: ports = [1, 2, 3]
4 firewall.rules.0.ports.0: ports = [true, -1]
4 firewall.rules.0.ports.1: ports = [-1, true]
7 firewall.rules.0.ports: ports = [-1, 1]
7 firewall.rules.0.ports: ports = [1, 0]
0: ports = [0, 65535]
7 firewall.rules.0.ports: ports = [0, 65536]

# A firewall's epoch.
function = "firewall"; [firewall]; inside = "10.0.0.0/8"; rules = []; [[epoch]]; instances = []; @
3 epoch.0.sweep: sweep = true
3 epoch.0.sweep_stop: sweep_stop = 0
3 epoch.0.active: active = [0]
0: schedule = []
11 epoch.0.schedule.0: schedule = [0]

# A balancer's protocol.
function = "balancer"; [balancer]; @; [[epoch]]; instances = [{ lane = 0 }]
2 balancer.proto:
3 balancer.zone: proto = 17; zone = 1
4 balancer.proto: proto = 17
7 balancer.proto: proto = "any"
2 balancer.service: proto = "tcp"
2 balancer.service: proto = "udp"

# Its pairs.
function = "balancer"; [balancer]; proto = "tcp"; @; [[epoch]]; instances = [{ lane = 0 }]
4 balancer.service: service = 53
5 balancer.service: service = "198.51.100.10"
5 balancer.service: service = "198.51.100.10:"
5 balancer.service: service = "198.51.100.10:0"
2 balancer.backends: service = "198.51.100.10:1"
5 balancer.service: service = "198.51.100.10:053"
2 balancer.backends: service = "198.51.100.10:65535"
5 balancer.service: service = "198.51.100.10:65536"
4 balancer.backends: service = "1.2.3.4:5"; backends = "1.2.3.4:5"
9 balancer.backends: service = "1.2.3.4:5"; backends = []
4 balancer.backends.0: service = "1.2.3.4:5"; backends = [1]
5 balancer.backends.1: service = "1.2.3.4:5"; backends = ["1.2.3.4:5", "01.2.3.4:5"]
0: service = "1.2.3.4:5"; backends = ["1.2.3.4:5", "1.2.3.4:5"]

# A balancer's epoch.
function = "balancer"; [balancer]; proto = "udp"; service = "198.51.100.10:53"; backends = ["10.1.0.1:53", "10.1.0.2:53"]; [[epoch]]; @
2 epoch.0.instances:
3 epoch.0.zone: zone = 1
4 epoch.0.instances: instances = 1
0: instances = []
3 epoch.0.sweep: instances = []; sweep = true
3 epoch.0.sweep_stop: instances = []; sweep_stop = 0
2 epoch.1.instances: instances = []; [[epoch]]

# Its other keys, with one instance.
function = "balancer"; [balancer]; proto = "udp"; service = "198.51.100.10:53"; backends = ["10.1.0.1:53", "10.1.0.2:53"]; [[epoch]]; instances = [{ lane = 0 }]; @
4 epoch.0.active: active = 1
9 epoch.0.active: active = []
4 epoch.0.active.0: active = [true]
7 epoch.0.active.0: active = [-1]
7 epoch.0.active.2: active = [0, 1, 2]
0: active = [1, 1]
4 epoch.0.schedule: schedule = 0
0: schedule = []
4 epoch.0.schedule.1: schedule = [0, "1"]
11 epoch.0.schedule.2: schedule = [0, 0, -1]
11 epoch.0.schedule.0: schedule = [1]
0: schedule = [0, 0]
7 epoch.0.active.0: schedule = [1]; active = [2]

# An instance's keys.
function = "balancer"; [balancer]; proto = "udp"; service = "198.51.100.10:53"; backends = ["10.1.0.1:53", "10.1.0.2:53"]; [[epoch]]; instances = [@]
4 epoch.0.instances.0: 1
2 epoch.0.instances.0.lane: {}
3 epoch.0.instances.0.stops: { lane = -1, stops = 1 }
4 epoch.0.instances.0.lane: { lane = "0" }
7 epoch.0.instances.0.lane: { lane = -1 }
0: { lane = 31 }
7 epoch.0.instances.0.lane: { lane = 32 }
4 epoch.0.instances.0.quota: { lane = 0, quota = [] }
7 epoch.0.instances.0.quota: { lane = 0, quota = -1 }
0: { lane = 0, quota = 0 }
0: { lane = 0, quota = 1048576 }
7 epoch.0.instances.0.quota: { lane = 0, quota = 1048577 }
4 epoch.0.instances.0.stop: { lane = 0, stop = false }
7 epoch.0.instances.0.stop: { lane = 0, stop = -1 }
0: { lane = 0, stop = 0 }
0: { lane = 0, stop = 1099511627776 }
7 epoch.0.instances.0.stop: { lane = 0, stop = 1099511627777 }
0: { lane = 0 }, { lane = 1 }
8 epoch.0.instances.1.lane: { lane = 0 }, { lane = 0 }
# An element is checked whole, then its lane, then the next element.
7 epoch.0.instances.1.stop: { lane = 0 }, { lane = 0, stop = -1 }
8 epoch.0.instances.1.lane: { lane = 0 }, { lane = 0 }, {}
"#;

/// Documents with a gap in a list, an element for it, how many elements the list may have, and what comes of so
/// many and of one more.
pub static LISTS: [(&str, &str, usize, &str, &str); 5] = [
    (
        "function = \"balancer\"; epoch = [@]; [balancer]; proto = \"udp\"; service = \"1.2.3.4:5\"; backends = [\"1.2.3.4:5\"]",
        "{ instances = [] },",
        1000,
        "0",
        "7 epoch",
    ),
    (
        "function = \"firewall\"; [firewall]; inside = \"10.0.0.0/8\"; rules = [@]; [[epoch]]; instances = []",
        "{ action = \"permit\", direction = \"out\" },",
        256,
        "0",
        "7 firewall.rules",
    ),
    (
        "function = \"balancer\"; [balancer]; proto = \"udp\"; service = \"1.2.3.4:5\"; backends = [@]; [[epoch]]; instances = []",
        "\"1.2.3.4:5\",",
        64,
        "0",
        "7 balancer.backends",
    ),
    (
        "function = \"balancer\"; [balancer]; proto = \"udp\"; service = \"1.2.3.4:5\"; backends = [\"1.2.3.4:5\"]; [[epoch]]; instances = []; active = [@]",
        "0,",
        64,
        "0",
        "7 epoch.0.active",
    ),
    (
        "function = \"balancer\"; [balancer]; proto = \"udp\"; service = \"1.2.3.4:5\"; backends = [\"1.2.3.4:5\"]; [[epoch]]; instances = [@]",
        "{ lane = 0 },",
        32,
        "8 epoch.0.instances.1.lane",
        "7 epoch.0.instances",
    ),
];
