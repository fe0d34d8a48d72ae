//! What is refused, and what fails.

/// Frames, faults, and words.
pub const FAULTS: &str = r#"
# The other byte order, nanoseconds and Ethernet: frames are dropped with their reasons, and padding stays. Five bytes
# behind the last record are a torn record.
start
balancer 1 udp 1 [[epoch]];instances = [{ lane = 0 }];
in 1 1 H UFD
ends 0
holds out.0.pcap Hs
says out.verdicts slnf verdicts 1;0 0 drop 1;0 1 drop 2;0 2 emit dest 10.1.0.1:53;
start
balancer 1 udp 1 [[epoch]];instances = [{ lane = 0 }];
in 1 1 H UFDZ
ends 4 slnf: capture of lane 0: error 5;
was CaptureBad { lane: 0, error: TornRecord(216) }

# A begin or an append that fails, in the midst of the files, at standard output, and behind all of them.
start append 2
balancer 1 udp 1 [[epoch]];instances = [{ lane = 0 }];
in 1 2 h P
ends 6 slnf: write fault;
holds out.0.pcap haa
says out.verdicts
none out.journal
start begin 4
balancer 1 udp 1 [[epoch]];instances = [{ lane = 0 }];
in 1 2 h P
ends 6 slnf: write fault;
holds out.0.pcap haa
says out.verdicts slnf verdicts 1;0 0 emit dest 10.1.0.1:53;0 1 emit dest 10.1.0.1:53;
says out.journal slnf journal 1;1 0 0 0 read K absent;2 0 0 0 put K A done 2;3 0 0 1 read K found A 2;
none -
start append 4
balancer 1 udp 1 [[epoch]];instances = [{ lane = 0 }];
in 1 2 h P
ends 6 slnf: write fault;
holds out.0.pcap haa
says out.verdicts slnf verdicts 1;0 0 emit dest 10.1.0.1:53;0 1 emit dest 10.1.0.1:53;
says out.journal slnf journal 1;1 0 0 0 read K absent;2 0 0 0 put K A done 2;3 0 0 1 read K found A 2;
says -
start begin 5
balancer 1 udp 1 [[epoch]];instances = [{ lane = 0 }];
in 1 2 h P
ends 0
holds out.0.pcap haa
says - packets 2 emitted 2 dropped 0 lost 0 left 0 entries 3;
start append 5
balancer 1 udp 1 [[epoch]];instances = [{ lane = 0 }];
in 1 2 h P
ends 0
holds out.0.pcap haa
says - packets 2 emitted 2 dropped 0 lost 0 left 0 entries 3;

# Files that aren't there, and a read that fails.
start
in 1 1 h P
ends 5 slnf: read fault;
start
balancer 1 udp 1 [[epoch]];instances = [{ lane = 0 }];
in 1 1 h P
words 5 step plan.toml out in.0.pcap in.1.pcap
start read 3
balancer 1 udp 1 [[epoch]];instances = [{ lane = 0 }];
in 1 1 h P
ends 5 slnf: read fault;
none out.0.pcap

# Words of no form, and an output that has an input's name.
start
balancer 1 udp 1 [[epoch]];instances = [{ lane = 0 }];
in 1 1 h P
words 2
words 2 run plan.toml
words 2 run plan.toml out in.0.pcap
words 2 step -p out in.0.pcap
words 2 step plan.toml out
words 0 step plan.toml in in.0.pcap
holds in.0.pcap ha
start
balancer 1 udp 1 [[epoch]];instances = [{ lane = 31 }];
in 33 1 h P
ends 2 slnf: usage: run, step, check or box PLAN OUT IN, or load NUMBER LANES PACKETS;
"#;

/// Captures and plans that are refused.
pub const REFUSALS: &str = r#"
start
balancer 1 udp 1 [[epoch]];instances = [{ lane = 0 }];
in 1 0 h P
in 1 1 h O
ends 4 slnf: capture of lane 1: error 6;
was CaptureBad { lane: 1, error: OverSnap(24) }
start
in 1 1 h P
toml a =
ends 3 slnf: plan error 1 at ;
toml shards = 1
ends 3 slnf: plan error 2 at function;
toml colour = 1
ends 3 slnf: plan error 3 at colour;
toml function = 1
ends 3 slnf: plan error 4 at function;
toml function = "balancer";[balancer];proto = "udp";service = "198.51.100.10";backends = ["10.1.0.1:53"]
ends 3 slnf: plan error 5 at balancer.service;
toml function = "nat";[nat];inside = "10.0.0.1/8";outside = "203.0.113.1";ports = [40000, 40003]
ends 3 slnf: plan error 6 at nat.inside;
balancer 65 udp 1 [[epoch]];instances = [{ lane = 0 }];
ends 3 slnf: plan error 7 at shards;
balancer 1 udp 1 [[epoch]];instances = [{ lane = 0 }, { lane = 0 }];
ends 3 slnf: plan error 8 at epoch.0.instances.1.lane;
toml function = "balancer";[balancer];proto = "udp";service = "198.51.100.10:53";backends = []
ends 3 slnf: plan error 9 at balancer.backends;
balancer 1 udp 0
ends 3 slnf: plan error 10 at epoch;
balancer 1 udp 1 [[epoch]];instances = [{ lane = 0 }];schedule = [1]
ends 3 slnf: plan error 11 at epoch.0.schedule.0;
none out.0.pcap
"#;
