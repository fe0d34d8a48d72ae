//! Many packets, epochs and instances, batches, and two states of the hashing.

/// Batches of more than one packet.
pub const BATCHES: &str = r#"
# Batches of 3 balanced packets: the third one's client is the first one's, so it is a batch of its own.
start
toml function = "balancer";shards = 1;batch = 3;[balancer];proto = "udp";service = "198.51.100.10:53";
  backends = ["10.1.0.1:53", "10.1.0.2:53"];[[epoch]];instances = [{ lane = 0 }];
in 1 1 h PQP
ends 0
holds out.0.pcap hada
says out.verdicts slnf verdicts 1;0 0 emit dest 10.1.0.1:53;0 1 emit dest 10.1.0.2:53;0 2 emit dest 10.1.0.1:53;
says out.journal slnf journal 1;1 0 0 0 read K absent;2 0 0 1 read L absent;3 0 0 0 put K A done 3;
  4 0 0 1 put L B done 4;5 0 0 2 read K found A 3;
says - packets 3 emitted 3 dropped 0 lost 0 left 0 entries 5;

# Batches of 8 translated packets: two flows in one batch, and a packet of the first one behind it.
start
nat shards=1;batch=8 40000 40003 [[epoch]];instances = [{ lane = 0 }];
in 1 1 h 161
ends 0
holds out.0.pcap h282
says out.verdicts slnf verdicts 1;0 0 emit source 203.0.113.1:40001;0 1 emit source 203.0.113.1:40002;
  0 2 emit source 203.0.113.1:40001;
says out.journal slnf journal 1;1 0 0 0 read F absent;2 0 0 1 read G absent;3 0 0 0 put Q C done 3;
  4 0 0 1 put R E done 4;5 0 0 0 put F U done 5;6 0 0 1 put G V done 6;7 0 0 2 read F found U 5;
says - packets 3 emitted 3 dropped 0 lost 0 left 0 entries 7;

# A stop loses one batch, whose packets are all under way.
start
nat shards=1;batch=8 40000 40003 [[epoch]];instances = [{ lane = 0, stop = 4 }];[[epoch]];instances = [{ lane = 0 }];
in 1 1 h 161
ends 0
holds out.0.pcap h9
says out.verdicts slnf verdicts 1;0 0 lost;0 1 lost;0 2 emit source 203.0.113.1:40003;
says out.journal slnf journal 1;1 0 0 0 read F absent;2 0 0 1 read G absent;3 0 0 0 put Q C done 3;
  4 0 0 1 put R E done 4;5 0 1 2 read F absent;6 0 1 2 put Q D found C 3;7 0 1 2 put R D found E 4;
  8 0 1 2 put 02060000000000000000cb0071019c43 D done 8;9 0 1 2 put F 00000000000000000000cb0071019c43 done 9;
says - packets 3 emitted 1 dropped 0 lost 2 left 0 entries 9;
"#;

/// One instance among 32 lanes; 1000 epochs, each of which takes one packet; and 32 instances with 10,016 packets in all,
/// each of which reads for each packet and puts once more for its first.
pub const MANY: &str = r#"
start
balancer 1 udp 1 [[epoch]];instances = [{ lane = 31 }];
in 32 1 h P
ends 1
holds out.31.pcap ha
holds out.30.pcap h
says - packets 32 emitted 1 dropped 0 lost 0 left 31 entries 2;
start
balancer 1 udp 1000 [[epoch]];instances = [{ lane = 0, quota = 1 }];
in 1 1000 h P
ends 0
says - packets 1000 emitted 1000 dropped 0 lost 0 left 0 entries 1001;
start
balancer 1 udp 1 [[epoch]];instances = [@];
in 32 313 h P
ends 0
says - packets 10016 emitted 10016 dropped 0 lost 0 left 0 entries 10048;
"#;

/// Two flows, an orphan and a sweep in eight shards.
pub const SEEDS: &str = r#"
start
nat shards=8;batch=4 40000 40003 [[epoch]];instances = [{ lane = 0, stop = 5 }, { lane = 1 }];[[epoch]];
  instances = [{ lane = 0 }];sweep = true;
in 1 9 h 16
in 1 9 h 613
ends 0
"#;
