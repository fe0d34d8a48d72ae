//! What is accepted, and what the ordinary box answers.

/// Journals that `step` doesn't write, and what is read and written.
pub const ACCEPTED: &str = r#"
# What a run left, and files without entries.
start
balancer 1 udp 1 [[epoch]];instances = [{ lane = 0 }, { lane = 1 }];schedule = [0, 1, 0, 1];
in 2 1 h P
ends 0
runs check 0
says - accepted entries 4;
says out.verdicts slnf verdicts 1;0 0 emit dest 10.1.0.1:53;1 0 emit dest 10.1.0.1:53;
start
balancer 1 udp 1 [[epoch]];instances = [{ lane = 0 }];
in 1 0 h P
ends 0
runs check 0
says - accepted entries 0;
runs box 0
says -

# Some packets are left, and `check` and `box` end with 0.
start
balancer 1 udp 1 [[epoch]];instances = [{ lane = 0, quota = 1 }];
in 1 2 h P
ends 1
runs check 0
says - accepted entries 2;
runs box 0
says - 2 0 0 emit dest 10.1.0.1:53;

# The packets of a batch in another order within a round, and one behind the other.
start
toml function = "balancer";shards = 1;batch = 3;[balancer];proto = "udp";service = "198.51.100.10:53";
  backends = ["10.1.0.1:53", "10.1.0.2:53"];[[epoch]];instances = [{ lane = 0 }];
in 1 1 h PQP
ends 0
put out.journal slnf journal 1;1 0 0 1 read L absent;2 0 0 0 read K absent;3 0 0 1 put L B done 3;
  4 0 0 0 put K A done 4;5 0 0 2 read K found A 4;
runs check 0
says - accepted entries 5;
runs box 0
says - 3 0 1 emit dest 10.1.0.2:53;4 0 0 emit dest 10.1.0.1:53;5 0 2 emit dest 10.1.0.1:53;
put out.journal slnf journal 1;1 0 0 1 read L absent;2 0 0 1 put L B done 2;3 0 0 0 read K absent;
  4 0 0 0 put K A done 4;5 0 0 2 read K found A 4;
runs check 0
says - accepted entries 5;
runs box 0
says - 2 0 1 emit dest 10.1.0.2:53;4 0 0 emit dest 10.1.0.1:53;5 0 2 emit dest 10.1.0.1:53;

# Stamps need not be the least ones.
put out.journal slnf journal 1;5 0 0 0 read K absent;7 0 0 1 read L absent;9 0 0 0 put K A done 9;
  10 0 0 1 put L B done 10;4611686018427387903 0 0 2 read K found A 9;
runs check 0
says - accepted entries 5;

# A packet of the next batch before the one in hand has ended.
put out.journal slnf journal 1;1 0 0 0 read K absent;2 0 0 1 read L absent;3 0 0 0 put K A done 3;
  4 0 0 2 read K found A 3;5 0 0 1 put L B done 5;
breaks check 4 Entry(4)
breaks box 4 Entry(4)

# An entry of a later epoch before an earlier one has ended.
start
balancer 1 udp 1 [[epoch]];instances = [{ lane = 0, quota = 1 }];[[epoch]];instances = [{ lane = 0 }];
in 1 2 h P
ends 0
put out.journal slnf journal 1;1 0 0 0 read K absent;2 0 1 1 read K absent;3 0 0 0 put K A done 3;4 0 1 1 put K A found A 3;
breaks check 4 Entry(2)
breaks box 4 Entry(2)

# Files that aren't there: `box` asks for the journal alone.
start
balancer 1 udp 1 [[epoch]];instances = [{ lane = 0 }];
in 1 0 h P
runs check 5 slnf: read fault;
runs box 5 slnf: read fault;
put out.journal slnf journal 1;
runs box 0
says -
put - 1
runs check 5 slnf: read fault;
put out.verdicts slnf verdicts 1;
runs check 5 slnf: read fault;
says - 1
words 5 box plan.toml other in.0.pcap

# The plan and the captures are refused first, and so are words of no form.
in 1 1 h O
runs check 4 slnf: capture of lane 1: error 6;
runs box 4 slnf: capture of lane 1: error 6;
toml colour = 1
runs check 3 slnf: plan error 3 at colour;
runs box 3 slnf: plan error 3 at colour;
words 2 check plan.toml out
words 2 box plan.toml out
words 2 check -p out in.0.pcap
words 2 box plan.toml -o in.0.pcap
words 2 checks plan.toml out in.0.pcap
was Usage
says - 1

# Faults: the fifth begin and append are those of `check` or `box`, and the tenth read is the first of the journal.
start begin 5
balancer 1 udp 1 [[epoch]];instances = [{ lane = 0 }];
in 1 1 h P
ends 0
runs check 6 slnf: write fault;
says - packets 1 emitted 1 dropped 0 lost 0 left 0 entries 2;
start append 5
balancer 1 udp 1 [[epoch]];instances = [{ lane = 0 }];
in 1 1 h P
ends 0
runs box 6 slnf: write fault;
says -
start read 9
balancer 1 udp 1 [[epoch]];instances = [{ lane = 0 }];
in 1 1 h P
ends 0
runs check 5 slnf: read fault;
says - packets 1 emitted 1 dropped 0 lost 0 left 0 entries 2;
"#;

/// What the one ordinary box answers.
pub const BOXES: &str = r#"
# A balancer, forward and back.
start
balancer 1 udp 1 [[epoch]];instances = [{ lane = 0 }];
in 1 1 h PPrv
ends 0
runs box 0
says - 2 0 0 emit dest 10.1.0.1:53;3 0 1 emit dest 10.1.0.1:53;4 0 2 emit source 198.51.100.10:53;5 0 3 drop 11;

# Two shards: places go by the journal's order.
start
balancer 2 udp 1 [[epoch]];instances = [{ lane = 0 }, { lane = 1 }];schedule = [0, 1, 0, 1];
in 1 1 h P
in 1 1 h Q
ends 0
runs box 0
says - 3 0 0 emit dest 10.1.0.1:53;4 1 0 emit dest 10.1.0.2:53;

# A stop behind the record, after which the box has the flow, and one behind the claim, of which it knows nothing.
start
nat shards=1 40000 40003 [[epoch]];instances = [{ lane = 0, stop = 3 }];[[epoch]];instances = [{ lane = 0 }];
in 1 1 h 11
ends 0
runs box 0
says - 3 0 0 emit source 203.0.113.1:40001;4 0 1 emit source 203.0.113.1:40001;
start
nat shards=1 40000 40003 [[epoch]];instances = [{ lane = 0, stop = 2 }];
in 1 1 h 1
ends 0
runs box 0
says -

# A race: both packets are decided at their puts on the flow's key.
start
nat shards=1 40000 40003 [[epoch]];instances = [{ lane = 0 }, { lane = 1 }];schedule = [0, 1, 0, 1, 0, 1, 1, 1];
in 2 1 h 1
ends 0
runs box 0
says - 5 0 0 emit source 203.0.113.1:40001;7 1 0 emit source 203.0.113.1:40001;

# A packet in that finds no flow has its place where it looked for the port.
start
nat shards=1 40000 40003 [[epoch]];instances = [{ lane = 0 }, { lane = 1 }];schedule = [0, 0, 1, 1, 0];
in 1 1 h 1
in 1 1 h 3
ends 0
runs box 0
says - 3 1 0 drop 7;5 0 0 emit source 203.0.113.1:40001;

# A pool that is full.
start
nat shards=1 40000 40000 [[epoch]];instances = [{ lane = 0 }];
in 1 1 h 16
ends 0
runs box 0
says - 3 0 0 emit source 203.0.113.1:40000;6 0 1 drop 6;

# A sweep has no packets, and an orphan no place.
start
nat shards=1 40000 40001 [[epoch]];instances = [{ lane = 0, stop = 2 }];[[epoch]];instances = [{ lane = 1 }];
  sweep = true;schedule = [0, 0, 1, 1, 1, 1, 0];
in 1 1 h 1
in 1 1 h 6
ends 0
runs box 0
says - 9 1 0 emit source 203.0.113.1:40000;

# A firewall: an ACK alone from outside, and a datagram without a direction, which has no place; and two replaces at once.
start
firewall [[epoch]];instances = [{ lane = 0 }];
in 1 1 h GP
ends 0
runs box 0
says - 1 0 0 drop 10;
start
firewall [[epoch]];instances = [{ lane = 0 }, { lane = 1 }];schedule = [0, 0, 1, 1, 0, 0, 0, 1, 0, 1, 1];
in 1 1 h 1AE
in 1 1 h BC
ends 0
runs box 0
says - 2 0 0 emit keep;4 1 0 emit keep;6 0 1 emit keep;9 0 2 emit keep;11 1 1 emit keep;
"#;
