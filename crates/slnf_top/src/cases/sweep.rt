//! Orphans, and the sweeps that take them away.

/// Whole runs with sweeps.
pub const SWEEPS: &str = r#"
# An orphan and its sweep.
start
nat shards=1 40000 40001 [[epoch]];instances = [{ lane = 0, stop = 2 }];[[epoch]];instances = [{ lane = 1 }];
  sweep = true;schedule = [0, 0, 1, 1, 1, 1, 0];
in 1 1 h 1
in 1 1 h 6
ends 0
holds out.0.pcap h
holds out.1.pcap h7
says out.verdicts slnf verdicts 1;0 0 lost;1 0 emit source 203.0.113.1:40000;
says out.journal slnf journal 1;1 0 0 0 read F absent;2 0 0 0 put Q C done 2;3 0 1 0 read G absent;
  4 0 1 0 put P H done 4;5 0 2 0 read P found H 4;6 0 2 1 read Q found C 2;7 0 2 1 read F absent;
  8 0 2 1 delete Q 2 done 8;9 0 1 0 put G T done 9;10 0 2 2 read X absent;11 0 2 3 read Y absent;
says - packets 2 emitted 1 dropped 0 lost 1 left 0 entries 11;

# Two sweeps: the first one leaves the claim of its own epoch's instance, and takes the older one away. The second one
# takes that claim, too, whose flow has no record.
start
nat shards=1 40000 40001 [[epoch]];instances = [{ lane = 0, stop = 2 }];[[epoch]];
  instances = [{ lane = 0, stop = 3 }];sweep = true;schedule = [0, 0, 0];[[epoch]];instances = [{ lane = 0 }];
  sweep = true;schedule = [1, 1, 1, 1, 1, 1];
in 1 1 h 111
ends 0
holds out.0.pcap h2
says out.verdicts slnf verdicts 1;0 0 lost;0 1 lost;0 2 emit source 203.0.113.1:40001;
says out.journal slnf journal 1;1 0 0 0 read F absent;2 0 0 0 put Q C done 2;3 0 1 1 read F absent;
  4 0 1 1 put Q D found C 2;5 0 1 1 put P D done 5;6 0 2 0 read P found D 5;7 0 2 1 read Q found C 2;
  8 0 2 1 read F absent;9 0 2 1 delete Q 2 done 9;10 0 2 2 read X absent;11 0 2 3 read Y absent;
  12 0 4 0 read P found D 5;13 0 4 0 read F absent;14 0 4 0 delete P 5 done 14;15 0 4 1 read Q absent;
  16 0 4 2 read X absent;17 0 4 3 read Y absent;18 0 3 2 read F absent;
  19 0 3 2 put Q 000000000000000000030a0000051388 done 19;20 0 3 2 put F U done 20;
says - packets 3 emitted 1 dropped 0 lost 2 left 0 entries 20;

# A live flow keeps its claim through two sweeps.
start
nat shards=1 40000 40001 [[epoch]];instances = [{ lane = 0 }];[[epoch]];instances = [];sweep = true;[[epoch]];
  instances = [];sweep = true;[[epoch]];instances = [{ lane = 1 }];
in 1 1 h 1
in 1 1 h 3
ends 0
holds out.0.pcap h2
holds out.1.pcap h4
says out.verdicts slnf verdicts 1;0 0 emit source 203.0.113.1:40001;1 0 emit dest 10.0.0.5:5000;
says out.journal slnf journal 1;1 0 0 0 read F absent;2 0 0 0 put Q C done 2;3 0 0 0 put F U done 3;
  4 0 1 0 read P absent;5 0 1 1 read Q found C 2;6 0 1 1 read F found U 3;7 0 1 2 read X absent;8 0 1 3 read Y absent;
  9 0 2 0 read P absent;10 0 2 1 read Q found C 2;11 0 2 1 read F found U 3;12 0 2 2 read X absent;
  13 0 2 3 read Y absent;14 0 3 0 read Q found C 2;15 0 3 0 read F found U 3;
says - packets 2 emitted 2 dropped 0 lost 0 left 0 entries 15;

# A port is given back by a sweep, and claimed anew while that goes on; or claimed too early.
start
nat shards=1 40000 40000 [[epoch]];instances = [{ lane = 0, stop = 2 }];[[epoch]];instances = [{ lane = 1 }];
  sweep = true;schedule = [1, 1, 0, 1, 0, 0];
in 1 1 h 1
in 1 1 h 6
ends 0
holds out.0.pcap h
holds out.1.pcap h7
says out.verdicts slnf verdicts 1;0 0 lost;1 0 emit source 203.0.113.1:40000;
says out.journal slnf journal 1;1 0 0 0 read F absent;2 0 0 0 put P C done 2;3 0 2 0 read P found C 2;
  4 0 2 0 read F absent;5 0 1 0 read G absent;6 0 2 0 delete P 2 done 6;7 0 1 0 put P H done 7;8 0 1 0 put G T done 8;
  9 0 2 1 read X absent;
says - packets 2 emitted 1 dropped 0 lost 1 left 0 entries 9;
nat shards=1 40000 40000 [[epoch]];instances = [{ lane = 0, stop = 2 }];[[epoch]];instances = [{ lane = 1 }];
  sweep = true;schedule = [1, 1, 0, 0, 1, 0];
ends 0
holds out.0.pcap h
holds out.1.pcap h
says out.verdicts slnf verdicts 1;0 0 lost;1 0 drop 6;
says out.journal slnf journal 1;1 0 0 0 read F absent;2 0 0 0 put P C done 2;3 0 2 0 read P found C 2;
  4 0 2 0 read F absent;5 0 1 0 read G absent;6 0 1 0 put P H found C 2;7 0 2 0 delete P 2 done 7;
  8 0 1 0 read G absent;9 0 2 1 read X absent;
says - packets 2 emitted 0 dropped 1 lost 1 left 0 entries 9;

# Two instances claim while a sweep goes on: the orphan's flow has another port by then, and the other flow takes the
# orphan's.
start
nat shards=1 40000 40001 [[epoch]];instances = [{ lane = 0, stop = 2 }];[[epoch]];
  instances = [{ lane = 0 }, { lane = 1 }];sweep = true;schedule = [2, 0, 0, 0, 2, 1, 1, 0, 2, 2, 1, 1];
in 1 1 h 11
in 1 1 h 6
ends 0
holds out.0.pcap h5
holds out.1.pcap h2
says out.verdicts slnf verdicts 1;0 0 lost;0 1 emit source 203.0.113.1:40000;1 0 emit source 203.0.113.1:40001;
says out.journal slnf journal 1;1 0 0 0 read F absent;2 0 0 0 put Q C done 2;3 0 3 0 read P absent;
  4 0 1 1 read F absent;5 0 1 1 put Q D found C 2;6 0 1 1 put P D done 6;7 0 3 1 read Q found C 2;
  8 0 2 0 read G absent;9 0 2 0 put P 000000000000000000020a0000061388 found D 6;10 0 1 1 put F T done 10;
  11 0 3 1 read F found T 10;12 0 3 1 delete Q 2 done 12;13 0 2 0 put Q 000000000000000000020a0000061388 done 13;
  14 0 2 0 put G U done 14;15 0 3 2 read X absent;16 0 3 3 read Y absent;
says - packets 3 emitted 2 dropped 0 lost 1 left 0 entries 16;
"#;

/// The run of the orphan above, whose sweep is stopped after each number of accesses: with the fourth one the orphan is
/// gone. The next epoch's sweep does what is left, and leaves the live flow's claim.
pub const STOPPED_SWEEPS: &str = r#"
start
in 1 1 h 1
in 1 1 h 6
nat shards=1 40000 40001 [[epoch]];instances = [{ lane = 0, stop = 2 }];[[epoch]];instances = [{ lane = 1 }];
  sweep = true;sweep_stop = 0;schedule = [0, 0, 1, 1, 1, 1, 0];[[epoch]];instances = [];sweep = true;
ends 0
holds out.0.pcap h
holds out.1.pcap h7
says out.verdicts slnf verdicts 1;0 0 lost;1 0 emit source 203.0.113.1:40000;
says out.journal slnf journal 1;1 0 0 0 read F absent;2 0 0 0 put Q C done 2;3 0 1 0 read G absent;
  4 0 1 0 put P H done 4;5 0 1 0 put G T done 5;6 0 3 0 read P found H 4;7 0 3 0 read G found T 5;
  8 0 3 1 read Q found C 2;9 0 3 1 read F absent;10 0 3 1 delete Q 2 done 10;11 0 3 2 read X absent;
  12 0 3 3 read Y absent;
says - packets 2 emitted 1 dropped 0 lost 1 left 0 entries 12;
nat shards=1 40000 40001 [[epoch]];instances = [{ lane = 0, stop = 2 }];[[epoch]];instances = [{ lane = 1 }];
  sweep = true;sweep_stop = 1;schedule = [0, 0, 1, 1, 1, 1, 0];[[epoch]];instances = [];sweep = true;
ends 0
holds out.0.pcap h
holds out.1.pcap h7
says out.verdicts slnf verdicts 1;0 0 lost;1 0 emit source 203.0.113.1:40000;
says out.journal slnf journal 1;1 0 0 0 read F absent;2 0 0 0 put Q C done 2;3 0 1 0 read G absent;
  4 0 1 0 put P H done 4;5 0 2 0 read P found H 4;6 0 1 0 put G T done 6;7 0 3 0 read P found H 4;
  8 0 3 0 read G found T 6;9 0 3 1 read Q found C 2;10 0 3 1 read F absent;11 0 3 1 delete Q 2 done 11;
  12 0 3 2 read X absent;13 0 3 3 read Y absent;
says - packets 2 emitted 1 dropped 0 lost 1 left 0 entries 13;
nat shards=1 40000 40001 [[epoch]];instances = [{ lane = 0, stop = 2 }];[[epoch]];instances = [{ lane = 1 }];
  sweep = true;sweep_stop = 2;schedule = [0, 0, 1, 1, 1, 1, 0];[[epoch]];instances = [];sweep = true;
ends 0
holds out.0.pcap h
holds out.1.pcap h7
says out.verdicts slnf verdicts 1;0 0 lost;1 0 emit source 203.0.113.1:40000;
says out.journal slnf journal 1;1 0 0 0 read F absent;2 0 0 0 put Q C done 2;3 0 1 0 read G absent;
  4 0 1 0 put P H done 4;5 0 2 0 read P found H 4;6 0 2 1 read Q found C 2;7 0 1 0 put G T done 7;
  8 0 3 0 read P found H 4;9 0 3 0 read G found T 7;10 0 3 1 read Q found C 2;11 0 3 1 read F absent;
  12 0 3 1 delete Q 2 done 12;13 0 3 2 read X absent;14 0 3 3 read Y absent;
says - packets 2 emitted 1 dropped 0 lost 1 left 0 entries 14;
nat shards=1 40000 40001 [[epoch]];instances = [{ lane = 0, stop = 2 }];[[epoch]];instances = [{ lane = 1 }];
  sweep = true;sweep_stop = 3;schedule = [0, 0, 1, 1, 1, 1, 0];[[epoch]];instances = [];sweep = true;
ends 0
holds out.0.pcap h
holds out.1.pcap h7
says out.verdicts slnf verdicts 1;0 0 lost;1 0 emit source 203.0.113.1:40000;
says out.journal slnf journal 1;1 0 0 0 read F absent;2 0 0 0 put Q C done 2;3 0 1 0 read G absent;
  4 0 1 0 put P H done 4;5 0 2 0 read P found H 4;6 0 2 1 read Q found C 2;7 0 2 1 read F absent;
  8 0 1 0 put G T done 8;9 0 3 0 read P found H 4;10 0 3 0 read G found T 8;11 0 3 1 read Q found C 2;
  12 0 3 1 read F absent;13 0 3 1 delete Q 2 done 13;14 0 3 2 read X absent;15 0 3 3 read Y absent;
says - packets 2 emitted 1 dropped 0 lost 1 left 0 entries 15;
nat shards=1 40000 40001 [[epoch]];instances = [{ lane = 0, stop = 2 }];[[epoch]];instances = [{ lane = 1 }];
  sweep = true;sweep_stop = 4;schedule = [0, 0, 1, 1, 1, 1, 0];[[epoch]];instances = [];sweep = true;
ends 0
holds out.0.pcap h
holds out.1.pcap h7
says out.verdicts slnf verdicts 1;0 0 lost;1 0 emit source 203.0.113.1:40000;
says out.journal slnf journal 1;1 0 0 0 read F absent;2 0 0 0 put Q C done 2;3 0 1 0 read G absent;
  4 0 1 0 put P H done 4;5 0 2 0 read P found H 4;6 0 2 1 read Q found C 2;7 0 2 1 read F absent;
  8 0 2 1 delete Q 2 done 8;9 0 1 0 put G T done 9;10 0 3 0 read P found H 4;11 0 3 0 read G found T 9;
  12 0 3 1 read Q absent;13 0 3 2 read X absent;14 0 3 3 read Y absent;
says - packets 2 emitted 1 dropped 0 lost 1 left 0 entries 14;
nat shards=1 40000 40001 [[epoch]];instances = [{ lane = 0, stop = 2 }];[[epoch]];instances = [{ lane = 1 }];
  sweep = true;sweep_stop = 5;schedule = [0, 0, 1, 1, 1, 1, 0];[[epoch]];instances = [];sweep = true;
ends 0
holds out.0.pcap h
holds out.1.pcap h7
says out.verdicts slnf verdicts 1;0 0 lost;1 0 emit source 203.0.113.1:40000;
says out.journal slnf journal 1;1 0 0 0 read F absent;2 0 0 0 put Q C done 2;3 0 1 0 read G absent;
  4 0 1 0 put P H done 4;5 0 2 0 read P found H 4;6 0 2 1 read Q found C 2;7 0 2 1 read F absent;
  8 0 2 1 delete Q 2 done 8;9 0 1 0 put G T done 9;10 0 2 2 read X absent;11 0 3 0 read P found H 4;
  12 0 3 0 read G found T 9;13 0 3 1 read Q absent;14 0 3 2 read X absent;15 0 3 3 read Y absent;
says - packets 2 emitted 1 dropped 0 lost 1 left 0 entries 15;
nat shards=1 40000 40001 [[epoch]];instances = [{ lane = 0, stop = 2 }];[[epoch]];instances = [{ lane = 1 }];
  sweep = true;sweep_stop = 6;schedule = [0, 0, 1, 1, 1, 1, 0];[[epoch]];instances = [];sweep = true;
ends 0
holds out.0.pcap h
holds out.1.pcap h7
says out.verdicts slnf verdicts 1;0 0 lost;1 0 emit source 203.0.113.1:40000;
says out.journal slnf journal 1;1 0 0 0 read F absent;2 0 0 0 put Q C done 2;3 0 1 0 read G absent;
  4 0 1 0 put P H done 4;5 0 2 0 read P found H 4;6 0 2 1 read Q found C 2;7 0 2 1 read F absent;
  8 0 2 1 delete Q 2 done 8;9 0 1 0 put G T done 9;10 0 2 2 read X absent;11 0 2 3 read Y absent;
  12 0 3 0 read P found H 4;13 0 3 0 read G found T 9;14 0 3 1 read Q absent;15 0 3 2 read X absent;
  16 0 3 3 read Y absent;
says - packets 2 emitted 1 dropped 0 lost 1 left 0 entries 16;
"#;

/// A sweep of 64,512 ports of both protocols, which takes one orphan away: its flow gets the same port anew, the last one
/// of them.
pub const WIDE_SWEEP: &str = r#"
start
nat shards=8 1024 65535 [[epoch]];instances = [{ lane = 0, stop = 2 }];[[epoch]];instances = [];sweep = true;
  [[epoch]];instances = [{ lane = 0 }];
in 1 1 h mm
ends 0
holds out.0.pcap hn
says out.verdicts slnf verdicts 1;0 0 lost;0 1 emit source 203.0.113.1:65535;
says - packets 2 emitted 1 dropped 0 lost 1 left 0 entries 129031;
"#;
