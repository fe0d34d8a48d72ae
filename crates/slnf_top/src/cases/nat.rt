//! Translated flows.

/// A NAT's runs.
pub const NATS: &str = r#"
# Out and back.
start
nat shards=1 40000 40003 [[epoch]];instances = [{ lane = 0 }, { lane = 1 }];schedule = [0, 0, 0, 1, 1];
in 1 1 h 1
in 1 1 h 3
ends 0
holds out.0.pcap h2
holds out.1.pcap h4
says out.verdicts slnf verdicts 1;0 0 emit source 203.0.113.1:40001;1 0 emit dest 10.0.0.5:5000;
says out.journal slnf journal 1;1 0 0 0 read F absent;2 0 0 0 put Q C done 2;3 0 0 0 put F U done 3;
  4 0 1 0 read Q found C 2;5 0 1 0 read F found U 3;
says - packets 2 emitted 2 dropped 0 lost 0 left 0 entries 5;

# A race on one flow: the loser gives back its claim, and sends on from the winner's port.
start
nat shards=1 40000 40003 [[epoch]];instances = [{ lane = 0 }, { lane = 1 }];schedule = [0, 1, 0, 1, 0, 1, 1, 1];
in 2 1 h 1
ends 0
holds out.0.pcap h2
holds out.1.pcap h2
says out.verdicts slnf verdicts 1;0 0 emit source 203.0.113.1:40001;1 0 emit source 203.0.113.1:40001;
says out.journal slnf journal 1;1 0 0 0 read F absent;2 0 1 0 read F absent;3 0 0 0 put Q C done 3;
  4 0 1 0 put Q D found C 3;5 0 0 0 put F U done 5;6 0 1 0 put R D done 6;7 0 1 0 put F V found U 5;
  8 0 1 0 delete R 6 done 8;
says - packets 2 emitted 2 dropped 0 lost 0 left 0 entries 8;

# A stop behind the claim, which is an orphan then, and one behind the record.
start
nat shards=1 40000 40003 [[epoch]];instances = [{ lane = 0, stop = 2 }];
in 1 1 h 1
ends 0
holds out.0.pcap h
says out.verdicts slnf verdicts 1;0 0 lost;
says out.journal slnf journal 1;1 0 0 0 read F absent;2 0 0 0 put Q C done 2;
says - packets 1 emitted 0 dropped 0 lost 1 left 0 entries 2;
start
nat shards=1 40000 40003 [[epoch]];instances = [{ lane = 0, stop = 3 }];[[epoch]];instances = [{ lane = 0 }];
in 1 1 h 11
ends 0
holds out.0.pcap h2
says out.verdicts slnf verdicts 1;0 0 lost;0 1 emit source 203.0.113.1:40001;
says out.journal slnf journal 1;1 0 0 0 read F absent;2 0 0 0 put Q C done 2;3 0 0 0 put F U done 3;4 0 1 1 read F found U 3;
says - packets 2 emitted 1 dropped 0 lost 1 left 0 entries 4;

# A pool that is full.
start
nat shards=1 40000 40000 [[epoch]];instances = [{ lane = 0 }];
in 1 1 h 16
ends 0
holds out.0.pcap h5
says out.verdicts slnf verdicts 1;0 0 emit source 203.0.113.1:40000;0 1 drop 6;
says out.journal slnf journal 1;1 0 0 0 read F absent;2 0 0 0 put P C done 2;3 0 0 0 put F T done 3;
  4 0 0 1 read G absent;5 0 0 1 put P E found C 2;6 0 0 1 read G absent;
says - packets 2 emitted 1 dropped 1 lost 0 left 0 entries 6;

# One port and one flow twice: the last look finds the flow, or comes before it.
start
nat shards=1 40000 40000 [[epoch]];instances = [{ lane = 0 }, { lane = 1 }];schedule = [0, 1, 0, 1, 0, 1];
in 2 1 h 1
ends 0
holds out.0.pcap h5
holds out.1.pcap h5
says out.verdicts slnf verdicts 1;0 0 emit source 203.0.113.1:40000;1 0 emit source 203.0.113.1:40000;
says out.journal slnf journal 1;1 0 0 0 read F absent;2 0 1 0 read F absent;3 0 0 0 put P C done 3;
  4 0 1 0 put P D found C 3;5 0 0 0 put F T done 5;6 0 1 0 read F found T 5;
says - packets 2 emitted 2 dropped 0 lost 0 left 0 entries 6;
start
nat shards=1 40000 40000 [[epoch]];instances = [{ lane = 0 }, { lane = 1 }];schedule = [0, 1, 0, 1, 1, 0];
in 2 1 h 1
ends 0
holds out.0.pcap h5
holds out.1.pcap h
says out.verdicts slnf verdicts 1;0 0 emit source 203.0.113.1:40000;1 0 drop 6;
says out.journal slnf journal 1;1 0 0 0 read F absent;2 0 1 0 read F absent;3 0 0 0 put P C done 3;
  4 0 1 0 put P D found C 3;5 0 1 0 read F absent;6 0 0 0 put F T done 6;
says - packets 2 emitted 1 dropped 1 lost 0 left 0 entries 6;

# What comes in to a port that isn't confirmed yet.
start
nat shards=1 40000 40003 [[epoch]];instances = [{ lane = 0 }, { lane = 1 }];schedule = [0, 0, 1, 1, 0];
in 1 1 h 1
in 1 1 h 3
ends 0
holds out.0.pcap h2
holds out.1.pcap h
says out.verdicts slnf verdicts 1;0 0 emit source 203.0.113.1:40001;1 0 drop 7;
says out.journal slnf journal 1;1 0 0 0 read F absent;2 0 0 0 put Q C done 2;3 0 1 0 read Q found C 2;
  4 0 1 0 read F absent;5 0 0 0 put F U done 5;
says - packets 2 emitted 1 dropped 1 lost 0 left 0 entries 5;

# TCP and UDP have one pair at once, each a flow of its own.
start
nat shards=1 40000 40003 [[epoch]];instances = [{ lane = 0 }, { lane = 1 }, { lane = 2 }];
  schedule = [0, 1, 0, 1, 0, 1, 2, 2, 2, 2];
in 1 1 h 1
in 1 1 h i
in 1 1 h 3k
ends 0
holds out.0.pcap h2
holds out.1.pcap hj
holds out.2.pcap h4l
says out.verdicts slnf verdicts 1;0 0 emit source 203.0.113.1:40001;1 0 emit source 203.0.113.1:40001;
  2 0 emit dest 10.0.0.5:5000;2 1 emit dest 10.0.0.5:5000;
says out.journal slnf journal 1;1 0 0 0 read F absent;2 0 1 0 read I absent;3 0 0 0 put Q C done 3;
  4 0 1 0 put Y D done 4;5 0 0 0 put F U done 5;6 0 1 0 put I U done 6;7 0 2 0 read Q found C 3;
  8 0 2 0 read F found U 5;9 0 2 1 read Y found D 4;10 0 2 1 read I found U 6;
says - packets 4 emitted 4 dropped 0 lost 0 left 0 entries 10;

# A pool of 64,512 ports: behind its last port comes its first one.
start
nat shards=1 1024 65535 [[epoch]];instances = [{ lane = 0 }];
in 1 1 h mom
ends 0
holds out.0.pcap hnpn
says out.verdicts slnf verdicts 1;0 0 emit source 203.0.113.1:65535;0 1 emit source 203.0.113.1:1024;
  0 2 emit source 203.0.113.1:65535;
says out.journal slnf journal 1;1 0 0 0 read 010600000000000000000a0000055bfa absent;
  2 0 0 0 put 02060000000000000000cb007101ffff 000000000000000000000a0000055bfa done 2;
  3 0 0 0 put 010600000000000000000a0000055bfa 00000000000000000000cb007101ffff done 3;
  4 0 0 1 read 010600000000000000000a0000065bf9 absent;5 0 0 1 put 02060000000000000000cb007101ffff
   000000000000000000000a0000065bf9 found 000000000000000000000a0000055bfa 2;
  6 0 0 1 put 02060000000000000000cb0071010400 000000000000000000000a0000065bf9 done 6;
  7 0 0 1 put 010600000000000000000a0000065bf9 00000000000000000000cb0071010400 done 7;
  8 0 0 2 read 010600000000000000000a0000055bfa found 00000000000000000000cb007101ffff 3;
says - packets 3 emitted 3 dropped 0 lost 0 left 0 entries 8;
"#;

/// 16,384 flows of one inside network: each takes its first candidate at once, with three accesses.
pub const FLOWS: &str = r#"
start
nat shards=8;batch=32 1024 65535 [[epoch]];instances = [{ lane = 0 }];
flows
ends 0
flowed out.verdicts
says - packets 16384 emitted 16384 dropped 0 lost 0 left 0 entries 49152;
"#;
