//! Balancers, and how instances end.

/// Forward, back, two instances, two shards, and the backends that are active.
pub const BALANCERS: &str = r#"
# The usual case, and a capture without packets.
start
balancer 1 udp 1 [[epoch]];instances = [{ lane = 0 }];
in 1 2 h P
ends 0
holds out.0.pcap haa
says out.verdicts slnf verdicts 1;0 0 emit dest 10.1.0.1:53;0 1 emit dest 10.1.0.1:53;
says out.journal slnf journal 1;1 0 0 0 read K absent;2 0 0 0 put K A done 2;3 0 0 1 read K found A 2;
says - packets 2 emitted 2 dropped 0 lost 0 left 0 entries 3;
start
balancer 1 udp 1 [[epoch]];instances = [{ lane = 0 }];
in 1 0 h P
ends 0
holds out.0.pcap h
says out.verdicts slnf verdicts 1;
says out.journal slnf journal 1;
says - packets 0 emitted 0 dropped 0 lost 0 left 0 entries 0;

# What comes back from the client's backend, and from the other one.
start
balancer 1 udp 1 [[epoch]];instances = [{ lane = 0 }];
in 1 1 h PPrv
ends 0
holds out.0.pcap haau
says out.verdicts slnf verdicts 1;0 0 emit dest 10.1.0.1:53;0 1 emit dest 10.1.0.1:53;
  0 2 emit source 198.51.100.10:53;0 3 drop 11;
says out.journal slnf journal 1;1 0 0 0 read K absent;2 0 0 0 put K A done 2;3 0 0 1 read K found A 2;
  4 0 0 2 read K found A 2;5 0 0 3 read K found A 2;
says - packets 4 emitted 3 dropped 1 lost 0 left 0 entries 5;

# What comes back to a client that isn't pinned.
start
balancer 1 udp 1 [[epoch]];instances = [{ lane = 0 }];
in 1 1 h r
ends 0
holds out.0.pcap h
says out.verdicts slnf verdicts 1;0 0 drop 11;
says out.journal slnf journal 1;1 0 0 0 read K absent;

# Two instances, one flow.
start
balancer 1 udp 1 [[epoch]];instances = [{ lane = 0 }, { lane = 1 }];schedule = [0, 1, 0, 1];
in 2 1 h P
ends 0
holds out.0.pcap ha
holds out.1.pcap ha
says out.verdicts slnf verdicts 1;0 0 emit dest 10.1.0.1:53;1 0 emit dest 10.1.0.1:53;
says out.journal slnf journal 1;1 0 0 0 read K absent;2 0 1 0 read K absent;3 0 0 0 put K A done 3;4 0 1 0 put K B found A 3;
says - packets 2 emitted 2 dropped 0 lost 0 left 0 entries 4;

# Two shards: each has stamps of its own.
start
balancer 2 udp 1 [[epoch]];instances = [{ lane = 0 }, { lane = 1 }];schedule = [0, 1, 0, 1];
in 1 1 h P
in 1 1 h Q
ends 0
holds out.0.pcap ha
holds out.1.pcap hd
says out.verdicts slnf verdicts 1;0 0 emit dest 10.1.0.1:53;1 0 emit dest 10.1.0.2:53;
says out.journal slnf journal 1;1 0 0 0 read K absent;1 1 1 0 read L absent;2 0 0 0 put K A done 2;2 1 1 0 put L B done 2;
says - packets 2 emitted 2 dropped 0 lost 0 left 0 entries 4;

# The backends that are active choose for new clients alone.
start
balancer 1 udp 1 [[epoch]];instances = [{ lane = 0, quota = 1 }];active = [1];[[epoch]];instances = [{ lane = 0 }];active = [0];
in 1 1 h PPQ
ends 0
holds out.0.pcap hbbc
says out.verdicts slnf verdicts 1;0 0 emit dest 10.1.0.2:53;0 1 emit dest 10.1.0.2:53;0 2 emit dest 10.1.0.1:53;
says out.journal slnf journal 1;1 0 0 0 read K absent;2 0 0 0 put K B done 2;3 0 1 1 read K found B 2;
  4 0 1 2 read L absent;5 0 1 2 put L A done 5;
says - packets 3 emitted 3 dropped 0 lost 0 left 0 entries 5;

# A service over TCP has no datagrams.
start
balancer 1 tcp 1 [[epoch]];instances = [{ lane = 0 }];
in 1 1 h TP
ends 0
holds out.0.pcap ht
says out.verdicts slnf verdicts 1;0 0 emit dest 10.1.0.1:53;0 1 drop 5;
says out.journal slnf journal 1;1 0 0 0 read J absent;2 0 0 0 put J A done 2;
says - packets 2 emitted 1 dropped 1 lost 0 left 0 entries 2;
"#;

/// Instances that drain, that stop, and that take nothing.
pub const ENDINGS: &str = r#"
# One drains, the other takes over, and a packet is left.
start
balancer 1 udp 1 [[epoch]];instances = [{ lane = 0, quota = 3 }];[[epoch]];instances = [{ lane = 0, quota = 1 }];
in 1 5 h P
ends 1
holds out.0.pcap haaaa
says out.verdicts slnf verdicts 1;0 0 emit dest 10.1.0.1:53;0 1 emit dest 10.1.0.1:53;0 2 emit dest 10.1.0.1:53;
  0 3 emit dest 10.1.0.1:53;0 4 left;
says out.journal slnf journal 1;1 0 0 0 read K absent;2 0 0 0 put K A done 2;3 0 0 1 read K found A 2;
  4 0 0 2 read K found A 2;5 0 1 3 read K found A 2;
says - packets 5 emitted 4 dropped 0 lost 0 left 1 entries 5;

# A stop before the record, and one behind it.
start
balancer 1 udp 1 [[epoch]];instances = [{ lane = 0, stop = 1 }];
in 1 1 h P
ends 0
holds out.0.pcap h
says out.verdicts slnf verdicts 1;0 0 lost;
says out.journal slnf journal 1;1 0 0 0 read K absent;
says - packets 1 emitted 0 dropped 0 lost 1 left 0 entries 1;
start
balancer 1 udp 1 [[epoch]];instances = [{ lane = 0, stop = 2 }];[[epoch]];instances = [{ lane = 0 }];
in 1 2 h P
ends 0
holds out.0.pcap ha
says out.verdicts slnf verdicts 1;0 0 lost;0 1 emit dest 10.1.0.1:53;
says out.journal slnf journal 1;1 0 0 0 read K absent;2 0 0 0 put K A done 2;3 0 1 1 read K found A 2;
says - packets 2 emitted 1 dropped 0 lost 1 left 0 entries 3;

# A stop of 0 and a quota of 0 take nothing.
start
balancer 1 udp 1 [[epoch]];instances = [{ lane = 0, stop = 0 }];
in 1 1 h P
ends 1
says out.verdicts slnf verdicts 1;0 0 left;
says - packets 1 emitted 0 dropped 0 lost 0 left 1 entries 0;
start
balancer 1 udp 1 [[epoch]];instances = [{ lane = 0, quota = 0 }];
in 1 1 h P
ends 1
says out.verdicts slnf verdicts 1;0 0 left;
says - packets 1 emitted 0 dropped 0 lost 0 left 1 entries 0;

# An epoch without instances, a schedule that names an actor that has ended, and a lane without a capture.
start
balancer 1 udp 1 [[epoch]];instances = [];[[epoch]];instances = [{ lane = 0 }, { lane = 5 }];schedule = [0, 0, 0, 0];
in 1 1 h P
ends 0
says out.verdicts slnf verdicts 1;0 0 emit dest 10.1.0.1:53;
says out.journal slnf journal 1;1 0 0 0 read K absent;2 0 0 0 put K A done 2;
says - packets 1 emitted 1 dropped 0 lost 0 left 0 entries 2;
"#;
