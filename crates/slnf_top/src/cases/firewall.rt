//! What passes a firewall.

/// A firewall's runs.
pub const FIREWALLS: &str = r#"
# A whole connection at three instances.
start
firewall [[epoch]];instances = [{ lane = 0 }, { lane = 1 }, { lane = 2 }];schedule = [0, 0, 1, 1, 0, 0, 2, 2, 1, 1, 2, 2];
in 1 1 h 1A
in 1 1 h BC
in 1 1 h EA
ends 0
holds out.0.pcap h1A
holds out.1.pcap hBC
holds out.2.pcap hEA
says out.verdicts slnf verdicts 1;0 0 emit keep;0 1 emit keep;1 0 emit keep;1 1 emit keep;2 0 emit keep;2 1 emit keep;
says out.journal slnf journal 1;1 0 0 0 read N absent;2 0 0 0 put N $01 done 2;3 0 1 0 read N found $01 2;
  4 0 1 0 replace N 2 $02 done 4;5 0 0 1 read N found $02 4;6 0 0 1 replace N 4 $03 done 6;7 0 2 0 read N found $03 6;
  8 0 2 0 replace N 6 $04 done 8;9 0 1 1 read N found $04 8;10 0 1 1 replace N 8 $06 done 10;
  11 0 2 1 read N found $06 10;12 0 2 1 replace N 10 $07 done 12;
says - packets 6 emitted 6 dropped 0 lost 0 left 0 entries 12;

# Two replaces at once: the second one fails, and is made anew.
start
firewall [[epoch]];instances = [{ lane = 0 }, { lane = 1 }];schedule = [0, 0, 1, 1, 0, 0, 0, 1, 0, 1, 1];
in 1 1 h 1AE
in 1 1 h BC
ends 0
holds out.0.pcap h1AE
holds out.1.pcap hBC
says out.verdicts slnf verdicts 1;0 0 emit keep;0 1 emit keep;0 2 emit keep;1 0 emit keep;1 1 emit keep;
says out.journal slnf journal 1;1 0 0 0 read N absent;2 0 0 0 put N $01 done 2;3 0 1 0 read N found $01 2;
  4 0 1 0 replace N 2 $02 done 4;5 0 0 1 read N found $02 4;6 0 0 1 replace N 4 $03 done 6;7 0 0 2 read N found $03 6;
  8 0 1 1 read N found $03 6;9 0 0 2 replace N 6 $04 done 9;10 0 1 1 replace N 6 $05 found $04 9;
  11 0 1 1 replace N 9 $06 done 11;
says - packets 5 emitted 5 dropped 0 lost 0 left 0 entries 11;

# An ACK alone from outside has no connection, and a datagram between two addresses outside has no direction.
start
firewall [[epoch]];instances = [{ lane = 0 }];
in 1 1 h GP
ends 0
holds out.0.pcap h
says out.verdicts slnf verdicts 1;0 0 drop 10;0 1 drop 5;
says out.journal slnf journal 1;1 0 0 0 read N absent;
says - packets 2 emitted 0 dropped 2 lost 0 left 0 entries 1;

# An ACK from outside to a SYN alone is denied by the state.
start
firewall [[epoch]];instances = [{ lane = 0 }];
in 1 1 h 1G
ends 0
holds out.0.pcap h1
says out.verdicts slnf verdicts 1;0 0 emit keep;0 1 drop 9;
says out.journal slnf journal 1;1 0 0 0 read N absent;2 0 0 0 put N $01 done 2;3 0 0 1 read N found $01 2;
says - packets 2 emitted 1 dropped 1 lost 0 left 0 entries 3;

# A connection that is acked, and four instances at once: the opener's ACK and its FIN+ACK, the server's FIN+ACK and its
# RST. Each of them that fails goes on from what it finds.
start
firewall [[epoch]];instances = [{ lane = 0 }];[[epoch]];instances = [{ lane = 1 }, { lane = 2 }, { lane = 3 }, { lane = 4 }];
in 1 1 h 1B
in 1 1 h A
in 1 1 h E
in 1 1 h C
in 1 1 h R
ends 0
holds out.0.pcap h1B
holds out.1.pcap hA
holds out.2.pcap hE
holds out.3.pcap hC
holds out.4.pcap hR
says out.verdicts slnf verdicts 1;0 0 emit keep;0 1 emit keep;1 0 emit keep;2 0 emit keep;3 0 emit keep;4 0 emit keep;
says out.journal slnf journal 1;1 0 0 0 read N absent;2 0 0 0 put N $01 done 2;3 0 0 1 read N found $01 2;
  4 0 0 1 replace N 2 $02 done 4;5 0 1 0 read N found $02 4;6 0 2 0 read N found $02 4;7 0 3 0 read N found $02 4;
  8 0 4 0 read N found $02 4;9 0 1 0 replace N 4 $03 done 9;10 0 2 0 replace N 4 $04 found $03 9;
  11 0 3 0 replace N 4 $05 found $03 9;12 0 4 0 replace N 4 $07 found $03 9;13 0 2 0 replace N 9 $04 done 13;
  14 0 3 0 replace N 9 $05 found $04 13;15 0 4 0 replace N 9 $07 found $04 13;16 0 3 0 replace N 13 $06 done 16;
  17 0 4 0 replace N 13 $07 found $06 16;18 0 4 0 replace N 16 $07 done 18;
says - packets 6 emitted 6 dropped 0 lost 0 left 0 entries 18;

# 32 instances with an RST each: all of them read, one replaces, and the others find the connection closed.
start
firewall [[epoch]];instances = [{ lane = 0, quota = 1 }];[[epoch]];instances = [@];
in 1 1 h 1R
in 31 1 h R
ends 0
holds out.0.pcap h1R
holds out.1.pcap hR
holds out.31.pcap hR
says - packets 33 emitted 33 dropped 0 lost 0 left 0 entries 66;

# Datagrams both ways, opened from inside, and opened from outside where a rule permits that.
start
in 1 1 h ili
rules 1 % { action = "permit", direction = "out" }
ends 0
holds out.0.pcap hili
says out.verdicts slnf verdicts 1;0 0 emit keep;0 1 emit keep;0 2 emit keep;
says out.journal slnf journal 1;1 0 0 0 read M absent;2 0 0 0 put M $08 done 2;3 0 0 1 read M found $08 2;
  4 0 0 2 read M found $08 2;
says - packets 3 emitted 3 dropped 0 lost 0 left 0 entries 4;
start
in 1 1 h li
rules 1 % { action = "permit", direction = "in" }
ends 0
holds out.0.pcap hli
says out.verdicts slnf verdicts 1;0 0 emit keep;0 1 emit keep;
says out.journal slnf journal 1;1 0 0 0 read M absent;2 0 0 0 put M &0108 done 2;3 0 0 1 read M found &0108 2;
rules 1 % { action = "permit", direction = "out" }
ends 0
holds out.0.pcap hi
says out.verdicts slnf verdicts 1;0 0 drop 8;0 1 emit keep;
says out.journal slnf journal 1;1 0 0 0 read M absent;2 0 0 1 read M absent;3 0 0 1 put M $08 done 3;
says - packets 2 emitted 1 dropped 1 lost 0 left 0 entries 3;

# An RST of either side closes a connection, and late segments pass.
start
in 1 1 h 1KRA
rules 1 % { action = "permit", direction = "out", proto = "tcp" }
ends 0
holds out.0.pcap h1KRA
says out.verdicts slnf verdicts 1;0 0 emit keep;0 1 emit keep;0 2 emit keep;0 3 emit keep;
says out.journal slnf journal 1;1 0 0 0 read N absent;2 0 0 0 put N $01 done 2;3 0 0 1 read N found $01 2;
  4 0 0 1 replace N 2 $07 done 4;5 0 0 2 read N found $07 4;6 0 0 3 read N found $07 4;
start
in 1 1 h 1RKG
rules 1 % { action = "permit", direction = "out", proto = "tcp" }
ends 0
holds out.0.pcap h1RKG
says out.verdicts slnf verdicts 1;0 0 emit keep;0 1 emit keep;0 2 emit keep;0 3 emit keep;
says out.journal slnf journal 1;1 0 0 0 read N absent;2 0 0 0 put N $01 done 2;3 0 0 1 read N found $01 2;
  4 0 0 1 replace N 2 $07 done 4;5 0 0 2 read N found $07 4;6 0 0 3 read N found $07 4;

# A closed connection opens anew: by its opener's SYN, or by the other side's where a rule permits that.
start
in 1 1 h 1K1
rules 1 % { action = "permit", direction = "out", proto = "tcp" }
ends 0
says out.verdicts slnf verdicts 1;0 0 emit keep;0 1 emit keep;0 2 emit keep;
says out.journal slnf journal 1;1 0 0 0 read N absent;2 0 0 0 put N $01 done 2;3 0 0 1 read N found $01 2;
  4 0 0 1 replace N 2 $07 done 4;5 0 0 2 read N found $07 4;6 0 0 2 replace N 4 $01 done 6;
start
in 1 1 h 1KS
rules 1 { action = "permit", direction = "out", proto = "tcp" }, % { action = "permit", direction = "in", proto = "tcp" }
ends 0
holds out.0.pcap h1KS
says out.verdicts slnf verdicts 1;0 0 emit keep;0 1 emit keep;0 2 emit keep;
says out.journal slnf journal 1;1 0 0 0 read N absent;2 0 0 0 put N $01 done 2;3 0 0 1 read N found $01 2;
  4 0 0 1 replace N 2 $07 done 4;5 0 0 2 read N found $07 4;6 0 0 2 replace N 4 &0101 done 6;
rules 1 % { action = "permit", direction = "out", proto = "tcp" }
ends 0
holds out.0.pcap h1K
says out.verdicts slnf verdicts 1;0 0 emit keep;0 1 emit keep;0 2 drop 8;
says out.journal slnf journal 1;1 0 0 0 read N absent;2 0 0 0 put N $01 done 2;3 0 0 1 read N found $01 2;
  4 0 0 1 replace N 2 $07 done 4;5 0 0 2 read N found $07 4;
start
in 1 1 h SRS
rules 1 % { action = "permit", direction = "in", proto = "tcp" }
ends 0
holds out.0.pcap hSRS
says out.verdicts slnf verdicts 1;0 0 emit keep;0 1 emit keep;0 2 emit keep;
says out.journal slnf journal 1;1 0 0 0 read N absent;2 0 0 0 put N &0101 done 2;3 0 0 1 read N found &0101 2;
  4 0 0 1 replace N 2 &0107 done 4;5 0 0 2 read N found &0107 4;6 0 0 2 replace N 4 &0101 done 6;
start
in 1 1 h SR1
rules 1 { action = "permit", direction = "in", proto = "tcp" }, % { action = "permit", direction = "out", proto = "tcp" }
ends 0
holds out.0.pcap hSR1
says out.verdicts slnf verdicts 1;0 0 emit keep;0 1 emit keep;0 2 emit keep;
says out.journal slnf journal 1;1 0 0 0 read N absent;2 0 0 0 put N &0101 done 2;3 0 0 1 read N found &0101 2;
  4 0 0 1 replace N 2 &0107 done 4;5 0 0 2 read N found &0107 4;6 0 0 2 replace N 4 $01 done 6;
rules 1 % { action = "permit", direction = "in", proto = "tcp" }
ends 0
holds out.0.pcap hSR
says out.verdicts slnf verdicts 1;0 0 emit keep;0 1 emit keep;0 2 drop 8;
says out.journal slnf journal 1;1 0 0 0 read N absent;2 0 0 0 put N &0101 done 2;3 0 0 1 read N found &0101 2;
  4 0 0 1 replace N 2 &0107 done 4;5 0 0 2 read N found &0107 4;
"#;

/// Rules: the SYN of 10.0.0.5:5000 to 198.51.100.7:80, and then that of 198.51.100.7:80 to 10.0.0.5:5000.
pub const RULES: &str = r#"
# Each field of a rule decides.
start
in 1 1 h 1
rules 1 % { action = "permit", direction = "out", proto = "tcp", source = "10.0.0.4/31", dest = "198.51.100.0/24",
   ports = [80, 80] }
ends 0
says out.verdicts slnf verdicts 1;0 0 emit keep;
rules 1 % { action = "deny", direction = "out", proto = "tcp", source = "10.0.0.4/31", dest = "198.51.100.0/24", ports
   = [80, 80] }
ends 0
says out.verdicts slnf verdicts 1;0 0 drop 8;
rules 1 % { action = "permit", direction = "in", proto = "tcp", source = "10.0.0.4/31", dest = "198.51.100.0/24",
   ports = [80, 80] }
ends 0
says out.verdicts slnf verdicts 1;0 0 drop 8;
rules 1 % { action = "permit", direction = "out", proto = "udp", source = "10.0.0.4/31", dest = "198.51.100.0/24",
   ports = [80, 80] }
ends 0
says out.verdicts slnf verdicts 1;0 0 drop 8;
rules 1 % { action = "permit", direction = "out", proto = "tcp", source = "10.0.0.6/31", dest = "198.51.100.0/24",
   ports = [80, 80] }
ends 0
says out.verdicts slnf verdicts 1;0 0 drop 8;
rules 1 % { action = "permit", direction = "out", proto = "tcp", source = "10.0.0.4/31", dest = "198.51.101.0/24",
   ports = [80, 80] }
ends 0
says out.verdicts slnf verdicts 1;0 0 drop 8;
rules 1 % { action = "permit", direction = "out", proto = "tcp", source = "10.0.0.4/31", dest = "198.51.100.0/24",
   ports = [0, 79] }
ends 0
says out.verdicts slnf verdicts 1;0 0 drop 8;
rules 1 % { action = "permit", direction = "out", proto = "tcp", source = "10.0.0.4/31", dest = "198.51.100.0/24",
   ports = [81, 65535] }
ends 0
says out.verdicts slnf verdicts 1;0 0 drop 8;

# Other prefixes and ranges that the packet is in, at their ends, and a rule with nothing but what it has to have.
rules 1 % { action = "permit", direction = "out", proto = "any", source = "10.0.0.4/31", dest = "198.51.100.0/24",
   ports = [80, 80] }
ends 0
says out.verdicts slnf verdicts 1;0 0 emit keep;
rules 1 % { action = "permit", direction = "out", proto = "tcp", source = "10.0.0.5/32", dest = "198.51.100.0/24",
   ports = [80, 80] }
ends 0
says out.verdicts slnf verdicts 1;0 0 emit keep;
rules 1 % { action = "permit", direction = "out", proto = "tcp", source = "0.0.0.0/0", dest = "198.51.100.0/24", ports
   = [80, 80] }
ends 0
says out.verdicts slnf verdicts 1;0 0 emit keep;
rules 1 % { action = "permit", direction = "out", proto = "tcp", source = "10.0.0.4/31", dest = "198.51.100.7/32",
   ports = [80, 80] }
ends 0
says out.verdicts slnf verdicts 1;0 0 emit keep;
rules 1 % { action = "permit", direction = "out", proto = "tcp", source = "10.0.0.4/31", dest = "198.51.100.0/24",
   ports = [0, 80] }
ends 0
says out.verdicts slnf verdicts 1;0 0 emit keep;
rules 1 % { action = "permit", direction = "out", proto = "tcp", source = "10.0.0.4/31", dest = "198.51.100.0/24",
   ports = [80, 65535] }
ends 0
says out.verdicts slnf verdicts 1;0 0 emit keep;
rules 1 % { action = "permit", direction = "out" }
ends 0
says out.verdicts slnf verdicts 1;0 0 emit keep;
rules 1 % { action = "permit", direction = "in" }
ends 0
says out.verdicts slnf verdicts 1;0 0 drop 8;

# No rule permits nothing, and the first one that matches decides.
rules 0 %
ends 0
says out.verdicts slnf verdicts 1;0 0 drop 8;
rules 1 { action = "deny", direction = "out" }, % { action = "permit", direction = "out" }
ends 0
says out.verdicts slnf verdicts 1;0 0 drop 8;
rules 1 { action = "permit", direction = "out" }, % { action = "deny", direction = "out" }
ends 0
says out.verdicts slnf verdicts 1;0 0 emit keep;

# What comes in is matched by its own source, destination and destination port.
start
in 1 1 h S
rules 1 % { action = "permit", direction = "in", proto = "tcp", source = "198.51.100.7/32", dest = "10.0.0.0/8", ports
   = [5000, 5000] }
ends 0
says out.verdicts slnf verdicts 1;0 0 emit keep;
rules 1 % { action = "permit", direction = "in", proto = "tcp", source = "198.51.100.7/32", dest = "10.0.0.0/8", ports
   = [80, 80] }
ends 0
says out.verdicts slnf verdicts 1;0 0 drop 8;
rules 1 % { action = "permit", direction = "in", proto = "tcp", source = "10.0.0.0/8", dest = "198.51.100.7/32", ports
   = [5000, 5000] }
ends 0
says out.verdicts slnf verdicts 1;0 0 drop 8;
rules 1 % { action = "permit", direction = "out", proto = "tcp", source = "198.51.100.7/32", dest = "10.0.0.0/8",
   ports = [5000, 5000] }
ends 0
says out.verdicts slnf verdicts 1;0 0 drop 8;

# Of 256 rules the last one decides, or none does, and 257 are refused.
start
in 1 1 h 1
rules 255 { action = "deny", direction = "out", ports = [81, 81] }, % { action = "permit", direction = "out" }
ends 0
says out.verdicts slnf verdicts 1;0 0 emit keep;
rules 256 { action = "deny", direction = "out", ports = [81, 81] }, %
ends 0
says out.verdicts slnf verdicts 1;0 0 drop 8;
rules 256 { action = "deny", direction = "out", ports = [81, 81] }, % { action = "permit", direction = "out" }
ends 3 slnf: plan error 7 at firewall.rules;
"#;
