//! What is refused by a rule.

/// What a run left, changed once.
pub const CHANGED: &str = r#"
# Files that are refused by each rule: by its number, and by the least place.
start
balancer 1 udp 1 [[epoch]];instances = [{ lane = 0 }, { lane = 1 }];schedule = [0, 1, 0, 1];
in 2 1 h P
ends 0
says out.journal slnf journal 1;1 0 0 0 read K absent;2 0 1 0 read K absent;3 0 0 0 put K A done 3;4 0 1 0 put K B found A 3;
swap out.journal found A 3%found B 3
breaks check 3 Entry(4)
breaks box 3 Entry(4)
ends 0
swap out.journal 4 0 1 0 put K B%4 0 1 0 put K A
breaks check 4 Entry(4)
breaks box 4 Entry(4)
ends 0
swap out.journal 4 0 1 0 put K B found A 3;%
breaks check 5 Incarnation(1)
breaks box 5 Incarnation(1)
ends 0
swap out.journal slnf journal 1%slnf journal 9
breaks check 1 Line(1)
breaks box 1 Line(1)
ends 0
cut out.journal
breaks check 1 Line(5)
breaks box 1 Line(5)
ends 0
swap out.journal 2 0 1 0 read%1 0 1 0 read
breaks check 2 Entry(2)
breaks box 2 Entry(2)
ends 0
swap out.journal 1 0 0 0 read%1 1 0 0 read
breaks check 2 Entry(1)
breaks box 2 Entry(1)
ends 0
swap out.journal done 3%done 4
breaks check 3 Entry(3)
breaks box 3 Entry(3)
ends 0
swap out.journal 1 0 0 0 read%1 0 2 0 read
breaks check 4 Entry(1)
breaks box 4 Entry(1)
ends 0
swap out.journal 4 0 1 0 put%4 0 1 1 put
breaks check 4 Entry(4)
breaks box 4 Entry(4)
ends 0
swap out.journal found A 3;%found A 3;5 0 1 0 read K found A 3;
breaks check 4 Entry(5)
breaks box 4 Entry(5)
ends 0
swap out.verdicts 1 0 emit dest 10.1.0.1:53%1 0 lost
breaks check 6 Line(3)
runs box 0
says - 3 0 0 emit dest 10.1.0.1:53;4 1 0 emit dest 10.1.0.1:53;
ends 0
cut out.1.pcap
breaks check 7 OutputByte(1, 67)
runs box 0
says - 3 0 0 emit dest 10.1.0.1:53;4 1 0 emit dest 10.1.0.1:53;
none out

# An empty journal of a plan whose actors haven't ended, verdicts that end early or late, and outputs of other packets.
ends 0
put out.journal slnf journal 1;
breaks check 5 Incarnation(0)
ends 0
cut out.verdicts
breaks check 6 Line(3)
ends 0
swap out.verdicts 1 0 emit dest 10.1.0.1:53;%1 0 emit dest 10.1.0.1:53;2
breaks check 6 Line(4)
ends 0
put out.verdicts
breaks check 6 Line(1)
ends 0
swap out.verdicts slnf verdicts 1%slnf verdicts 2
breaks check 6 Line(1)
ends 0
put out.0.pcap
breaks check 7 OutputByte(0, 0)

# A rule over the whole comes before a later one at an earlier place.
ends 0
swap out.journal 1 0 0 0 read%1 0 2 0 read
swap out.journal found A 3%found B 3
breaks check 3 Entry(4)
swap out.journal 4 0 1 0 put%3 0 1 0 put
breaks check 2 Entry(4)
swap out.journal 3 0 1 0 put%3 0 1 0 pot
breaks check 1 Line(5)
put out.verdicts
put out.1.pcap
breaks check 1 Line(5)
ends 0
put out.verdicts
put out.0.pcap
breaks check 6 Line(1)

# A refused command leaves all files as they were.
ends 0
put - 1
put out.0.pcap
breaks check 7 OutputByte(0, 0)
put out.journal
breaks box 1 Line(1)
says - 1
says out.journal
says out.verdicts slnf verdicts 1;0 0 emit dest 10.1.0.1:53;1 0 emit dest 10.1.0.1:53;
"#;

/// Texts that are no journal.
pub const NO_JOURNALS: &str = r#"
# The first line.
start
balancer 1 udp 1 [[epoch]];instances = [{ lane = 0 }];
in 1 0 h P
ends 0
unread Line(1)
unread Line(1) slnf journal 1
unread Line(1) slnf journal 2;
unread Line(1) ;slnf journal 1;
unread Line(1) slnf journal 1 ;

# A line without a line feed, whatever its fields are.
unread Line(2) slnf journal 1;1 0 0 0 read K absent
unread Line(2) slnf journal 1;x

# Each field of a line, and one that is missing or too many.
unread Line(2) slnf journal 1;;
unread Line(2) slnf journal 1;0 0 0 0 read K absent;
unread Line(2) slnf journal 1;01 0 0 0 read K absent;
unread Line(2) slnf journal 1;4611686018427387904 0 0 0 read K absent;
unread Line(2) slnf journal 1;x 0 0 0 read K absent;
unread Line(2) slnf journal 1;1 64 0 0 read K absent;
unread Line(2) slnf journal 1;1 0 4294967296 0 read K absent;
unread Line(2) slnf journal 1;1 0 0 4294967296 read K absent;
unread Line(2) slnf journal 1;1 0 0 0 look K absent;
unread Line(2) slnf journal 1;1 0 0 0 reads K absent;
unread Line(2) slnf journal 1;1 0 0 0 read 04110000000000000000c00002010fa absent;
unread Line(2) slnf journal 1;1 0 0 0 read 04110000000000000000c00002010fa00 absent;
unread Line(2) slnf journal 1;1 0 0 0 read 04110000000000000000c00002010fg0 absent;
unread Line(2) slnf journal 1;1 0 0 0 read 4110000000000000000c00002010fa0 absent;
unread Line(2) slnf journal 1;1 0 0 0 read K;
unread Line(2) slnf journal 1;1 0 0 0 read K absent 1;
unread Line(2) slnf journal 1;1 0 0 0 read K absent ;
unread Line(2) slnf journal 1;1  0 0 0 read K absent;
unread Line(2) slnf journal 1; 1 0 0 0 read K absent;
unread Line(2) slnf journal 1;1 0 0 0 put K absent;
unread Line(2) slnf journal 1;1 0 0 0 put K A done 0;
unread Line(2) slnf journal 1;1 0 0 0 put K A done;
unread Line(2) slnf journal 1;1 0 0 0 put K A found A;
unread Line(2) slnf journal 1;1 0 0 0 replace K 0 A absent;
unread Line(2) slnf journal 1;1 0 0 0 replace K A 1 absent;
unread Line(2) slnf journal 1;1 0 0 0 delete K absent;
unread Line(2) slnf journal 1;1 0 0 0;

# The first of several lines that are no entries, and a line of each form that is one.
unread Line(6) slnf journal 1;1 0 0 0 read K absent;2 0 0 0 put K A done 2;3 0 0 0 replace K 2 B done 3;
  4 0 0 0 delete K 3 found B 3;x;y;
put out.journal slnf journal 1;1 0 0 0 read K absent;2 0 0 0 put K A done 2;3 0 0 0 replace K 2 B done 3;
  4 0 0 0 delete K 3 found B 3;
breaks check 3 Entry(4)
"#;
