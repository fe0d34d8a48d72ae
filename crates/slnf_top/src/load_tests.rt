//! Runs of loads. Each line is one of `cases`.
use crate::tests::wrong_in;
use std::test::Fail as Failed;

/// One lane and 32, numbers that differ in one, the greatest number, words of no form, and faults.
const LOADS: &str = r#"
start
words 0 load 7 1 1
says - packets 1 emitted 1 dropped 0 lost 0 left 0 entries 3;
words 0 load 7 1 1000
says - packets 1000 emitted 1000 dropped 0 lost 0 left 0 entries 2930;
words 0 load 8 1 1000
says - packets 1000 emitted 1000 dropped 0 lost 0 left 0 entries 2944;
words 0 load 7 32 100
says - packets 3200 emitted 3200 dropped 0 lost 0 left 0 entries 9015;
words 0 load 0 1 1
says - packets 1 emitted 1 dropped 0 lost 0 left 0 entries 3;
words 0 load 18446744073709551615 2 3
says - packets 6 emitted 6 dropped 0 lost 0 left 0 entries 18;

# Words of no form.
start
words 2 load
words 2 load 7 1
words 2 load 7 1 1 1
words 2 load 7 1 0
words 2 load 7 1 32769
words 2 load 7 0 1
words 2 load 7 33 1
words 2 load 18446744073709551616 1 1
words 2 load 07 1 1
words 2 load 7 01 1
words 2 load 7 1 00
words 2 load +7 1 1
words 2 load -7 1 1
words 2 load 7 1 1;
words 2 load 7a 1 1
words 2 loads 7 1 1
was Usage
none -

# Faults of standard output.
start begin 1
words 6 load 7 1 1
was WriteFault
none -
start append 1
words 6 load 7 1 1
was WriteFault
says -
"#;

/// Lanes that race for flows, at two numbers that differ in one.
const RACES: &str = r#"
start
words 0 load 7 8 10000
says - packets 80000 emitted 80000 dropped 0 lost 0 left 0 entries 112586;
words 0 load 8 8 10000
says - packets 80000 emitted 80000 dropped 0 lost 0 left 0 entries 112714;
"#;

/// As many packets as a run may have.
const LARGEST: &str = r#"
start
words 0 load 1 32 32768
says - packets 1048576 emitted 1048576 dropped 0 lost 0 left 0 entries 1110340;
"#;

#[test]
fn loads(rt: HostRuntime) -> Result<(), Failed> {
    assert_eq!(rt; wrong_in(&rt, LOADS)?, None);
    Ok(())
}

#[test]
fn races(rt: HostRuntime) -> Result<(), Failed> {
    assert_eq!(rt; wrong_in(&rt, RACES)?, None);
    Ok(())
}

#[test]
fn largest(rt: HostRuntime) -> Result<(), Failed> {
    assert_eq!(rt; wrong_in(&rt, LARGEST)?, None);
    Ok(())
}
