//! Every cell of the firewall's table of transitions.
use slnf_fw_table::{Kind, Move, Side, State, transition};
use std::test::Fail;

/// A row for each state's number, with a word for each column: of a SYN, a SYN+ACK, a FIN, an RST, an ACK, a segment
/// without these flags, and a datagram, each from the opener and from the other side. The word is the number of the next
/// state, or what else becomes of the packet.
const TABLE: &str = "\
1 stay no no 2 no no 7 7 no no no no no no
2 stay no no stay 4 5 7 7 3 stay no no no no
3 stay no no stay 4 5 7 7 stay stay no no no no
4 no no no no stay 6 7 7 stay stay no no no no
5 no no no no 6 stay 7 7 stay stay no no no no
6 no no no no stay stay 7 7 7 7 no no no no
7 Reopen Reopen no no stay stay stay stay stay stay no no no no
8 no no no no no no no no no no no no stay stay
";

static KINDS: [Kind; 7] = [
    Kind::Syn,
    Kind::SynAck,
    Kind::Fin,
    Kind::Rst,
    Kind::Ack,
    Kind::Bare,
    Kind::Datagram,
];

/// The word of the table.
fn word(step: Move) -> &'static str {
    match step {
        Move::Stay => "stay",
        Move::Deny => "no",
        Move::Reopen => "Reopen",
        Move::To(state) => digit(state),
    }
}

fn digit(state: State) -> &'static str {
    match state {
        State::SynSent => "1",
        State::SynAcked => "2",
        State::Opened => "3",
        State::FinByOpener => "4",
        State::FinByOther => "5",
        State::BothFin => "6",
        State::Closed => "7",
        State::Live => "8",
    }
}

/// Whether a row of the table is what the packets do in its state, and has no other column.
fn is_row(row: &str) -> Result<bool, Fail> {
    let mut words = row.split(' ');
    let number: u8 = words.next().ok_or("no number")?.parse()?;
    let state = State::from_number(number).ok_or("no state")?;
    let mut holds = true;
    for kind in &KINDS {
        holds &= words.next() == Some(word(transition(state, Side::Opener, *kind)));
        holds &= words.next() == Some(word(transition(state, Side::Other, *kind)));
    }
    Ok(holds && words.next().is_none())
}

#[test]
fn every_cell(rt: HostRuntime) -> Result<(), Fail> {
    let mut rows = 0u32;
    for row in TABLE.lines() {
        assert!(rt; is_row(row)?, "{row}");
        rows = rows.saturating_add(1);
    }
    assert_eq!(rt; rows, 8);
    Ok(())
}
