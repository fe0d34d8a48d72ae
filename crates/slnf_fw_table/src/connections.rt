ghost use Rattle.std.specs.Prelude.{◌≡◌, ◌≤◌, IfSome};
ghost use Rattle.slnf_fw_table.specs.Kinds.{kind_of_flags};
ghost use Rattle.slnf_fw_table.specs.Transitions.{moves_of, move_of};
ghost use Rattle.slnf_fw_table.specs.declared.connections.State.TheVariants.{SynSent, SynAcked, Opened, FinByOpener, FinByOther, BothFin, Closed, Live};

const FIN: u8 = 1;

const SYN: u8 = 2;

const RST: u8 = 4;

const ACK: u8 = 16;

/// What a connection has come to, by the flags that both sides sent. `Live` is a UDP exchange.
#[derive(Clone, Copy, Debug, PartialEq, Eq)]
pub enum State {
    SynSent,
    SynAcked,
    Opened,
    FinByOpener,
    FinByOther,
    BothFin,
    Closed,
    Live,
}

impl State {
    ghost use Rattle.slnf_fw_table.specs.declared.connections.State.{State};
    ghost use Rattle.slnf_fw_table.specs.States.{state_number, state_with};

    /// The state's number: 1 to 8, in the order of the variants.
    pub fn number(&self) -> u8
        ensures value { result ≡ state_number self.now }
        ensures from_one { 1 ≤ result }
        ensures to_eight { result ≤ 8 }
    {
        match self {
            State::SynSent => 1,
            State::SynAcked => 2,
            State::Opened => 3,
            State::FinByOpener => 4,
            State::FinByOther => 5,
            State::BothFin => 6,
            State::Closed => 7,
            State::Live => 8,
        }
    }

    /// The state with this number, and `None` where it is none of 1 to 8.
    pub fn from_number(number: u8) -> Option<State>
        ensures value { result ≡ state_with number }
        ensures gives { IfSome result (λ state. state_number state ≡ number) }
        ensures finds { (state : State) → state_number state ≡ number → result ≡ Some state }
    {
        match number {
            1 => Some(State::SynSent),
            2 => Some(State::SynAcked),
            3 => Some(State::Opened),
            4 => Some(State::FinByOpener),
            5 => Some(State::FinByOther),
            6 => Some(State::BothFin),
            7 => Some(State::Closed),
            8 => Some(State::Live),
            _ => None,
        }
    }
}

/// The side of a connection that a packet comes from: the one that opened it, or the other one.
#[derive(Clone, Copy, Debug, PartialEq, Eq)]
pub enum Side {
    Opener,
    Other,
}

/// What a packet says of its connection. `Datagram` is any UDP packet, and the others are TCP segments.
#[derive(Clone, Copy, Debug, PartialEq, Eq)]
pub enum Kind {
    Syn,
    SynAck,
    Fin,
    Rst,
    Ack,
    Bare,
    Datagram,
}

/// What a packet does to its connection: it passes and nothing changes, it passes and the state is another
/// one, it opens the connection anew where the rules permit that, or it is dropped.
#[derive(Clone, Copy, Debug, PartialEq, Eq)]
pub enum Move {
    Stay,
    To(State),
    Reopen,
    Deny,
}

/// What a TCP segment's flags (byte 13 of its header, RFC 793) say. A UDP packet's kind is `Datagram`.
pub fn kind_of(flags: u8) -> Kind
    ensures { result ≡ kind_of_flags flags }
{
    if flags & RST != 0 {
        Kind::Rst
    } else if flags & SYN != 0 && flags & ACK == 0 {
        Kind::Syn
    } else if flags & SYN != 0 {
        Kind::SynAck
    } else if flags & FIN != 0 {
        Kind::Fin
    } else if flags & ACK != 0 {
        Kind::Ack
    } else {
        Kind::Bare
    }
}

/// What a packet does to its connection, by the table of transitions.
pub fn transition(state: State, side: Side, kind: Kind) -> Move
    ensures { result ≡ move_of state side kind }
{
    let (opener, other) = match state {
        State::SynSent => from_syn_sent(kind),
        State::SynAcked => from_syn_acked(kind),
        State::Opened => from_opened(kind),
        State::FinByOpener => from_fin_by_opener(kind),
        State::FinByOther => from_fin_by_other(kind),
        State::BothFin => from_both_fin(kind),
        State::Closed => from_closed(kind),
        State::Live => from_live(kind),
    };
    match side {
        Side::Opener => opener,
        Side::Other => other,
    }
}

// The same from both sides.
fn both(step: Move) -> (Move, Move)
    ensures { result ≡ (step, step) }
{
    (step, step)
}

// What a kind of packet does from the opener, and from the other side: a function for each state.
fn from_syn_sent(kind: Kind) -> (Move, Move)
    ensures { result ≡ moves_of SynSent kind }
{
    match kind {
        Kind::Syn => (Move::Stay, Move::Deny),
        Kind::SynAck => (Move::Deny, Move::To(State::SynAcked)),
        Kind::Rst => both(Move::To(State::Closed)),
        Kind::Fin | Kind::Ack | Kind::Bare | Kind::Datagram => both(Move::Deny),
    }
}

fn from_syn_acked(kind: Kind) -> (Move, Move)
    ensures { result ≡ moves_of SynAcked kind }
{
    match kind {
        Kind::Syn => (Move::Stay, Move::Deny),
        Kind::SynAck => (Move::Deny, Move::Stay),
        Kind::Fin => (Move::To(State::FinByOpener), Move::To(State::FinByOther)),
        Kind::Rst => both(Move::To(State::Closed)),
        Kind::Ack => (Move::To(State::Opened), Move::Stay),
        Kind::Bare | Kind::Datagram => both(Move::Deny),
    }
}

fn from_opened(kind: Kind) -> (Move, Move)
    ensures { result ≡ moves_of Opened kind }
{
    match kind {
        Kind::Syn => (Move::Stay, Move::Deny),
        Kind::SynAck => (Move::Deny, Move::Stay),
        Kind::Fin => (Move::To(State::FinByOpener), Move::To(State::FinByOther)),
        Kind::Rst => both(Move::To(State::Closed)),
        Kind::Ack => both(Move::Stay),
        Kind::Bare | Kind::Datagram => both(Move::Deny),
    }
}

fn from_fin_by_opener(kind: Kind) -> (Move, Move)
    ensures { result ≡ moves_of FinByOpener kind }
{
    match kind {
        Kind::Fin => (Move::Stay, Move::To(State::BothFin)),
        Kind::Rst => both(Move::To(State::Closed)),
        Kind::Ack => both(Move::Stay),
        Kind::Syn | Kind::SynAck | Kind::Bare | Kind::Datagram => both(Move::Deny),
    }
}

fn from_fin_by_other(kind: Kind) -> (Move, Move)
    ensures { result ≡ moves_of FinByOther kind }
{
    match kind {
        Kind::Fin => (Move::To(State::BothFin), Move::Stay),
        Kind::Rst => both(Move::To(State::Closed)),
        Kind::Ack => both(Move::Stay),
        Kind::Syn | Kind::SynAck | Kind::Bare | Kind::Datagram => both(Move::Deny),
    }
}

fn from_both_fin(kind: Kind) -> (Move, Move)
    ensures { result ≡ moves_of BothFin kind }
{
    match kind {
        Kind::Fin => both(Move::Stay),
        Kind::Rst | Kind::Ack => both(Move::To(State::Closed)),
        Kind::Syn | Kind::SynAck | Kind::Bare | Kind::Datagram => both(Move::Deny),
    }
}

// Late segments pass, as the waiting state after a close must let them.
fn from_closed(kind: Kind) -> (Move, Move)
    ensures { result ≡ moves_of Closed kind }
{
    match kind {
        Kind::Syn => both(Move::Reopen),
        Kind::Fin | Kind::Rst | Kind::Ack => both(Move::Stay),
        Kind::SynAck | Kind::Bare | Kind::Datagram => both(Move::Deny),
    }
}

fn from_live(kind: Kind) -> (Move, Move)
    ensures { result ≡ moves_of Live kind }
{
    match kind {
        Kind::Datagram => both(Move::Stay),
        Kind::Syn | Kind::SynAck | Kind::Fin | Kind::Rst | Kind::Ack | Kind::Bare => both(
            Move::Deny,
        ),
    }
}

#[cfg(test)]
mod tests {
    use super::*;

    #[test]
    fn flags_name_a_kind(rt: HostRuntime) {
        assert_eq!(rt; kind_of(0x02), Kind::Syn);
        assert_eq!(rt; kind_of(0x12), Kind::SynAck);
        assert_eq!(rt; kind_of(0x11), Kind::Fin);
        assert_eq!(rt; kind_of(0x18), Kind::Ack);
        assert_eq!(rt; kind_of(0x14), Kind::Rst);
        assert_eq!(rt; kind_of(0x28), Kind::Bare);
    }

    // Figure 6 of RFC 793: a connection opens and both sides close it.
    #[test]
    fn a_connection_opens_and_closes(rt: HostRuntime) {
        let steps = [
            (Side::Other, Kind::SynAck, State::SynAcked),
            (Side::Opener, Kind::Ack, State::Opened),
            (Side::Other, Kind::Fin, State::FinByOther),
            (Side::Opener, Kind::Fin, State::BothFin),
            (Side::Other, Kind::Ack, State::Closed),
        ];
        let mut state = State::SynSent;
        for (side, kind, next) in steps {
            assert_eq!(rt; transition(state, side, kind), Move::To(next));
            state = next;
        }
        assert_eq!(rt; transition(state, Side::Other, Kind::Syn), Move::Reopen);
    }
}
