ghost use Rattle.std.specs.Prelude.{◌≡◌, Some, None};
ghost use Rattle.slnf_box.specs.Packets.{crosses, from_outside, conn_of_packet, kind_of_packet, opening_of, may_open, side_of};
ghost use Rattle.slnf_box.specs.Choices.{opened, choice_of};

use crate::choices::{Choice, Tracked};
use slnf_base::{Packet, Prefix, Proto, Reason, Row};
use slnf_fw_table::{Kind, Move, Opening, Rule, Side, State, kind_of, permits, transition};
use slnf_keys::ConnKey;

/// What a firewall between the addresses of `inside` and all others goes by: a connection opens where the first rule that
/// matches permits it, and then its packets pass by the table of transitions.
#[derive(Debug, Drop)]
pub struct Policy {
    pub inside: Prefix,
    pub rules: Row<Rule>,
}

/// The packet's kind.
fn kind_of_packet(packet: &Packet) -> Kind
    ensures { result ≡ kind_of_packet packet.now }
{
    match packet.proto {
        Proto::Tcp => kind_of(packet.flags),
        Proto::Udp => Kind::Datagram,
    }
}

/// The packet's side of the connection, by whether the connection was opened and the packet comes from the outside.
fn side_of(by_outside: bool, from_outside: bool) -> Side
    ensures { result ≡ side_of by_outside from_outside }
{
    if by_outside == from_outside {
        Side::Opener
    } else {
        Side::Other
    }
}

impl Policy {
    /// Whether the packet comes from the outside.
    fn from_outside(&self, packet: &Packet) -> bool
        ensures { result ≡ from_outside self.now packet.now }
    {
        !self.inside.contains(packet.source.addr)
    }

    /// Whether one end of the packet is on the inside and the other isn't.
    pub fn crosses(&self, packet: &Packet) -> bool
        ensures { result ≡ crosses self.now packet.now }
    {
        self.inside.contains(packet.source.addr) != self.inside.contains(packet.dest.addr)
    }

    /// The packet's connection.
    pub fn conn_of_packet(&self, packet: &Packet) -> ConnKey
        ensures { result ≡ conn_of_packet self.now packet.now }
    {
        if self.from_outside(packet) {
            ConnKey {
                proto: packet.proto,
                inside: packet.dest,
                outside: packet.source,
            }
        } else {
            ConnKey {
                proto: packet.proto,
                inside: packet.source,
                outside: packet.dest,
            }
        }
    }

    /// What the rules see of the packet.
    fn opening_of(&self, packet: &Packet) -> Opening
        ensures { result ≡ opening_of self.now packet.now }
    {
        Opening {
            outbound: !self.from_outside(packet),
            proto: packet.proto.number(),
            source: packet.source.addr,
            dest: packet.dest.addr,
            dest_port: packet.dest.port,
        }
    }

    /// The packet opens its connection in this state where the rules permit it.
    fn opened(&self, packet: &Packet, state: State) -> Choice
        ensures { result ≡ opened (may_open self.now packet.now)
            (record { by_outside = from_outside self.now packet.now; state = state }) }
    {
        if permits(self.rules.as_slice(), &self.opening_of(packet)) {
            Choice::Writes(Tracked {
                by_outside: self.from_outside(packet),
                state,
            })
        } else {
            Choice::Refuses(Reason::DeniedRule)
        }
    }

    /// What the firewall makes of a packet of no connection.
    fn first_choice(&self, packet: &Packet) -> Choice
        ensures { result ≡ choice_of self.now packet.now None }
    {
        match kind_of_packet(packet) {
            Kind::Syn => self.opened(packet, State::SynSent),
            Kind::Datagram => self.opened(packet, State::Live),
            Kind::SynAck | Kind::Fin | Kind::Rst | Kind::Ack | Kind::Bare => {
                Choice::Refuses(Reason::NoConn)
            }
        }
    }

    /// What the firewall makes of a packet of this connection.
    fn later_choice(&self, packet: &Packet, tracked: Tracked) -> Choice
        ensures { result ≡ choice_of self.now packet.now (Some tracked) }
    {
        let side = side_of(tracked.by_outside, self.from_outside(packet));
        match transition(tracked.state, side, kind_of_packet(packet)) {
            Move::Stay => Choice::Passes,
            Move::To(state) => Choice::Writes(Tracked {
                by_outside: tracked.by_outside,
                state,
            }),
            Move::Reopen => self.opened(packet, State::SynSent),
            Move::Deny => Choice::Refuses(Reason::DeniedState),
        }
    }

    /// What the firewall makes of a packet, where this is kept of its connection.
    pub fn choice_of(&self, packet: &Packet, kept: Option<Tracked>) -> Choice
        ensures { result ≡ choice_of self.now packet.now kept }
    {
        match kept {
            None => self.first_choice(packet),
            Some(tracked) => self.later_choice(packet, tracked),
        }
    }
}
