ghost use Rattle.std.specs.Prelude.{◌≡◌};

use crate::addresses::Pair;

/// What a capture's records begin with: link types 1 and 101.
#[derive(Clone, Copy, Debug, PartialEq, Eq)]
pub enum Link {
    Ethernet,
    Raw,
}

/// A transport protocol.
#[derive(Clone, Copy, Debug, PartialEq, Eq, PartialOrd, Ord)]
pub enum Proto {
    Tcp,
    Udp,
}

impl Proto {
    ghost use Rattle.slnf_base.specs.Numbers.{proto_number, proto_with};

    /// The protocol's number in the IPv4 header (RFC 791): 6 for TCP and 17 for UDP.
    pub fn number(&self) -> u8
        ensures { result ≡ proto_number self.now }
    {
        match self {
            Proto::Tcp => 6,
            Proto::Udp => 17,
        }
    }

    /// The protocol with this number, and `None` where it is neither's.
    pub fn from_number(number: u8) -> Option<Proto>
        ensures { result ≡ proto_with number }
    {
        match number {
            6 => Some(Proto::Tcp),
            17 => Some(Proto::Udp),
            _ => None,
        }
    }
}

/// What the functions see of a datagram. `flags` is byte 13 of the TCP header (RFC 793), and 0 for UDP.
#[derive(Clone, Copy, Debug, PartialEq, Eq)]
pub struct Packet {
    pub proto: Proto,
    pub source: Pair,
    pub dest: Pair,
    pub flags: u8,
}

/// What becomes of an emitted frame: nothing, or one side's address and port are set.
#[derive(Clone, Copy, Debug, PartialEq, Eq)]
pub enum Change {
    Keep,
    Source(Pair),
    Dest(Pair),
}

/// Why a packet was dropped.
#[derive(Clone, Copy, Debug, PartialEq, Eq)]
pub enum Reason {
    NotIpv4,
    Fragment,
    Short,
    Protocol,
    Neither,
    NoPort,
    NoFlow,
    DeniedRule,
    DeniedState,
    NoConn,
    NotPinned,
}

impl Reason {
    ghost use Rattle.slnf_base.specs.Numbers.{reason_number};

    /// The reason's number: 1 to 11, in the order of the variants.
    pub fn number(&self) -> u8
        ensures { result ≡ reason_number self.now }
    {
        match self {
            Reason::NotIpv4 => 1,
            Reason::Fragment => 2,
            Reason::Short => 3,
            Reason::Protocol => 4,
            Reason::Neither => 5,
            Reason::NoPort => 6,
            Reason::NoFlow => 7,
            Reason::DeniedRule => 8,
            Reason::DeniedState => 9,
            Reason::NoConn => 10,
            Reason::NotPinned => 11,
        }
    }
}

/// How a packet ended. A packet under way when its instance stopped is `Lost`, and one that no instance
/// took is `Left`.
#[derive(Clone, Copy, Debug, PartialEq, Eq)]
pub enum Verdict {
    Emit(Change),
    Dropped(Reason),
    Lost,
    Left,
}
