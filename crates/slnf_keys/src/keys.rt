ghost use Rattle.std.specs.Prelude.{◌≡◌, IfSome};

use crate::layout;
use crate::layout::Kind;
use slnf_base::{Pair, Proto};

/// The key of a flow's record: its protocol and its pair on the inside.
#[derive(Clone, Copy, Debug, PartialEq, Eq)]
pub struct FlowKey {
    pub proto: Proto,
    pub inside: Pair,
}

/// The key of the claim of an outside pair.
#[derive(Clone, Copy, Debug, PartialEq, Eq)]
pub struct PortKey {
    pub proto: Proto,
    pub outside: Pair,
}

/// The key of a connection, by its pairs on the inside and on the outside.
#[derive(Clone, Copy, Debug, PartialEq, Eq)]
pub struct ConnKey {
    pub proto: Proto,
    pub inside: Pair,
    pub outside: Pair,
}

/// The key of a client's pin to a backend.
#[derive(Clone, Copy, Debug, PartialEq, Eq)]
pub struct PinKey {
    pub proto: Proto,
    pub client: Pair,
}

#[tactic(auto, unfolding(crate::specs::Keys::flow_key_number, crate::specs::Keys::flow_key_of))]
impl FlowKey {
    ghost use Rattle.slnf_keys.specs.Keys.{flow_key_number, flow_key_of, IsFlowKey};
    ghost use Rattle.slnf_keys.specs.declared.keys.FlowKey.{FlowKey};

    /// The number: tag 1, the protocol and the pair on the inside.
    pub fn to_number(&self) -> u128
        ensures { result ≡ flow_key_number self.now }
    {
        layout::single_to_number(Kind::Flow, self.proto, self.inside)
    }

    /// The key with this number, and `None` where the number is none of a flow's key.
    pub fn from_number(number: u128) -> Option<FlowKey>
        ensures value { result ≡ flow_key_of number }
        ensures gives { IfSome result (λ key. flow_key_number key ≡ number) }
        ensures finds { (key : FlowKey) → IsFlowKey key → flow_key_number key ≡ number → result ≡ Some key }
    {
        layout::single_from_number(Kind::Flow, number).map(|parts| FlowKey {
            proto: parts.proto,
            inside: parts.first,
        })
    }
}

#[tactic(auto, unfolding(crate::specs::Keys::port_key_number, crate::specs::Keys::port_key_of))]
impl PortKey {
    ghost use Rattle.slnf_keys.specs.Keys.{port_key_number, port_key_of, IsPortKey};
    ghost use Rattle.slnf_keys.specs.declared.keys.PortKey.{PortKey};

    /// The number: tag 2, the protocol and the pair on the outside.
    pub fn to_number(&self) -> u128
        ensures { result ≡ port_key_number self.now }
    {
        layout::single_to_number(Kind::Port, self.proto, self.outside)
    }

    /// The key with this number, and `None` where the number is none of an outside pair's key.
    pub fn from_number(number: u128) -> Option<PortKey>
        ensures value { result ≡ port_key_of number }
        ensures gives { IfSome result (λ key. port_key_number key ≡ number) }
        ensures finds { (key : PortKey) → IsPortKey key → port_key_number key ≡ number → result ≡ Some key }
    {
        layout::single_from_number(Kind::Port, number).map(|parts| PortKey {
            proto: parts.proto,
            outside: parts.first,
        })
    }
}

#[tactic(auto, unfolding(crate::specs::Keys::conn_key_number, crate::specs::Keys::conn_key_of))]
impl ConnKey {
    ghost use Rattle.slnf_keys.specs.Keys.{conn_key_number, conn_key_of, IsConnKey};
    ghost use Rattle.slnf_keys.specs.declared.keys.ConnKey.{ConnKey};

    /// The number: tag 3, the protocol, the pair on the inside first and the one on the outside second.
    pub fn to_number(&self) -> u128
        ensures { result ≡ conn_key_number self.now }
    {
        layout::key_to_number(Kind::Conn, self.proto, self.inside, self.outside)
    }

    /// The key with this number, and `None` where the number is none of a connection's key.
    pub fn from_number(number: u128) -> Option<ConnKey>
        ensures value { result ≡ conn_key_of number }
        ensures gives { IfSome result (λ key. conn_key_number key ≡ number) }
        ensures finds { (key : ConnKey) → IsConnKey key → conn_key_number key ≡ number → result ≡ Some key }
    {
        layout::key_from_number(Kind::Conn, number).map(|parts| ConnKey {
            proto: parts.proto,
            inside: parts.first,
            outside: parts.second,
        })
    }
}

#[tactic(auto, unfolding(crate::specs::Keys::pin_key_number, crate::specs::Keys::pin_key_of))]
impl PinKey {
    ghost use Rattle.slnf_keys.specs.Keys.{pin_key_number, pin_key_of, IsPinKey};
    ghost use Rattle.slnf_keys.specs.declared.keys.PinKey.{PinKey};

    /// The number: tag 4, the protocol and the client's pair.
    pub fn to_number(&self) -> u128
        ensures { result ≡ pin_key_number self.now }
    {
        layout::single_to_number(Kind::Pin, self.proto, self.client)
    }

    /// The key with this number, and `None` where the number is none of a client's key.
    pub fn from_number(number: u128) -> Option<PinKey>
        ensures value { result ≡ pin_key_of number }
        ensures gives { IfSome result (λ key. pin_key_number key ≡ number) }
        ensures finds { (key : PinKey) → IsPinKey key → pin_key_number key ≡ number → result ≡ Some key }
    {
        layout::single_from_number(Kind::Pin, number).map(|parts| PinKey {
            proto: parts.proto,
            client: parts.first,
        })
    }
}
