ghost use Rattle.std.specs.Prelude.{◌≡◌, ◌≤◌, IfSome};
ghost use Rattle.slnf_keys.specs.Flag.{flag_of};

use crate::layout;
use slnf_base::Pair;

/// A flow's record: the pair that it has on the outside.
#[derive(Clone, Copy, Debug, PartialEq, Eq)]
pub struct FlowTo {
    pub outside: Pair,
}

/// Who claimed an outside pair, and for which pair on the inside.
#[derive(Clone, Copy, Debug, PartialEq, Eq)]
pub struct Claim {
    pub incarnation: u32,
    pub inside: Pair,
}

/// A connection: whether it was opened from the outside, and its state, 1 to 8.
#[derive(Clone, Copy, Debug, PartialEq, Eq)]
pub struct Conn {
    pub by_outside: bool,
    pub state: u8,
    pub ghost from_one: { 1 ≤ state },
    pub ghost to_eight: { state ≤ 8 },
}

/// A client's pin: its backend.
#[derive(Clone, Copy, Debug, PartialEq, Eq)]
pub struct Pin {
    pub backend: Pair,
}

/// The truth value with this number.
fn flag(number: u128) -> Option<bool>
    ensures { result ≡ flag_of number }
{
    match number {
        0 => Some(false),
        1 => Some(true),
        _ => None,
    }
}

#[tactic(auto, unfolding(crate::specs::Values::flow_to_number, crate::specs::Values::flow_to_of))]
impl FlowTo {
    ghost use Rattle.slnf_keys.specs.Values.{flow_to_number, flow_to_of, IsFlowTo};
    ghost use Rattle.slnf_keys.specs.declared.values.FlowTo.{FlowTo};

    /// The number, below 2^48: the outside pair.
    pub fn to_number(&self) -> u128
        ensures { result ≡ flow_to_number self.now }
    {
        layout::pair_to_number(self.outside)
    }

    /// The record with this number, and `None` from 2^48 on.
    pub fn from_number(number: u128) -> Option<FlowTo>
        ensures value { result ≡ flow_to_of number }
        ensures gives { IfSome result (λ value. flow_to_number value ≡ number) }
        ensures finds { (value : FlowTo) → IsFlowTo value → flow_to_number value ≡ number → result ≡ Some value }
    {
        layout::whole_pair(number).map(|outside| FlowTo { outside })
    }
}

#[tactic(auto, unfolding(crate::specs::Values::claim_number, crate::specs::Values::claim_of))]
impl Claim {
    ghost use Rattle.slnf_keys.specs.Values.{claim_number, claim_of, IsClaim};
    ghost use Rattle.slnf_keys.specs.declared.values.Claim.{Claim};

    /// The number, below 2^80: the incarnation, and the inside pair in the 48 bits below it.
    pub fn to_number(&self) -> u128
        ensures { result ≡ claim_number self.now }
    {
        (u128::from(self.incarnation) << 48) + layout::pair_to_number(self.inside)
    }

    /// The claim with this number, and `None` from 2^80 on.
    pub fn from_number(number: u128) -> Option<Claim>
        ensures value { result ≡ claim_of number }
        ensures gives { IfSome result (λ value. claim_number value ≡ number) }
        ensures finds { (value : Claim) → IsClaim value → claim_number value ≡ number → result ≡ Some value }
    {
        u32::try_from(number >> 48).ok().map(|incarnation| Claim {
            incarnation,
            inside: layout::pair_from_number(number),
        })
    }
}

#[tactic(auto, unfolding(crate::specs::Values::conn_number, crate::specs::Values::conn_of))]
impl Conn {
    ghost use Rattle.slnf_keys.specs.Values.{conn_number, conn_with, conn_of};
    ghost use Rattle.slnf_keys.specs.declared.values.Conn.{Conn};

    /// The number: 1 where the opener is on the outside and 0 otherwise, and the state in the 8 bits below it.
    pub fn to_number(&self) -> u128
        ensures { result ≡ conn_number self.now }
    {
        (u128::from(self.by_outside) << 8) + u128::from(self.state)
    }

    /// The connection with this opener and this state, and `None` where the state is none of 1 to 8.
    fn with_state(by_outside: bool, state: u128) -> Option<Conn>
        ensures { result ≡ conn_with by_outside state }
    {
        match u8::try_from(state) {
            Ok(state @ 1..=8) => Some(Conn { by_outside, state }),
            _ => None,
        }
    }

    /// The connection with this number, and `None` where no state or no opener stands.
    pub fn from_number(number: u128) -> Option<Conn>
        ensures value { result ≡ conn_of number }
        ensures gives { IfSome result (λ value. conn_number value ≡ number) }
        ensures finds { (value : Conn) → conn_number value ≡ number → result ≡ Some value }
    {
        flag(number >> 8).and_then(|by_outside| Conn::with_state(by_outside, number % (1 << 8)))
    }
}

#[tactic(auto, unfolding(crate::specs::Values::pin_number, crate::specs::Values::pin_of))]
impl Pin {
    ghost use Rattle.slnf_keys.specs.Values.{pin_number, pin_of, IsPin};
    ghost use Rattle.slnf_keys.specs.declared.values.Pin.{Pin};

    /// The number, below 2^48: the backend.
    pub fn to_number(&self) -> u128
        ensures { result ≡ pin_number self.now }
    {
        layout::pair_to_number(self.backend)
    }

    /// The pin with this number, and `None` from 2^48 on.
    pub fn from_number(number: u128) -> Option<Pin>
        ensures value { result ≡ pin_of number }
        ensures gives { IfSome result (λ value. pin_number value ≡ number) }
        ensures finds { (value : Pin) → IsPin value → pin_number value ≡ number → result ≡ Some value }
    {
        layout::whole_pair(number).map(|backend| Pin { backend })
    }
}
