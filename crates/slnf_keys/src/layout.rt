ghost use Rattle.std.specs.Prelude.{◌≡◌, ◌<◌, ◌^◌};
ghost use Rattle.slnf_keys.specs.Layout.{kind_tag, pair_number, pair_at, pair_of, key_number, parts_of, single_number, single_of};

use slnf_base::{Pair, Proto};

/// The kinds of keys.
#[derive(Clone, Copy)]
pub enum Kind {
    Flow,
    Port,
    Conn,
    Pin,
}

/// What the number of a key holds beside its kind. A key with one pair has zeros in the second.
#[derive(Clone, Copy)]
pub struct Parts {
    pub proto: Proto,
    pub first: Pair,
    pub second: Pair,
}

/// The pair of zeros.
const ZEROS: Pair = Pair { addr: 0, port: 0 };

/// The highest 8 bits of a key's number.
fn tag(kind: Kind) -> u8
    ensures { result ≡ kind_tag kind }
{
    match kind {
        Kind::Flow => 0x01,
        Kind::Port => 0x02,
        Kind::Conn => 0x03,
        Kind::Pin => 0x04,
    }
}

/// The number of a pair, below 2^48: the address and 16 bits of the port below it.
#[tactic(auto, unfolding(crate::specs::Layout::pair_number))]
pub fn pair_to_number(pair: Pair) -> u128
    ensures number { result ≡ pair_number pair }
    ensures below { result < 2 ^ 48 }
{
    (u128::from(pair.addr) << 16) + u128::from(pair.port)
}

/// The pair in a number's lowest 48 bits.
#[tactic(auto, unfolding(crate::specs::Layout::pair_at))]
pub fn pair_from_number(number: u128) -> Pair
    ensures { result ≡ pair_at number }
{
    Pair {
        addr: ((number >> 16) % (1 << 32)) as u32,
        port: (number % (1 << 16)) as u16,
    }
}

/// The pair with this number, and `None` from 2^48 on.
#[tactic(auto, unfolding(crate::specs::Layout::pair_of))]
pub fn whole_pair(number: u128) -> Option<Pair>
    ensures { result ≡ pair_of number }
{
    (number < 1 << 48).then_some(pair_from_number(number))
}

/// The number of a key with two pairs. From the highest bits on: 8 of the tag, 8 of the protocol's number,
/// 16 zeros, 48 of the second pair and 48 of the first.
#[tactic(auto, unfolding(crate::specs::Layout::key_number))]
pub fn key_to_number(kind: Kind, proto: Proto, first: Pair, second: Pair) -> u128
    ensures { result ≡ key_number kind proto first second }
{
    (u128::from(tag(kind)) << 120)
        + (u128::from(proto.number()) << 112)
        + (pair_to_number(second) << 48)
        + pair_to_number(first)
}

/// The parts of a number of this kind, and `None` where another tag, another protocol or something else than
/// the zeros stands.
#[tactic(auto, unfolding(crate::specs::Layout::parts_of))]
pub fn key_from_number(kind: Kind, number: u128) -> Option<Parts>
    ensures { result ≡ parts_of kind number }
{
    if number >> 120 != u128::from(tag(kind)) || (number >> 96) % (1 << 16) != 0 {
        return None;
    }
    let proto = Proto::from_number(((number >> 112) % (1 << 8)) as u8)?;
    Some(Parts {
        proto,
        first: pair_from_number(number),
        second: pair_from_number(number >> 48),
    })
}

/// The number of a key with one pair: zeros stand in the second.
#[tactic(auto, unfolding(crate::specs::Layout::single_number))]
pub fn single_to_number(kind: Kind, proto: Proto, pair: Pair) -> u128
    ensures { result ≡ single_number kind proto pair }
{
    key_to_number(kind, proto, pair, ZEROS)
}

/// The parts of a number of this kind with zeros in the second pair.
#[tactic(auto, unfolding(crate::specs::Layout::single_of))]
pub fn single_from_number(kind: Kind, number: u128) -> Option<Parts>
    ensures { result ≡ single_of kind number }
{
    if (number >> 48) % (1 << 48) != 0 {
        return None;
    }
    key_from_number(kind, number)
}
