ghost use Rattle.std.specs.Prelude.{◌≤◌};
ghost use Rattle.slnf_base.specs.Prefix.{IsOutside};

use crate::addresses::{Pair, Prefix};
use crate::packets::Proto;
use crate::rows::Row;

/// A NAT's inside prefix and its outside pairs: one address with the ports `low` to `high` (RFC 3022).
#[derive(Clone, Copy, Debug, PartialEq, Eq)]
pub struct Pool {
    pub inside: Prefix,
    pub outside: u32,
    pub low: u16,
    pub high: u16,
    pub ghost in_order: { low ≤ high },
    pub ghost registered: { 1024 ≤ low },
    pub ghost apart: { IsOutside inside outside },
}

/// A balancer's protocol, the pair that clients send to, and the backends behind it.
#[derive(Debug, Drop)]
pub struct Service {
    pub proto: Proto,
    pub front: Pair,
    pub backends: Row<Pair>,
}
