ghost use Rattle.std.specs.Prelude.{◌≡◌, ◌+◌, ◌-◌, ◌<◌, ◌≤◌, ◌^◌, IsTrue};
ghost use Rattle.slnf_box.specs.Pools.{candidate, port_count, has_pair, is_outbound, is_inbound};

use slnf_base::{Packet, Pair, Pool};

/// How many pairs the pool has.
pub fn port_count(pool: &Pool) -> u32
    ensures count { result ≡ port_count pool.now }
    ensures some { 0 < result }
    ensures few { result ≤ 2 ^ 16 }
{
    u32::from(pool.high - pool.low) + 1
}

/// The candidate at this place of a flow with this inside pair. Those at the places below `port_count` are the
/// pool's pairs, each once.
pub fn candidate(pool: &Pool, inside: Pair, place: u32) -> Pair
    ensures { result ≡ candidate pool.now inside place }
{
    let count = u64::from(port_count(pool));
    let first = (u64::from(inside.addr) + u64::from(inside.port)) % count;
    let offset = (first + u64::from(place)) % count;
    Pair {
        addr: pool.outside,
        port: pool.low + offset as u16,
    }
}

/// Whether the packet goes out.
pub fn is_outbound(pool: &Pool, packet: &Packet) -> bool
    ensures { result ≡ is_outbound pool.now packet.now }
{
    pool.inside.contains(packet.source.addr)
        && !pool.inside.contains(packet.dest.addr)
        && packet.dest.addr != pool.outside
}

/// Whether the packet comes in.
pub fn is_inbound(pool: &Pool, packet: &Packet) -> bool
    ensures { result ≡ is_inbound pool.now packet.now }
{
    packet.dest.addr == pool.outside && !pool.inside.contains(packet.source.addr)
}

/// Whether the pair is one of the pool's.
pub(crate) fn has_pair(pool: &Pool, pair: Pair) -> bool
    ensures { result ≡ has_pair pool.now pair }
{
    pair.addr == pool.outside && pool.low <= pair.port && pair.port <= pool.high
}
