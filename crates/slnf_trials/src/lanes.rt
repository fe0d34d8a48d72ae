//! Packets by letters, lanes by texts of letters, and plans.
ghost use Rattle.std.specs.Prelude.{◌≡◌, ◌+◌, ◌*◌, ◌≤◌, length, IfOk, IsTrue};
ghost use Rattle.std.specs.List.{list_all};
ghost use Rattle.slnf_flight.specs.Lanes.{packet_count};
ghost use Rattle.slnf_flight.specs.Ranges.{is_taken};

use slnf_base::{Packet, Pair, Proto, Reason, Row};
use slnf_flight::{Lane, Taken};
use slnf_plan::{Plan, read_plan};
use std::alloc::{AllocError, Global};
use std::test::Fail;

const CLIENT: Pair = Pair {
    addr: 0xc000_0201,
    port: 4000,
};

const OTHER_CLIENT: Pair = Pair {
    addr: 0xc000_0201,
    port: 4001,
};

const FRONT: Pair = Pair {
    addr: 0xc633_640a,
    port: 53,
};

const BACKEND: Pair = Pair {
    addr: 0x0a01_0001,
    port: 53,
};

const OTHER_BACKEND: Pair = Pair {
    addr: 0x0a01_0002,
    port: 53,
};

const INSIDE: Pair = Pair {
    addr: 0x0a00_0005,
    port: 5000,
};

const OTHER_INSIDE: Pair = Pair {
    addr: 0x0a00_0006,
    port: 5000,
};

const THIRD_INSIDE: Pair = Pair {
    addr: 0x0a00_0007,
    port: 5000,
};

const OUTSIDE: Pair = Pair {
    addr: 0xcb00_7101,
    port: 40001,
};

const SERVER: Pair = Pair {
    addr: 0xc633_6407,
    port: 80,
};

/// The packet of a letter. Another letter's has a reason against it.
pub(crate) fn packet(letter: char) -> Taken
    ensures { IsTrue (is_taken result) }
{
    match letter {
        'a' => udp(CLIENT, FRONT),
        'b' => udp(OTHER_CLIENT, FRONT),
        'c' => udp(BACKEND, CLIENT),
        'd' => udp(OTHER_BACKEND, CLIENT),
        's' => tcp(INSIDE, SERVER, 0x02),
        't' => tcp(OTHER_INSIDE, SERVER, 0x02),
        'u' => tcp(THIRD_INSIDE, SERVER, 0x02),
        'r' => tcp(SERVER, OUTSIDE, 0x12),
        'A' => tcp(INSIDE, SERVER, 0x10),
        'E' => tcp(INSIDE, SERVER, 0x11),
        'R' => tcp(SERVER, INSIDE, 0x12),
        'G' => tcp(SERVER, INSIDE, 0x11),
        'H' => tcp(SERVER, INSIDE, 0x10),
        _ => Taken::Bad(Reason::Fragment),
    }
}

fn udp(source: Pair, dest: Pair) -> Taken
    ensures { IsTrue (is_taken result) }
{
    Taken::Seen(Packet {
        proto: Proto::Udp,
        source,
        dest,
        flags: 0,
    })
}

fn tcp(source: Pair, dest: Pair, flags: u8) -> Taken
    ensures { IsTrue (is_taken result) }
{
    Taken::Seen(Packet {
        proto: Proto::Tcp,
        source,
        dest,
        flags,
    })
}

/// A lane of the packets of these letters, of the first 1,024.
fn lane_of(alloc: Global, text: &str) -> Result<Lane, AllocError>
    ensures { IfOk result (λ lane. length lane.packets ≤ 1024) }
{
    let mut packets = Vec::new(alloc);
    for letter in text.chars() {
        if packets.len() < 1024 {
            packets.push(packet(letter))?;
        }
    }
    Ok(Lane {
        packets: Row::from_vec(packets),
    })
}

/// The lanes of a text, of its first 32.
pub(crate) fn lanes_of(alloc: Global, text: &str) -> Result<Vec<Lane>, AllocError>
    ensures lanes { IfOk result (λ lanes. length lanes.items ≤ 32) }
    ensures packets { IfOk result (λ lanes. packet_count lanes.items ≤ 1048576) }
{
    let mut lanes = Vec::new(alloc);
    for piece in text.split('|') {
        if lanes.len() < 32 {
            lanes.push(lane_of(alloc, piece)?)?;
        }
    }
    Ok(lanes)
}

pub(crate) fn plan_of(alloc: Global, plan: &str, epochs: &str) -> Result<Plan, Fail> {
    let text = format!(in alloc; "{plan}{epochs}")?;
    Ok(read_plan(alloc, text.as_bytes()).map_err(|_| "it is a plan")?)
}
