ghost use Rattle.std.specs.Prelude.{◌≤◌};

use crate::{Claim, Conn, ConnKey, FlowKey, FlowTo, Pin, PinKey, PortKey};
use slnf_base::{Pair, Proto};
use std::process::Abort;

const CLIENT: Pair = Pair {
    addr: 0xc000_0201,
    port: 4000,
};

const INSIDE: Pair = Pair {
    addr: 0x0a00_0005,
    port: 5000,
};

const POOL: Pair = Pair {
    addr: 0xcb00_7101,
    port: 40000,
};

const SERVER: Pair = Pair {
    addr: 0xc633_6407,
    port: 80,
};

const BACKEND: Pair = Pair {
    addr: 0x0a01_0001,
    port: 53,
};

#[test]
fn keys_have_the_stated_numbers(rt: HostRuntime) {
    let pin = PinKey {
        proto: Proto::Udp,
        client: CLIENT,
    };
    let flow = FlowKey {
        proto: Proto::Tcp,
        inside: INSIDE,
    };
    let port = PortKey {
        proto: Proto::Tcp,
        outside: POOL,
    };
    let conn = ConnKey {
        proto: Proto::Tcp,
        inside: INSIDE,
        outside: SERVER,
    };
    assert_eq!(rt; pin.to_number(), 0x0411_0000_0000_0000_0000_c000_0201_0fa0);
    assert_eq!(rt; flow.to_number(), 0x0106_0000_0000_0000_0000_0a00_0005_1388);
    assert_eq!(rt; port.to_number(), 0x0206_0000_0000_0000_0000_cb00_7101_9c40);
    assert_eq!(rt; conn.to_number(), 0x0306_0000_c633_6407_0050_0a00_0005_1388);
    assert_eq!(rt;
        PinKey::from_number(0x0411_0000_0000_0000_0000_c000_0201_0fa0),
        Some(pin)
    );
    assert_eq!(rt;
        FlowKey::from_number(0x0106_0000_0000_0000_0000_0a00_0005_1388),
        Some(flow)
    );
    assert_eq!(rt;
        PortKey::from_number(0x0206_0000_0000_0000_0000_cb00_7101_9c40),
        Some(port)
    );
    assert_eq!(rt;
        ConnKey::from_number(0x0306_0000_c633_6407_0050_0a00_0005_1388),
        Some(conn)
    );
}

#[test]
fn values_have_the_stated_numbers(rt: HostRuntime) {
    let pin = Pin { backend: BACKEND };
    let to = FlowTo { outside: POOL };
    let claim = Claim {
        incarnation: 1,
        inside: INSIDE,
    };
    let opened = Conn {
        by_outside: false,
        state: 3,
    };
    let live = Conn {
        by_outside: true,
        state: 8,
    };
    assert_eq!(rt; pin.to_number(), 0x0000_0a01_0001_0035);
    assert_eq!(rt; to.to_number(), 0x0000_cb00_7101_9c40);
    assert_eq!(rt; claim.to_number(), 0x0001_0a00_0005_1388);
    assert_eq!(rt; opened.to_number(), 0x003);
    assert_eq!(rt; live.to_number(), 0x108);
    assert_eq!(rt; Pin::from_number(0x0000_0a01_0001_0035), Some(pin));
    assert_eq!(rt; FlowTo::from_number(0x0000_cb00_7101_9c40), Some(to));
    assert_eq!(rt; Claim::from_number(0x0001_0a00_0005_1388), Some(claim));
    assert_eq!(rt; Conn::from_number(0x003), Some(opened));
    assert_eq!(rt; Conn::from_number(0x108), Some(live));
}

/// The pairs at the ends of the ranges of an address and a port.
const LEAST: Pair = Pair { addr: 0, port: 0 };

const MOST: Pair = Pair {
    addr: 0xffff_ffff,
    port: 0xffff,
};

fn flow_key_is(rt: &impl Abort, proto: Proto, inside: Pair, number: u128) {
    let key = FlowKey { proto, inside };
    assert_eq!(rt; key.to_number(), number);
    assert_eq!(rt; FlowKey::from_number(number), Some(key));
}

fn port_key_is(rt: &impl Abort, proto: Proto, outside: Pair, number: u128) {
    let key = PortKey { proto, outside };
    assert_eq!(rt; key.to_number(), number);
    assert_eq!(rt; PortKey::from_number(number), Some(key));
}

fn pin_key_is(rt: &impl Abort, proto: Proto, client: Pair, number: u128) {
    let key = PinKey { proto, client };
    assert_eq!(rt; key.to_number(), number);
    assert_eq!(rt; PinKey::from_number(number), Some(key));
}

fn conn_key_is(rt: &impl Abort, inside: Pair, outside: Pair, number: u128) {
    let key = ConnKey {
        proto: Proto::Udp,
        inside,
        outside,
    };
    assert_eq!(rt; key.to_number(), number);
    assert_eq!(rt; ConnKey::from_number(number), Some(key));
}

#[test]
fn keys_reach_the_ends_of_their_ranges(rt: HostRuntime) {
    flow_key_is(&rt, Proto::Tcp, LEAST, 0x0106 << 112);
    flow_key_is(
        &rt,
        Proto::Udp,
        MOST,
        0x0111_0000_0000_0000_0000_ffff_ffff_ffff,
    );
    port_key_is(&rt, Proto::Udp, LEAST, 0x0211 << 112);
    port_key_is(
        &rt,
        Proto::Tcp,
        MOST,
        0x0206_0000_0000_0000_0000_ffff_ffff_ffff,
    );
    pin_key_is(&rt, Proto::Tcp, LEAST, 0x0406 << 112);
    pin_key_is(
        &rt,
        Proto::Udp,
        MOST,
        0x0411_0000_0000_0000_0000_ffff_ffff_ffff,
    );
    conn_key_is(&rt, LEAST, LEAST, 0x0311 << 112);
    conn_key_is(&rt, MOST, LEAST, 0x0311_0000_0000_0000_0000_ffff_ffff_ffff);
    conn_key_is(&rt, LEAST, MOST, 0x0311_0000_ffff_ffff_ffff_0000_0000_0000);
    conn_key_is(&rt, MOST, MOST, 0x0311_0000_ffff_ffff_ffff_ffff_ffff_ffff);
}

fn pair_is(rt: &impl Abort, pair: Pair, number: u128) {
    let pin = Pin { backend: pair };
    assert_eq!(rt; pin.to_number(), number);
    assert_eq!(rt; Pin::from_number(number), Some(pin));
    let to = FlowTo { outside: pair };
    assert_eq!(rt; to.to_number(), number);
    assert_eq!(rt; FlowTo::from_number(number), Some(to));
}

fn claim_is(rt: &impl Abort, incarnation: u32, inside: Pair, number: u128) {
    let claim = Claim {
        incarnation,
        inside,
    };
    assert_eq!(rt; claim.to_number(), number);
    assert_eq!(rt; Claim::from_number(number), Some(claim));
}

fn conn_is(rt: &impl Abort, by_outside: bool, state: u8, number: u128)
    requires from_one { 1 ≤ state }
    requires to_eight { state ≤ 8 }
{
    let conn = Conn { by_outside, state };
    assert_eq!(rt; conn.to_number(), number);
    assert_eq!(rt; Conn::from_number(number), Some(conn));
}

#[test]
fn values_reach_the_ends_of_their_ranges(rt: HostRuntime) {
    pair_is(&rt, LEAST, 0);
    pair_is(&rt, MOST, 0xffff_ffff_ffff);
    claim_is(&rt, 0, LEAST, 0);
    claim_is(&rt, 0, MOST, 0xffff_ffff_ffff);
    claim_is(&rt, u32::MAX, LEAST, 0xffff_ffff_0000_0000_0000);
    claim_is(&rt, u32::MAX, MOST, 0xffff_ffff_ffff_ffff_ffff);
    conn_is(&rt, false, 1, 0x001);
    conn_is(&rt, false, 8, 0x008);
    conn_is(&rt, true, 1, 0x101);
    conn_is(&rt, true, 8, 0x108);
}

/// Turns each bit of a number: it is still one of the type's exactly where the mask has that bit.
fn one_bit_off<F: Fn(u128) -> bool>(rt: &impl Abort, number: u128, free: u128, is_one: &F)
    requires { F.IsAlwaysCallable is_one.now }
{
    for bit in 0..128u32 {
        let is_free = (free >> bit) % 2 == 1;
        assert_eq!(rt; is_one(number ^ (1 << bit)), is_free, "bit {bit}");
    }
}

#[test]
fn numbers_one_bit_off(rt: HostRuntime) {
    // Each bit of a pair is free, and none of the tag, the protocol and the zeros.
    let one_pair = (1 << 48) - 1;
    let two_pairs = (1 << 96) - 1;
    one_bit_off(
        &rt,
        0x0106_0000_0000_0000_0000_0a00_0005_1388,
        one_pair,
        &|number| FlowKey::from_number(number).is_some(),
    );
    one_bit_off(
        &rt,
        0x0206_0000_0000_0000_0000_cb00_7101_9c40,
        one_pair,
        &|number| PortKey::from_number(number).is_some(),
    );
    one_bit_off(
        &rt,
        0x0306_0000_c633_6407_0050_0a00_0005_1388,
        two_pairs,
        &|number| ConnKey::from_number(number).is_some(),
    );
    one_bit_off(
        &rt,
        0x0411_0000_0000_0000_0000_c000_0201_0fa0,
        one_pair,
        &|number| PinKey::from_number(number).is_some(),
    );
}

#[test]
fn value_numbers_one_bit_off(rt: HostRuntime) {
    let one_pair = (1 << 48) - 1;
    let pair_and_incarnation = (1 << 80) - 1;
    one_bit_off(
        &rt,
        0x0a01_0001_0035,
        one_pair,
        &|number| { Pin::from_number(number).is_some() },
    );
    one_bit_off(
        &rt,
        0xcb00_7101_9c40,
        one_pair,
        &|number| { FlowTo::from_number(number).is_some() },
    );
    one_bit_off(
        &rt,
        0x0001_0a00_0005_1388,
        pair_and_incarnation,
        &|number| { Claim::from_number(number).is_some() },
    );
    // The opener's bit is free. Of the state's, 3 has 2, 1 and 7 beside it, and 8 has none of 1 to 8.
    one_bit_off(
        &rt,
        0x003,
        0x107,
        &|number| { Conn::from_number(number).is_some() },
    );
    one_bit_off(
        &rt,
        0x108,
        0x100,
        &|number| { Conn::from_number(number).is_some() },
    );
}

#[test]
fn other_numbers_are_none(rt: HostRuntime) {
    // The tag of a connection, TCP's and UDP's neighbours, and no state.
    assert_eq!(rt;
        PinKey::from_number(0x0311_0000_0000_0000_0000_c000_0201_0fa0),
        None
    );
    assert_eq!(rt;
        PinKey::from_number(0x0401_0000_0000_0000_0000_c000_0201_0fa0),
        None
    );
    assert_eq!(rt; Conn::from_number(0x000), None);
    assert_eq!(rt; Conn::from_number(0x009), None);
    assert_eq!(rt; Conn::from_number(0x201), None);
}
