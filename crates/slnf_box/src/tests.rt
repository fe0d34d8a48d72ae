use crate::{FwBox, LbBox, NatBox};
use slnf_base::{Change, Packet, Pair, Pool, Prefix, Proto, Reason, Row, Service, Verdict};
use slnf_fw_table::Rule;
use std::test::Fail;

const FRONT: Pair = Pair {
    addr: 0xc633_640a,
    port: 53,
};

const BACKEND: Pair = Pair {
    addr: 0x0a01_0001,
    port: 53,
};

const CLIENT: Pair = Pair {
    addr: 0xc000_0201,
    port: 4000,
};

fn udp(source: Pair, dest: Pair) -> Packet {
    Packet {
        proto: Proto::Udp,
        source,
        dest,
        flags: 0,
    }
}

#[test]
fn a_client_is_pinned_to_its_first_choice(rt: HostRuntime) -> Result<(), Fail> {
    let service = Service {
        proto: Proto::Udp,
        front: FRONT,
        backends: Row::from_vec(Vec::from_slice(rt.alloc(), &[BACKEND])?),
    };
    let mut balancer = LbBox::make(rt.alloc(), service);
    let to_front = udp(CLIENT, FRONT);
    let pinned = Verdict::Emit(Change::Dest(BACKEND));
    assert_eq!(rt; balancer.handle(&to_front, BACKEND)?, pinned);
    assert_eq!(rt; balancer.handle(&to_front, CLIENT)?, pinned);
    let back = Verdict::Emit(Change::Source(FRONT));
    assert_eq!(rt; balancer.handle(&udp(BACKEND, CLIENT), BACKEND)?, back);
    let neither = Verdict::Dropped(Reason::Neither);
    assert_eq!(rt; balancer.handle(&udp(CLIENT, CLIENT), BACKEND)?, neither);
    Ok(())
}

const INSIDE: Prefix = Prefix {
    addr: 0x0a00_0000,
    bits: 8,
};

const HOST: Pair = Pair {
    addr: 0x0a00_0005,
    port: 5000,
};

const SERVER: Pair = Pair {
    addr: 0xc633_6407,
    port: 80,
};

fn tcp(source: Pair, dest: Pair, flags: u8) -> Packet {
    Packet {
        proto: Proto::Tcp,
        source,
        dest,
        flags,
    }
}

/// One rule permits all TCP out: SYN is 2, and SYN with ACK 18.
#[test]
fn a_connection_opens_from_the_inside(rt: HostRuntime) -> Result<(), Fail> {
    let tcp_out = Rule {
        permit: true,
        outbound: true,
        proto: 6,
        source: 0,
        source_bits: 0,
        dest: 0,
        dest_bits: 0,
        low: 0,
        high: 65535,
    };
    let rules = Row::from_vec(vec![in rt.alloc(); tcp_out]?);
    let mut firewall = FwBox::make(rt.alloc(), INSIDE, rules);
    let kept = Verdict::Emit(Change::Keep);
    let denied = Verdict::Dropped(Reason::DeniedRule);
    let neither = Verdict::Dropped(Reason::Neither);
    assert_eq!(rt; firewall.handle(&tcp(SERVER, HOST, 2))?, denied);
    assert_eq!(rt; firewall.handle(&tcp(HOST, SERVER, 2))?, kept);
    assert_eq!(rt; firewall.handle(&tcp(SERVER, HOST, 18))?, kept);
    assert_eq!(rt; firewall.handle(&tcp(HOST, HOST, 2))?, neither);
    Ok(())
}

const PORT: Pair = Pair {
    addr: 0xcb00_7101,
    port: 40000,
};

#[test]
fn a_flow_keeps_its_pair(rt: HostRuntime) -> Result<(), Fail> {
    let pool = Pool {
        inside: INSIDE,
        outside: PORT.addr,
        low: PORT.port,
        high: PORT.port,
    };
    let other_host = Pair {
        addr: 0x0a00_0006,
        port: 5000,
    };
    let mut nat = NatBox::make(rt.alloc(), pool);
    let from_pair = Verdict::Emit(Change::Source(PORT));
    let to_host = Verdict::Emit(Change::Dest(HOST));
    let no_port = Verdict::Dropped(Reason::NoPort);
    let neither = Verdict::Dropped(Reason::Neither);
    assert_eq!(rt; nat.handle(&tcp(HOST, SERVER, 2), Some(SERVER))?, no_port);
    assert_eq!(rt; nat.handle(&tcp(HOST, SERVER, 2), Some(PORT))?, from_pair);
    assert_eq!(rt;
        nat.handle(&tcp(other_host, SERVER, 2), Some(PORT))?,
        no_port
    );
    assert_eq!(rt; nat.handle(&tcp(SERVER, PORT, 18), None)?, to_host);
    assert_eq!(rt; nat.handle(&tcp(HOST, HOST, 2), None)?, neither);
    assert_eq!(rt; nat.pair_of(Proto::Tcp, HOST), Some(PORT));
    assert_eq!(rt; nat.owner(Proto::Udp, PORT), None);
    Ok(())
}

/// What goes out and comes back, with the pool's second port, and what comes to its third.
#[test]
fn a_box_alone(rt: HostRuntime) -> Result<(), Fail> {
    let pool = Pool {
        inside: INSIDE,
        outside: PORT.addr,
        low: 40000,
        high: 40003,
    };
    let chosen = Pair {
        addr: PORT.addr,
        port: 40001,
    };
    let other = Pair {
        addr: PORT.addr,
        port: 40002,
    };
    let mut nat = NatBox::make(rt.alloc(), pool);
    let from_chosen = Verdict::Emit(Change::Source(chosen));
    let to_host = Verdict::Emit(Change::Dest(HOST));
    let no_flow = Verdict::Dropped(Reason::NoFlow);
    assert_eq!(rt;
        nat.handle(&tcp(HOST, SERVER, 2), Some(chosen))?,
        from_chosen
    );
    assert_eq!(rt; nat.pair_of(Proto::Tcp, HOST), Some(chosen));
    assert_eq!(rt; nat.owner(Proto::Tcp, chosen), Some(HOST));
    assert_eq!(rt; nat.handle(&tcp(SERVER, chosen, 18), None)?, to_host);
    assert_eq!(rt; nat.handle(&tcp(SERVER, other, 18), None)?, no_flow);
    Ok(())
}
