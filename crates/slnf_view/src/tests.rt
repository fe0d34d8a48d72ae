use super::*;

// UDP from 192.0.2.1:4000 to 198.51.100.10:53, without data.
const DATAGRAM: [u8; 28] = [
    0x45, 0x00, 0x00, 0x1c, 0x00, 0x01, 0x00, 0x00, 0x40, 0x11, 0x8e, 0x91, 0xc0, 0x00, 0x02, 0x01,
    0xc6, 0x33, 0x64, 0x0a, 0x0f, 0xa0, 0x00, 0x35, 0x00, 0x08, 0x03, 0xca,
];

// A SYN from 10.0.0.5:5000 to 198.51.100.7:80, not to be fragmented.
const SYN: [u8; 40] = [
    0x45, 0x00, 0x00, 0x28, 0x00, 0x01, 0x40, 0x00, 0x40, 0x06, 0x06, 0x90, 0x0a, 0x00, 0x00, 0x05,
    0xc6, 0x33, 0x64, 0x07, 0x13, 0x88, 0x00, 0x50, 0x00, 0x00, 0x00, 0x01, 0x00, 0x00, 0x00, 0x00,
    0x50, 0x02, 0xff, 0xff, 0x67, 0xca, 0x00, 0x00,
];

// The same datagram from 255.255.255.255:65535 to 255.255.255.255:65535, with four bytes of options.
const HIGHEST: [u8; 32] = [
    0x46, 0x00, 0x00, 0x20, 0x00, 0x01, 0x00, 0x00, 0x40, 0x11, 0x00, 0x00, 0xff, 0xff, 0xff, 0xff,
    0xff, 0xff, 0xff, 0xff, 0x01, 0x01, 0x01, 0x00, 0xff, 0xff, 0xff, 0xff, 0x00, 0x08, 0x00, 0x00,
];

// The datagram with another byte at a place.
fn with_byte(place: usize, byte: u8) -> [u8; 28] {
    changed(DATAGRAM, place, byte)
}

fn changed(mut frame: [u8; 28], place: usize, byte: u8) -> [u8; 28] {
    if place < frame.len() {
        frame[place] = byte;
    }
    frame
}

// The datagram behind an Ethernet header, with padding.
fn ethernet(kind: u16) -> [u8; 60] {
    let mut frame = [0; 60];
    frame[12..14].copy_from_slice(&kind.to_be_bytes());
    frame[14..42].copy_from_slice(&DATAGRAM);
    frame
}

// What is seen of a frame of which the first bytes were captured.
fn cut_view(link: Link, frame: &[u8], captured: usize) -> Result<View, Reason> {
    view_frame(link, &frame[..captured.min(frame.len())])
}

fn udp_view(source: Pair, dest: Pair, ip: usize, l4: usize) -> View {
    View {
        packet: Packet {
            proto: Proto::Udp,
            source,
            dest,
            flags: 0,
        },
        ip,
        l4,
    }
}

fn datagram_view(ip: usize, l4: usize) -> View {
    let source = Pair {
        addr: 0xc000_0201,
        port: 4000,
    };
    let dest = Pair {
        addr: 0xc633_640a,
        port: 53,
    };
    udp_view(source, dest, ip, l4)
}

#[test]
fn whole_headers_have_a_view(rt: HostRuntime) {
    assert_eq!(rt; view_frame(Link::Raw, &DATAGRAM), Ok(datagram_view(0, 20)));
    assert_eq!(rt;
        view_frame(Link::Ethernet, &ethernet(0x0800)),
        Ok(datagram_view(14, 34))
    );

    // The total length is 1308: the payload was cut by the capture.
    assert_eq!(rt;
        view_frame(Link::Raw, &with_byte(2, 5)),
        Ok(datagram_view(0, 20))
    );

    // The reserved bit and the flag not to fragment make no fragment.
    assert_eq!(rt;
        view_frame(Link::Raw, &with_byte(6, 0xc0)),
        Ok(datagram_view(0, 20))
    );

    let highest = Pair {
        addr: 0xffff_ffff,
        port: 0xffff,
    };
    assert_eq!(rt;
        view_frame(Link::Raw, &HIGHEST),
        Ok(udp_view(highest, highest, 0, 24))
    );
}

#[test]
fn a_segment_has_flags(rt: HostRuntime) {
    let packet = Packet {
        proto: Proto::Tcp,
        source: Pair {
            addr: 0x0a00_0005,
            port: 5000,
        },
        dest: Pair {
            addr: 0xc633_6407,
            port: 80,
        },
        flags: 2,
    };
    let view = View {
        packet,
        ip: 0,
        l4: 20,
    };
    assert_eq!(rt; view_frame(Link::Raw, &SYN), Ok(view));
    assert_eq!(rt; cut_view(Link::Raw, &SYN, 39), Err(Reason::Short));
}

#[test]
fn the_first_reason_is_told(rt: HostRuntime) {
    let reasons = [
        (0, 0x65, Reason::NotIpv4),
        (6, 0x20, Reason::Fragment),
        (7, 0x01, Reason::Fragment),
        (0, 0x44, Reason::Short),
        (0, 0x46, Reason::Short),
        (3, 27, Reason::Short),
        (9, 6, Reason::Short),
        (9, 1, Reason::Protocol),
    ];
    for (place, byte, reason) in reasons {
        assert_eq!(rt; view_frame(Link::Raw, &with_byte(place, byte)), Err(reason));
    }
    // Frames with two faults.
    let firsts = [
        (with_byte(0, 0x65), 6, 0x20, Reason::NotIpv4),
        (with_byte(0, 0x44), 6, 0x20, Reason::Fragment),
        (with_byte(9, 1), 6, 0x20, Reason::Fragment),
        (with_byte(9, 1), 0, 0x44, Reason::Short),
    ];
    for (frame, place, byte, reason) in firsts {
        assert_eq!(rt;
            view_frame(Link::Raw, &changed(frame, place, byte)),
            Err(reason)
        );
    }
    let fragment = with_byte(6, 0x20);
    assert_eq!(rt; cut_view(Link::Raw, &fragment, 8), Err(Reason::Fragment));
    assert_eq!(rt; cut_view(Link::Raw, &fragment, 7), Err(Reason::Short));
    assert_eq!(rt; cut_view(Link::Raw, &DATAGRAM, 27), Err(Reason::Short));
    assert_eq!(rt; cut_view(Link::Raw, &DATAGRAM, 19), Err(Reason::Short));
    assert_eq!(rt; view_frame(Link::Raw, &[]), Err(Reason::NotIpv4));
}

#[test]
fn ethernet_announces_ipv4(rt: HostRuntime) {
    assert_eq!(rt;
        view_frame(Link::Ethernet, &ethernet(0x0806)),
        Err(Reason::NotIpv4)
    );
    let mut fragment = ethernet(0x0800);
    fragment[20] = 0x20;
    assert_eq!(rt;
        view_frame(Link::Ethernet, &fragment),
        Err(Reason::Fragment)
    );
    let frame = ethernet(0x0800);
    assert_eq!(rt; cut_view(Link::Ethernet, &frame, 13), Err(Reason::NotIpv4));
    assert_eq!(rt; cut_view(Link::Ethernet, &frame, 14), Err(Reason::NotIpv4));
    assert_eq!(rt; cut_view(Link::Ethernet, &frame, 41), Err(Reason::Short));
    assert_eq!(rt;
        cut_view(Link::Ethernet, &frame, 42),
        Ok(datagram_view(14, 34))
    );
}
