use crate::{law_of_headers, make_load};
use slnf_pcap::read_capture;
use slnf_plan::read_plan;
use std::test::Fail;

/// The plan of two lanes.
const TWO_LANES: &str =
    "function = \"nat\"\nshards = 8\n[nat]\ninside = \"10.0.0.0/8\"\noutside = \"203.0.113.1\"\nports = [1024, 65535]\n[[epoch]]\ninstances = [{ lane = 0 }, { lane = 1 }]\n";

/// One packet of the word e220a8397b1dcdaf, which is SplitMix64's first one from the seed 0.
#[rattlefmt::skip]
const ONE_PACKET: [u8; 68] = [
    0xd4, 0xc3, 0xb2, 0xa1, 0x02, 0x00, 0x04, 0x00, 0x00, 0x00, 0x00, 0x00, 0x00, 0x00, 0x00, 0x00,
    0x00, 0x00, 0x04, 0x00, 0x65, 0x00, 0x00, 0x00, 0x00, 0x00, 0x00, 0x00, 0x00, 0x00, 0x00, 0x00,
    0x1c, 0x00, 0x00, 0x00, 0x1c, 0x00, 0x00, 0x00, 0x45, 0x00, 0x00, 0x1c, 0x00, 0x00, 0x00, 0x00,
    0x40, 0x11, 0x45, 0xe8, 0x0a, 0x00, 0x00, 0xaf, 0xc6, 0x33, 0x64, 0x07, 0x11, 0x00, 0x00, 0x35,
    0x00, 0x08, 0x00, 0x00,
];

#[test]
fn one_packet_is_of_the_published_word(rt: HostRuntime) -> Result<(), Fail> {
    let load = make_load(rt.alloc(), 0, 1, 1)?;
    let [capture] = load.captures.as_slice() else {
        return Err("one capture")?;
    };
    assert_eq!(rt; capture.as_slice(), ONE_PACKET.as_slice());
    Ok(())
}

#[test]
fn a_lane_goes_on_where_the_one_before_ended(rt: HostRuntime) -> Result<(), Fail> {
    // Of SplitMix64's first words from the seed 1234567: 6457827717110365317, 3203168211198807973,
    // 9817491932198370423 and 4593380528125082431.
    let load = make_load(rt.alloc(), 1_234_567, 2, 2)?;
    assert_eq!(rt; load.plan.as_slice(), TWO_LANES.as_bytes());
    let [first, second] = load.captures.as_slice() else {
        return Err("two captures")?;
    };
    assert_eq!(rt; (first.len(), second.len()), (112, 112));
    // The last byte of the source, and the high byte of its port.
    assert_eq!(rt;
        [first[55], first[60], first[99], first[104]],
        [133, 64, 165, 19]
    );
    assert_eq!(rt;
        [second[55], second[60], second[99], second[104]],
        [119, 64, 63, 63]
    );
    // The second packet's seconds and identification.
    assert_eq!(rt; (first[68], first[89]), (1, 1));
    Ok(())
}

#[test]
fn numbers_tell_loads_apart(rt: HostRuntime) -> Result<(), Fail> {
    law_of_headers();
    let seven = make_load(rt.alloc(), 7, 1, 1)?;
    let eight = make_load(rt.alloc(), 8, 1, 1)?;
    assert!(rt; seven.plan.as_slice() == eight.plan.as_slice());
    assert!(rt; seven.captures.len() == 1 && eight.captures.len() == 1);
    assert!(rt; seven.captures[0].as_slice() != eight.captures[0].as_slice());
    Ok(())
}

#[test]
fn the_greatest_number_of_lanes_is_read(rt: HostRuntime) -> Result<(), Fail> {
    let load = make_load(rt.alloc(), 7, 32, 3)?;
    assert!(rt; load.captures.len() == 32);
    let plan = read_plan(rt.alloc(), load.plan.as_slice()).map_err(|_| "it is a plan")?;
    let [epoch] = plan.epochs.as_slice() else {
        return Err("one epoch")?;
    };
    assert!(rt; epoch.instances.len() == 32);
    for bytes in &load.captures {
        assert!(rt; read_capture(rt.alloc(), bytes.as_slice())?.packets.len() == 3);
    }
    Ok(())
}
