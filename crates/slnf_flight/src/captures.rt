ghost use Rattle.std.specs.Prelude.{◌≡◌, ◌≤◌, ◌+◌, length, map, All, IsTrue, IfOk};
ghost use Rattle.std.specs.List.{list_all};
ghost use Rattle.slnf_pcap.specs.Captures.{LiesIn};
ghost use Rattle.slnf_flight.specs.Captures.{frame_of, taken_of_frame, packets_in, packets_of};
ghost use Rattle.slnf_flight.specs.Ranges.{is_taken};

use crate::lanes::{Lane, Taken};
use slnf_base::{Link, NoMemory, Packet, Row};
use slnf_pcap::{Capture, Captured};
use slnf_view::view_frame;
use std::alloc::Global;

/// The captured bytes of a record.
pub fn frame_of<'a>(bytes: &'a [u8], packet: &Captured) -> &'a [u8]
    requires { packet.now.at + 16 + packet.now.len ≤ length bytes.now }
    ensures { result.now ≡ frame_of bytes.now packet.now }
{
    let rest = &bytes[packet.at + 16..];
    &rest[..packet.len]
}

/// A packet that was seen, whose numbers are in their types' ranges.
fn seen(packet: Packet) -> Taken
    ensures packet { result ≡ Taken.Seen packet }
    ensures fits { IsTrue (is_taken result) }
{
    Taken::Seen(packet)
}

/// What the functions see of a frame.
fn taken_of(link: Link, frame: &[u8]) -> Taken
    ensures view { result ≡ taken_of_frame link frame.now }
    ensures fits { IsTrue (is_taken result) }
{
    match view_frame(link, frame) {
        Ok(view) => seen(view.packet),
        Err(reason) => Taken::Bad(reason),
    }
}

/// What the functions see of these records' frames, in order.
fn all_taken(
    alloc: Global,
    link: Link,
    bytes: &[u8],
    records: &[Captured],
) -> Result<Vec<Taken>, NoMemory>
    requires { All (LiesIn bytes.now) records.now }
    ensures views { IfOk result (λ packets. packets.items ≡ packets_in link bytes.now records.now) }
    ensures fit { IfOk result (λ packets. IsTrue (list_all is_taken packets.items)) }
{
    let mut packets = Vec::new(alloc);
    for record in records {
        packets.push(taken_of(link, frame_of(bytes, record)))?;
    }
    Ok(packets)
}

/// The lane of a capture: each packet as its view, in order. The capture was read from the bytes.
pub fn make_lane(alloc: Global, bytes: &[u8], capture: &Capture) -> Result<Lane, NoMemory>
    requires { All (LiesIn bytes.now) capture.now.packets }
    ensures { IfOk result (λ lane. lane.packets ≡ packets_of bytes.now capture.now) }
{
    let packets = all_taken(alloc, capture.link, bytes, capture.packets.as_slice())?;
    Ok(Lane {
        packets: Row::from_vec(packets),
    })
}
