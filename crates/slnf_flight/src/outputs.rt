ghost use Rattle.std.specs.Prelude.{◌≡◌, ◌≤◌, ◌+◌, ◌++◌, length, All, IfOk, OnOk};
ghost use Rattle.slnf_pcap.specs.Captures.{LiesIn};
ghost use Rattle.slnf_view.specs.View.{view_of};
ghost use Rattle.slnf_flight.specs.Captures.{frame_of};
ghost use Rattle.slnf_flight.specs.Output.{changed, emitted, all_emitted, output_of};

use crate::captures::frame_of;
use slnf_base::{Change, Link, NoMemory, Verdict};
use slnf_pcap::{Capture, Captured, write_header, write_packet};
use slnf_rewrite::apply;
use slnf_view::view_frame;
use std::alloc::Global;

/// The output capture of a lane: its input's file header, and the record of each emitted packet, in order. The capture
/// was read from the bytes.
pub fn write_output(
    alloc: Global,
    bytes: &[u8],
    capture: &Capture,
    verdicts: &[Verdict],
) -> Result<Vec<u8>, NoMemory>
    requires header { 24 ≤ length bytes.now }
    requires lie { All (LiesIn bytes.now) capture.now.packets }
    requires each { length verdicts.now ≡ length capture.now.packets }
    ensures { IfOk result (λ out. out.items ≡ output_of bytes.now capture.now verdicts.now) }
{
    let mut out = Vec::new(alloc);
    write_header(&mut out, bytes)?;
    write_emitted(
        alloc,
        &mut out,
        capture.link,
        bytes,
        capture.packets.as_slice(),
        verdicts,
    )?;
    Ok(out)
}

/// Appends the records of the emitted packets.
fn write_emitted(
    alloc: Global,
    out: &mut Vec<u8>,
    link: Link,
    bytes: &[u8],
    packets: &[Captured],
    verdicts: &[Verdict],
) -> Result<(), NoMemory>
    requires lie { All (LiesIn bytes.now) packets.now }
    requires each { length verdicts.now ≡ length packets.now }
    ensures { OnOk result (out.new.items ≡ out.old.items ++ all_emitted link bytes.now packets.now verdicts.now) }
{
    for (place, packet) in packets.iter().enumerate() {
        write_one(alloc, out, link, bytes, packet, verdicts[place])?;
    }
    Ok(())
}

/// Appends a packet's record, where it is emitted.
fn write_one(
    alloc: Global,
    out: &mut Vec<u8>,
    link: Link,
    bytes: &[u8],
    packet: &Captured,
    verdict: Verdict,
) -> Result<(), NoMemory>
    requires { packet.now.at + 16 + packet.now.len ≤ length bytes.now }
    ensures { OnOk result (out.new.items ≡ out.old.items ++ emitted link bytes.now packet.now verdict) }
{
    if let Verdict::Emit(change) = verdict {
        let frame = changed_frame(alloc, link, frame_of(bytes, packet), change)?;
        write_packet(out, bytes, packet, frame.as_slice())?;
    }
    Ok(())
}

/// A frame after a change. One without a view stays.
fn changed_frame(
    alloc: Global,
    link: Link,
    frame: &[u8],
    change: Change,
) -> Result<Vec<u8>, NoMemory>
    ensures frame { IfOk result (λ new. new.items ≡ changed frame.now change (view_of link frame.now)) }
    ensures length { IfOk result (λ new. length new.items ≡ length frame.now) }
{
    let mut new = Vec::from_slice(alloc, frame)?;
    if let Ok(view) = view_frame(link, frame) {
        apply(new.as_mut_slice(), &view, change);
    }
    Ok(new)
}
