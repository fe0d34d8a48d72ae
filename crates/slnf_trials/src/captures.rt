//! Captures of packets that are named by letters, and their lanes.
ghost use Rattle.std.specs.Prelude.{◌<◌, ◌≤◌, length, IfOk};
ghost use Rattle.slnf_check.specs.Given.{IsRead};

use crate::lanes::packet;
use slnf_base::{Packet, Proto, Row};
use slnf_check::Given;
use slnf_flight::{Lane, Taken, make_lane};
use slnf_pcap::read_capture;
use std::alloc::{AllocError, Global};
use std::test::Fail;

/// The header of a little-endian capture of raw IP.
const HEADER: &[u8] =
    b"\xd4\xc3\xb2\xa1\x02\x00\x04\x00\x00\x00\x00\x00\x00\x00\x00\x00\x00\x00\x04\x00\x65\x00\x00\x00";

/// A capture that was read, and its lane.
#[derive(Drop)]
pub struct OneLane {
    pub given: Given,
    pub lane: Lane,
}

/// Appends a record of a frame of so many bytes, and the frame's IPv4 header up to its addresses. Nobody verifies a
/// checksum, so each is zero.
fn push_head(bytes: &mut Vec<u8>, size: u8, fragment: u8, protocol: u8) -> Result<(), AllocError> {
    let times = [0; 8];
    let head = [69, 0, 0, size, 0, 0, fragment, 0, 64, protocol, 0, 0];
    bytes.extend_from_slice(&times)?;
    bytes.extend_from_slice(&[size, 0, 0, 0, size, 0, 0, 0])?;
    bytes.extend_from_slice(&head)
}

/// Appends the addresses and the ports of a packet.
fn push_pairs(bytes: &mut Vec<u8>, packet: &Packet) -> Result<(), AllocError> {
    bytes.extend_from_slice(&packet.source.addr.to_be_bytes())?;
    bytes.extend_from_slice(&packet.dest.addr.to_be_bytes())?;
    bytes.extend_from_slice(&packet.source.port.to_be_bytes())?;
    bytes.extend_from_slice(&packet.dest.port.to_be_bytes())
}

/// Appends a packet's record.
fn push_packet(bytes: &mut Vec<u8>, packet: &Packet) -> Result<(), AllocError> {
    match packet.proto {
        Proto::Udp => {
            push_head(bytes, 28, 0, 17)?;
            push_pairs(bytes, packet)?;
            bytes.extend_from_slice(&[0, 8, 0, 0])
        }
        Proto::Tcp => {
            push_head(bytes, 40, 0, 6)?;
            push_pairs(bytes, packet)?;
            bytes.extend_from_slice(&[0; 8])?;
            bytes.extend_from_slice(&[80, packet.flags, 255, 255, 0, 0, 0, 0])
        }
    }
}

/// The capture of the packets of these letters. A letter of no packet is a fragment.
fn capture_of(alloc: Global, text: &str) -> Result<Vec<u8>, AllocError> {
    let mut bytes = Vec::from_slice(alloc, HEADER)?;
    for letter in text.chars() {
        match packet(letter) {
            Taken::Seen(packet) => push_packet(&mut bytes, &packet)?,
            Taken::Bad(_) => {
                push_head(&mut bytes, 28, 32, 17)?;
                bytes.extend_from_slice(&[0; 16])?;
            }
        }
    }
    Ok(bytes)
}

/// The capture of the packets of these letters, of at most 1,024 of them, and its lane.
pub(crate) fn read_lane(alloc: Global, text: &str) -> Result<OneLane, Fail>
    ensures read { IfOk result (λ one. IsRead one.given one.lane) }
    ensures few { IfOk result (λ one. length one.lane.packets ≤ 1024) }
{
    let bytes = capture_of(alloc, text)?;
    let capture = read_capture(alloc, bytes.as_slice()).map_err(|_| "it is a capture")?;
    let lane = make_lane(alloc, bytes.as_slice(), &capture)?;
    if lane.packets.len() > 1024 {
        return Err("it is too long")?;
    }
    let bytes = Row::from_vec(bytes);
    Ok(OneLane {
        given: Given { bytes, capture },
        lane,
    })
}
