ghost use Rattle.std.specs.Prelude.{◌≡◌, ◌≢◌, ◌≤◌, ◌<◌, ◌+◌, ◌-◌, ◌++◌, length, drop, take, vec_len, All, IfOk, OnOk, IfErr, Ok, Err};
ghost use Rattle.std.specs.List.{flat_map};
ghost use Rattle.slnf_pcap.specs.Format.{field, style_of, link_of, header_of};
ghost use Rattle.slnf_pcap.specs.Records.{record_at, records_from};
ghost use Rattle.slnf_pcap.specs.Captures.{capture_of, record_bytes, LiesIn};

use crate::capture::{Capture, Captured};
use crate::errors::PcapError;
use byteorder::{BigEndian, ByteOrder, LittleEndian};
use slnf_base::{Link, Row};
use std::alloc::Global;

/// The length of the file header.
pub const FILE_HEADER: usize = 24;

/// The length of a record's header.
pub const RECORD_HEADER: usize = 16;

/// No record has more captured bytes.
const MOST_CAPTURED: usize = 262_144;

/// No capture has more records.
const MOST_RECORDS: usize = 1_048_576;

/// Whether the highest byte of a number comes first, and whether fractions are nanoseconds.
#[derive(Clone, Copy, Debug, PartialEq, Eq)]
pub struct Style {
    pub big: bool,
    pub nanos: bool,
}

/// What the file header says.
#[derive(Clone, Copy, Debug, PartialEq, Eq)]
pub struct Header {
    pub style: Style,
    pub link: Link,
}

/// Reads the headers of a capture in one pass over the whole file. The first rule that is broken is the
/// error: the rules of the file header in the order of the errors, and then, for each record in order,
/// `TooMany`, a torn header, `OverSnap` and a torn body.
pub fn read_capture(alloc: Global, bytes: &[u8]) -> Result<Capture, PcapError>
    ensures ok { IfOk result (λ capture. capture_of bytes.now ≡ Ok capture) }
    ensures err { IfErr result (λ error. error ≢ PcapError.NoMemory → capture_of bytes.now ≡ Err error) }

    // The file is its header and then the records, each behind the one before it.
    ensures header { OnOk result (24 ≤ length bytes.now) }
    ensures few { IfOk result (λ capture. length capture.packets ≤ 1048576) }
    ensures lie { IfOk result (λ capture. All (LiesIn bytes.now) capture.packets) }
    ensures parts { IfOk result (λ capture. bytes.now ≡ take 24 bytes.now ++ flat_map (record_bytes bytes.now) capture.packets) }
{
    let header = read_header(bytes)?;
    let packets = read_records(alloc, bytes, header.style.big)?;
    Ok(Capture {
        big: header.style.big,
        nanos: header.style.nanos,
        link: header.link,
        packets: Row::from_vec(packets),
    })
}

fn read_header(bytes: &[u8]) -> Result<Header, PcapError>
    ensures { result ≡ header_of bytes.now }
{
    if bytes.len() < FILE_HEADER {
        return Err(PcapError::ShortHeader);
    }
    let style = read_style(BigEndian::read_u32(bytes)).ok_or(PcapError::BadMagic)?;
    if read_u16(style.big, bytes, 4) != 2 || read_u16(style.big, bytes, 6) != 4 {
        return Err(PcapError::BadVersion);
    }
    let link = read_link(read_u32(style.big, bytes, 20))?;
    Ok(Header { style, link })
}

fn read_style(magic: u32) -> Option<Style>
    ensures { result ≡ style_of magic }
{
    let (big, nanos) = match magic {
        0xa1b2_c3d4 => (true, false),
        0xd4c3_b2a1 => (false, false),
        0xa1b2_3c4d => (true, true),
        0x4d3c_b2a1 => (false, true),
        _ => return None,
    };
    Some(Style { big, nanos })
}

fn read_link(number: u32) -> Result<Link, PcapError>
    ensures { result ≡ link_of number }
{
    match number {
        1 => Ok(Link::Ethernet),
        101 => Ok(Link::Raw),
        _ => Err(PcapError::LinkType(number)),
    }
}

fn read_u16(big: bool, bytes: &[u8], at: usize) -> u16
    requires { at + 2 ≤ length bytes.now }
    ensures { result ≡ field big 2 at bytes.now }
{
    let rest = &bytes[at..];
    if big {
        BigEndian::read_u16(rest)
    } else {
        LittleEndian::read_u16(rest)
    }
}

fn read_u32(big: bool, bytes: &[u8], at: usize) -> u32
    requires { at + 4 ≤ length bytes.now }
    ensures { result ≡ field big 4 at bytes.now }
{
    let rest = &bytes[at..];
    if big {
        BigEndian::read_u32(rest)
    } else {
        LittleEndian::read_u32(rest)
    }
}

/// The record at the place `at` of the file, whose rest from there on is given.
fn read_record(big: bool, at: usize, rest: &[u8]) -> Result<Captured, PcapError>
    ensures value { result ≡ record_at big at rest.now }
    ensures place { IfOk result (λ packet. packet.at ≡ at) }
    ensures whole { IfOk result (λ packet. 16 + packet.len ≤ length rest.now) }
    ensures short { IfOk result (λ packet. packet.len ≤ 262144) }
{
    if rest.len() < RECORD_HEADER {
        return Err(PcapError::TornRecord(at));
    }
    let len = read_u32(big, rest, 8) as usize;
    if len > MOST_CAPTURED {
        return Err(PcapError::OverSnap(at));
    }
    if len > rest.len() - RECORD_HEADER {
        return Err(PcapError::TornRecord(at));
    }
    Ok(Captured { at, len })
}

fn read_records(alloc: Global, bytes: &[u8], big: bool) -> Result<Vec<Captured>, PcapError>
    requires { 24 ≤ length bytes.now }
    ensures ok { IfOk result (λ packets. records_from big 1048576 24 (drop 24 bytes.now) ≡ Ok packets.items) }
    ensures err { IfErr result (λ error. error ≢ PcapError.NoMemory
        → records_from big 1048576 24 (drop 24 bytes.now) ≡ Err error) }
    ensures few { IfOk result (λ packets. vec_len packets ≤ 1048576) }
    ensures lie { IfOk result (λ packets. All (LiesIn bytes.now) packets.items) }
    ensures parts { IfOk result (λ packets. bytes.now ≡ take 24 bytes.now ++ flat_map (record_bytes bytes.now) packets.items) }
{
    let mut packets = Vec::new(alloc);
    let mut at = FILE_HEADER;
    while at < bytes.len() {
        if packets.len() == MOST_RECORDS {
            return Err(PcapError::TooMany);
        }
        let packet = read_record(big, at, &bytes[at..])?;
        at += RECORD_HEADER + packet.len;
        packets.push(packet)?;
    }
    Ok(packets)
}
