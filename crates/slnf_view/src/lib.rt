//! The view of a captured frame: what the network functions see of its IPv4 and transport headers.
#![tactic(auto)]

ghost use Rattle.std.specs.Prelude.{◌≡◌, ◌+◌, ◌≤◌, ◌<◌, true, false, length, IfOk, IfErr};
ghost use Rattle.slnf_view.specs.Field.{word_at, address_at};
ghost use Rattle.slnf_view.specs.View.{ip_of, datagram_of, lacks_ipv4_type, is_not_ipv4, is_fragment, header_length, proto_of, transport_length, headers_length, is_short, flags_of, packet_of, view_of, IsViewOf, LiesWithin};

use byteorder::{BigEndian, ByteOrder};
use slnf_base::{Link, Packet, Pair, Proto, Reason};

/// What the functions see of a frame, and where its headers begin: the IPv4 header at `ip` and the
/// transport header at `l4`, both counted in bytes from the frame's first.
#[derive(Clone, Copy, Debug, PartialEq, Eq)]
pub struct View {
    pub packet: Packet,
    pub ip: usize,
    pub l4: usize,
}

const ETHERNET_LENGTH: usize = 14;

// Places in an Ethernet header (RFC 894) and in an IPv4 header (RFC 791).
const ETHERNET_TYPE: usize = 12;

const TOTAL_LENGTH: usize = 2;

const FRAGMENT: usize = 6;

const PROTOCOL: usize = 9;

const SOURCE: usize = 12;

const DEST: usize = 16;

// The place of the flags in a TCP header (RFC 793).
const TCP_FLAGS: usize = 13;

const IPV4_TYPE: u16 = 0x0800;

const LEAST_IPV4_LENGTH: usize = 20;

/// The 16-bit word at a place, the high byte first.
pub fn word_at(bytes: &[u8], place: usize) -> u16
    requires { place + 2 ≤ length bytes.now }
    ensures { result ≡ word_at bytes.now place }
{
    BigEndian::read_u16(&bytes[place..])
}

// The address at a place, the high byte first.
fn address_at(bytes: &[u8], place: usize) -> u32
    requires { place + 4 ≤ length bytes.now }
    ensures { result ≡ address_at bytes.now place }
{
    BigEndian::read_u32(&bytes[place..])
}

// Where the IPv4 header begins.
fn ip_of(link: Link) -> usize
    ensures { result ≡ ip_of link }
{
    match link {
        Link::Ethernet => ETHERNET_LENGTH,
        Link::Raw => 0,
    }
}

// Whether an Ethernet header is cut or announces something else than IPv4.
fn lacks_ipv4_type(link: Link, frame: &[u8]) -> bool
    ensures { result ≡ lacks_ipv4_type link frame.now }
{
    match link {
        Link::Ethernet => {
            frame.len() < ETHERNET_LENGTH || word_at(frame, ETHERNET_TYPE) != IPV4_TYPE
        }
        Link::Raw => false,
    }
}

// The IPv4 datagram behind the link's header.
fn datagram_of(link: Link, frame: &[u8]) -> Result<&[u8], Reason>
    ensures found { IfOk result (λ p. p.now ≡ datagram_of link frame.now) }
    ensures ipv4 { IfOk result (λ p. is_not_ipv4 link frame.now ≡ false) }
    ensures filled { IfOk result (λ p. 0 < length p.now) }
    ensures other { IfErr result (λ reason. (reason ≡ Reason.NotIpv4) × (is_not_ipv4 link frame.now ≡ true)) }
{
    if lacks_ipv4_type(link, frame) || frame.len() <= ip_of(link) {
        return Err(Reason::NotIpv4);
    }
    let datagram = &frame[ip_of(link)..];
    if datagram[0] / 16 != 4 {
        return Err(Reason::NotIpv4);
    }
    Ok(datagram)
}

// Whether the datagram is one fragment of several.
fn is_fragment(datagram: &[u8]) -> bool
    ensures { result ≡ is_fragment datagram.now }
{
    datagram.len() >= 8 && word_at(datagram, FRAGMENT) % 0x4000 != 0
}

// The length of the IPv4 header in bytes.
fn header_length(datagram: &[u8]) -> usize
    requires { 0 < length datagram.now }
    ensures { result ≡ header_length datagram.now }
{
    4 * usize::from(datagram[0] % 16)
}

// The length of the transport header without options.
fn transport_length(proto: Proto) -> usize
    ensures { result ≡ transport_length proto }
{
    match proto {
        Proto::Tcp => 20,
        Proto::Udp => 8,
    }
}

// How many bytes both headers take.
fn headers_length(datagram: &[u8]) -> usize
    requires { 20 ≤ length datagram.now }
    ensures { result ≡ headers_length datagram.now }
{
    header_length(datagram) + Proto::from_number(datagram[PROTOCOL]).map_or(0, transport_length)
}

// Whether the headers aren't whole.
fn is_short(datagram: &[u8]) -> bool
    requires { 0 < length datagram.now }
    ensures { result ≡ is_short datagram.now }
{
    datagram.len() < LEAST_IPV4_LENGTH
        || header_length(datagram) < LEAST_IPV4_LENGTH
        || usize::from(word_at(datagram, TOTAL_LENGTH)) < headers_length(datagram)
        || datagram.len() < headers_length(datagram)
}

// Byte 13 of a TCP header.
fn flags_of(proto: Proto, datagram: &[u8]) -> u8
    requires { header_length datagram.now + transport_length proto ≤ length datagram.now }
    ensures { result ≡ flags_of proto datagram.now }
{
    match proto {
        Proto::Tcp => datagram[header_length(datagram) + TCP_FLAGS],
        Proto::Udp => 0,
    }
}

// The pairs and flags at their places in the headers.
fn packet_of(proto: Proto, datagram: &[u8]) -> Packet
    requires filled { 20 ≤ length datagram.now }
    requires whole { header_length datagram.now + transport_length proto ≤ length datagram.now }
    ensures { result ≡ packet_of proto datagram.now }
{
    let ports = header_length(datagram);
    Packet {
        proto,
        source: Pair {
            addr: address_at(datagram, SOURCE),
            port: word_at(datagram, ports),
        },
        dest: Pair {
            addr: address_at(datagram, DEST),
            port: word_at(datagram, ports + 2),
        },
        flags: flags_of(proto, datagram),
    }
}

/// The view of a frame (RFC 791, 793, 768), or the first reason against it of the first four: `NotIpv4`,
/// `Fragment`, `Short` and `Protocol`. A record whose payload was cut by the capture but whose headers are
/// there has a view.
pub fn view_frame(link: Link, frame: &[u8]) -> Result<View, Reason>
    ensures exact { result ≡ view_of link frame.now }
    ensures of_frame { IfOk result (IsViewOf frame.now) }
    ensures within { IfOk result (LiesWithin frame.now) }
{
    let datagram = datagram_of(link, frame)?;
    if is_fragment(datagram) {
        return Err(Reason::Fragment);
    }
    if is_short(datagram) {
        return Err(Reason::Short);
    }
    let proto = Proto::from_number(datagram[PROTOCOL]).ok_or(Reason::Protocol)?;
    let ip = ip_of(link);
    Ok(View {
        packet: packet_of(proto, datagram),
        ip,
        l4: ip + header_length(datagram),
    })
}

#[cfg(test)]
mod tests;
