//! Datagrams of 28 bytes: the headers of IPv4 (RFC 791) and UDP (RFC 768).
ghost use Rattle.std.specs.Prelude.{◌≡◌};
ghost use Rattle.slnf_sum.specs.Sum.{words_of, Verifies};
ghost use Rattle.slnf_gen.specs.Packets.{header_with, ipv4_header, source_port, udp_header, LawOfHeaders};

use slnf_sum::sum;

/// The IPv4 header of the packet of this number and word.
#[tactic(auto, unfolding(crate::specs::Packets::ipv4_header, crate::specs::Packets::header_checksum))]
pub(crate) fn ipv4_header(number: u32, word: u64) -> [u8; 20]
    ensures value { result ≡ ipv4_header number word }
    ensures verifies { Verifies (words_of result) }
{
    let blank = header_with(0, number, word);
    header_with(!sum(&blank), number, word)
}

/// The header with this checksum.
#[tactic(auto, unfolding(crate::specs::Packets::header_with))]
fn header_with(check: u16, number: u32, word: u64) -> [u8; 20]
    ensures { result ≡ header_with check number word }
{
    let [id_high, id_low] = ((number % 65536) as u16).to_be_bytes();
    let [check_high, check_low] = check.to_be_bytes();
    let host = (word % 256) as u8;
    [
        0x45, 0, 0, 28, id_high, id_low, 0, 0, 64, 17, check_high, check_low, 10, 0, 0, host, 198,
        51, 100, 7,
    ]
}

/// The source port: a multiple of 256, so that each flow has a first candidate of its own.
fn source_port(word: u64) -> u16
    ensures { result ≡ source_port word }
{
    1024 + 256 * (word / 256 % 64) as u16
}

/// The UDP header, without a checksum.
#[tactic(auto, unfolding(crate::specs::Packets::udp_header))]
pub(crate) fn udp_header(word: u64) -> [u8; 8]
    ensures { result ≡ udp_header word }
{
    let [high, low] = source_port(word).to_be_bytes();
    [high, low, 0, 53, 0, 8, 0, 0]
}

/// The law of headers: the checksum of each header of a load verifies.
pub fn law_of_headers()
    ensures { LawOfHeaders }
{}
