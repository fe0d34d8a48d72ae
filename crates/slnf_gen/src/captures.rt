//! Captures of drawn packets.
ghost use Rattle.std.specs.Prelude.{◌≡◌, ◌≤◌, ◌++◌, IfOk, OnOk};
ghost use Rattle.slnf_gen.specs.Words.{state_after};
ghost use Rattle.slnf_gen.specs.Packets.{file_header, record_header};
ghost use Rattle.slnf_gen.specs.Captures.{record_of, capture_from};

use crate::packets::{ipv4_header, udp_header};
use rand_core::utils::NextWord;
use rand_xoshiro::SplitMix64;
use slnf_base::NoMemory;
use std::alloc::Global;

/// The file header of a classic capture, its lowest bytes first: microseconds, at most 262,144 bytes a packet,
/// and raw IP.
const FILE_HEADER: [u8; 24] = [
    0xd4, 0xc3, 0xb2, 0xa1, 2, 0, 4, 0, 0, 0, 0, 0, 0, 0, 0, 0, 0, 0, 4, 0, 101, 0, 0, 0,
];

/// The length of a record: its header and 28 bytes.
const RECORD: usize = 44;

/// The capture of so many packets, each of the next word.
pub(crate) fn capture(
    alloc: Global,
    words: &mut SplitMix64,
    packets: u32,
) -> Result<Vec<u8>, NoMemory>
    requires { packets ≤ 32768 }
    ensures bytes { IfOk result (λ bytes. bytes.items ≡ capture_from words.old packets) }
    ensures words { OnOk result (words.new ≡ state_after packets words.old) }
{
    let mut bytes = Vec::with_capacity(alloc, FILE_HEADER.len() + packets as usize * RECORD)?;
    bytes.extend_from_slice(&FILE_HEADER)?;
    for number in 0..packets {
        push_record(&mut bytes, number, words.next_word())?;
    }
    Ok(bytes)
}

/// Adds the record of the packet of this number.
#[tactic(auto, unfolding(crate::specs::Captures::record_of, crate::specs::Captures::datagram_of))]
fn push_record(bytes: &mut Vec<u8>, number: u32, word: u64) -> Result<(), NoMemory>
    ensures { OnOk result (bytes.new.items ≡ bytes.old.items ++ record_of number word) }
{
    bytes.extend_from_slice(&record_header(number))?;
    bytes.extend_from_slice(&ipv4_header(number, word))?;
    bytes.extend_from_slice(&udp_header(word))?;
    Ok(())
}

/// The record's header: the seconds are the packet's number, and both lengths 28.
#[tactic(auto, unfolding(crate::specs::Packets::record_header))]
fn record_header(number: u32) -> [u8; 16]
    ensures { result ≡ record_header number }
{
    let [a, b, c, d] = number.to_le_bytes();
    [a, b, c, d, 0, 0, 0, 0, 28, 0, 0, 0, 28, 0, 0, 0]
}
