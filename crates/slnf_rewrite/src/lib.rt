//! The frame that is emitted for a captured one: another address and port on one side, and checksums that
//! follow the change.
#![tactic(auto)]

ghost use Rattle.std.specs.Prelude.{◌≡◌, ◌≢◌, ◌+◌, ◌≤◌, ◌/◌, ◌%◌, length};
ghost use Rattle.slnf_sum.specs.Sum.{adjusted_over, Verifies};
ghost use Rattle.slnf_view.specs.Field.{word_at};
ghost use Rattle.slnf_view.specs.View.{IsViewOf, LiesWithin};
ghost use Rattle.slnf_rewrite.specs.Rewritten.{with_word, with_address, address_changes, pair_changes, check_offset, transport_check_place, nonzero, header_check, transport_check, with_pair, rewritten};
ghost use Rattle.slnf_base.specs.Ranges.{IsPair};
ghost use Rattle.slnf_rewrite.specs.Verified.{header_words, HasCheck, IsSide, StaysVerified};

use byteorder::{BigEndian, ByteOrder};
use slnf_base::{Change, Pair, Proto};
use slnf_sum::adjust;
use slnf_view::{View, word_at};

// Where a pair stands in a frame.
#[derive(Clone, Copy)]
struct Side {
    address: usize,
    port: usize,
}

// Places in an IPv4 header (RFC 791).
const HEADER_CHECK: usize = 10;

const SOURCE: usize = 12;

const DEST: usize = 16;

// Writes a word at a place, the high byte first.
fn put_word(frame: &mut [u8], place: usize, word: u16)
    requires { place + 2 ≤ length frame.old }
    ensures { frame.new ≡ with_word frame.old place word }
{
    BigEndian::write_u16(&mut frame[place..], word);
}

// The two words of an address.
fn halves(address: u32) -> (u16, u16)
    ensures high { result.0 ≡ address / 65536 }
    ensures low { result.1 ≡ address % 65536 }
{
    ((address >> 16) as u16, (address & 0xffff) as u16)
}

// Writes an address at a place, the highest byte first.
fn put_address(frame: &mut [u8], place: usize, address: u32)
    requires { place + 4 ≤ length frame.old }
    ensures { frame.new ≡ with_address frame.old place address }
{
    let (high, low) = halves(address);
    put_word(frame, place, high);
    put_word(frame, place + 2, low);
}

// The checksum with another address at a place.
fn adjust_address(check: u16, frame: &[u8], place: usize, address: u32) -> u16
    requires { place + 4 ≤ length frame.now }
    ensures { result ≡ adjusted_over check (address_changes frame.now place address) }
{
    let (high, low) = halves(address);
    let check = adjust(check, word_at(frame, place), high);
    adjust(check, word_at(frame, place + 2), low)
}

// The checksum with another pair on a side.
fn adjust_pair(check: u16, frame: &[u8], side: Side, pair: Pair) -> u16
    requires address { side.address + 4 ≤ length frame.now }
    requires port { side.port + 2 ≤ length frame.now }
    ensures { result ≡ adjusted_over check (pair_changes frame.now side.address side.port pair) }
{
    let check = adjust_address(check, frame, side.address, pair.addr);
    adjust(check, word_at(frame, side.port), pair.port)
}

// The header's checksum with another pair on a side.
fn header_check(frame: &[u8], view: &View, side: Side, pair: Pair) -> u16
    requires lies { LiesWithin frame.now view.now }
    requires side { IsSide view.now side.address side.port }
    requires numbers { IsPair pair }
    ensures exact { result ≡ header_check frame.now view.now side.address pair }
    ensures verifies { Verifies (header_words frame.now view.now)
        → Verifies (header_words (with_pair frame.now view.now side.address side.port pair) view.now) }
{
    let check = word_at(frame, view.ip + HEADER_CHECK);
    adjust_address(check, frame, side.address, pair.addr)
}

// The place of the checksum in a transport header (RFC 793, RFC 768).
fn check_offset(proto: Proto) -> usize
    ensures { result ≡ check_offset proto }
{
    match proto {
        Proto::Tcp => 16,
        Proto::Udp => 6,
    }
}

// A UDP checksum as it is written, which is never zero (RFC 768).
fn nonzero(check: u16) -> u16
    ensures { result ≡ nonzero check }
{
    if check == 0 { 0xffff } else { check }
}

// The transport checksum with another pair on a side. A UDP checksum of zero says that none was made.
fn transport_check(frame: &[u8], view: &View, side: Side, pair: Pair) -> u16
    requires lies { LiesWithin frame.now view.now }
    requires side { IsSide view.now side.address side.port }
    requires numbers { IsPair pair }
    ensures exact { result ≡ transport_check frame.now view.now side.address side.port pair }
    ensures verifies { let after = with_pair frame.now view.now side.address side.port pair in
        HasCheck frame.now view.now → StaysVerified frame.now after view.now }
{
    let proto = view.packet.proto;
    let check = word_at(frame, view.l4 + check_offset(proto));
    match proto {
        Proto::Tcp => adjust_pair(check, frame, side, pair),
        Proto::Udp if check == 0 => 0,
        Proto::Udp => nonzero(adjust_pair(check, frame, side, pair)),
    }
}

// Sets a pair on a side, and the checksums.
fn set_pair(frame: &mut [u8], view: &View, side: Side, pair: Pair)
    requires lies { LiesWithin frame.old view.now }
    requires side { IsSide view.now side.address side.port }
    requires numbers { IsPair pair }
    ensures exact { frame.new ≡ with_pair frame.old view.now side.address side.port pair }
    ensures header { Verifies (header_words frame.old view.now) → Verifies (header_words frame.new view.now) }
    ensures transport { HasCheck frame.old view.now → StaysVerified frame.old frame.new view.now }
{
    let header = header_check(frame, view, side, pair);
    let transport = transport_check(frame, view, side, pair);
    put_address(frame, side.address, pair.addr);
    put_word(frame, side.port, pair.port);
    put_word(frame, view.ip + HEADER_CHECK, header);
    put_word(frame, view.l4 + check_offset(view.packet.proto), transport);
}

/// Rewrites a frame: nothing changes, or one side's address and port are set, and the checksums of the
/// header and of TCP or UDP follow the change (RFC 1624, equation 3) and aren't computed afresh. A UDP
/// checksum of zero stays zero, and one that becomes zero is written as ffff (RFC 768).
pub fn apply(frame: &mut [u8], view: &View, change: Change)
    requires { IsViewOf frame.old view.now }
    ensures exact { frame.new ≡ rewritten frame.old view.now change }

    // A checksum that verified verifies: over the header, and over the pseudo-header and the datagram behind
    // the header, whatever its length.
    ensures header { Verifies (header_words frame.old view.now) → Verifies (header_words frame.new view.now) }
    ensures tcp { view.now.packet.proto ≡ Proto.Tcp → StaysVerified frame.old frame.new view.now }
    ensures udp { view.now.packet.proto ≡ Proto.Udp
        → word_at frame.old (transport_check_place view.now) ≢ 0
        → StaysVerified frame.old frame.new view.now }
{
    match change {
        Change::Keep => {}
        Change::Source(pair) => {
            let side = Side {
                address: view.ip + SOURCE,
                port: view.l4,
            };
            set_pair(frame, view, side, pair);
        }
        Change::Dest(pair) => {
            let side = Side {
                address: view.ip + DEST,
                port: view.l4 + 2,
            };
            set_pair(frame, view, side, pair);
        }
    }
}

#[cfg(test)]
mod tests;
