//! Addresses, pairs and prefixes in texts: ASCII digits without leading zeros, and no blanks or signs.
ghost use Rattle.std.specs.Prelude.{◌≡◌, ◌≤◌, ◌<◌, ◌^◌, ◌+◌, ◌-◌, ◌%◌, ◌==◌, length, min, not, position, option_map, IfSome};
ghost use Rattle.std.specs.Char.{is_ascii_digit};
ghost use Rattle.slnf_plan.specs.Plain.{plain_prefix};
ghost use Rattle.slnf_plan.specs.Texts.{digit_count, value_of, is_decimal, decimal_at, after, decimal_after, address_at, address_of, pair_of, prefix_of};

use slnf_base::{Pair, Prefix};

/// The address that the text is: four decimals 0 to 255, joined by full stops.
#[tactic(auto, unfolding(crate::specs::Texts::address_of))]
pub(crate) fn address(text: &[u8]) -> Option<u32>
    ensures { result ≡ address_of text.now }
{
    let (addr, rest) = address_front(text)?;
    if rest.is_empty() { Some(addr) } else { None }
}

/// The pair that the text is: an address, a colon, and a port 1 to 65535.
#[tactic(auto, unfolding(crate::specs::Texts::pair_of))]
pub(crate) fn pair(text: &[u8]) -> Option<Pair>
    ensures { result ≡ pair_of text.now }
{
    let (addr, rest) = address_front(text)?;
    let (port, rest) = decimal_behind(b':', 65535, rest)?;
    if rest.is_empty() && 1 <= port {
        let port = port as u16;
        Some(Pair { addr, port })
    } else {
        None
    }
}

/// The prefix that the text is: an address, a slash, and 0 to 32 bits, with zeros in the address after them.
#[tactic(auto, unfolding(crate::specs::Texts::prefix_of))]
pub(crate) fn prefix(text: &[u8]) -> Option<Prefix>
    ensures { option_map plain_prefix result ≡ prefix_of text.now }
{
    let (addr, rest) = address_front(text)?;
    let (bits, rest) = decimal_behind(b'/', 32, rest)?;
    if rest.is_empty() && has_zeros_after(addr, bits) {
        let bits = bits as u8;
        Some(Prefix { addr, bits })
    } else {
        None
    }
}

fn has_zeros_after(addr: u32, bits: u32) -> bool
    requires { bits ≤ 32 }
    ensures { result ≡ (addr % 2 ^ (32 - bits) == 0) }
{
    // In 64 bits a shift by 32 is one too.
    let rest = 1u64 << (32 - bits);
    u64::from(addr) % rest == 0
}

// The address at the front, and the bytes after it.
#[tactic(auto, unfolding(crate::specs::Texts::address_at))]
fn address_front(bytes: &[u8]) -> Option<(u32, &[u8])>
    ensures { option_map (λ x. (x.0, x.1.now)) result ≡ address_at bytes.now }
{
    let (a, rest) = decimal_front(255, bytes)?;
    let (b, rest) = decimal_behind(b'.', 255, rest)?;
    let (c, rest) = decimal_behind(b'.', 255, rest)?;
    let (d, rest) = decimal_behind(b'.', 255, rest)?;
    Some((a * 0x100_0000 + b * 0x1_0000 + c * 0x100 + d, rest))
}

// The decimal behind a mark, and the bytes after it.
#[tactic(auto, unfolding(crate::specs::Texts::decimal_after))]
fn decimal_behind(mark: u8, most: u32, bytes: &[u8]) -> Option<(u32, &[u8])>
    requires { most < 2 ^ 31 }
    ensures number { option_map (λ x. (x.0, x.1.now)) result ≡ decimal_after mark most bytes.now }
    ensures in_range { IfSome result (λ x. x.0 ≤ most) }
{
    let rest = behind(mark, bytes)?;
    decimal_front(most, rest)
}

fn behind(mark: u8, bytes: &[u8]) -> Option<&[u8]>
    ensures { option_map (λ x. x.now) result ≡ after mark bytes.now }
{
    match bytes {
        [] => None,
        [first, rest @ ..] => { if *first == mark { Some(rest) } else { None } }
    }
}

// The decimal at the front, where it is at most so much, and the bytes after it.
#[tactic(auto, unfolding(crate::specs::Texts::decimal_at))]
fn decimal_front(most: u32, bytes: &[u8]) -> Option<(u32, &[u8])>
    requires { most < 2 ^ 31 }
    ensures number { option_map (λ x. (x.0, x.1.now)) result ≡ decimal_at most bytes.now }
    ensures in_range { IfSome result (λ x. x.0 ≤ most) }
{
    let len = front_digits(bytes);
    let (digits, rest) = bytes.split_at(len);
    if !is_decimal(digits) {
        return None;
    }
    let number = capped_value(digits);
    if number <= most {
        Some((number, rest))
    } else {
        None
    }
}

fn front_digits(bytes: &[u8]) -> usize
    ensures count { result ≡ digit_count bytes.now }
    ensures within { result ≤ length bytes.now }
{
    match first_other(bytes) {
        Some(at) => at,
        None => bytes.len(),
    }
}

// Where the first byte is that is no digit.
fn first_other(bytes: &[u8]) -> Option<usize>
    ensures place { result ≡ position (λ b. not (is_ascii_digit b)) bytes.now }
    ensures within { IfSome result (λ at. at < length bytes.now) }
{
    bytes.iter().position(|b| !b.is_ascii_digit())
}

fn is_decimal(digits: &[u8]) -> bool
    ensures { result ≡ is_decimal digits.now }
{
    match digits {
        [] => false,
        [_] => true,
        [first, ..] => *first != b'0',
    }
}

// The number that digits spell, or the greatest u32 where it is above that.
fn capped_value(digits: &[u8]) -> u32
    ensures { result ≡ min (value_of digits.now) (2 ^ 32 - 1) }
{
    let mut number = 0u32;
    for digit in digits {
        number = number
            .saturating_mul(10)
            .saturating_add(u32::from(digit.saturating_sub(b'0')));
    }
    number
}
