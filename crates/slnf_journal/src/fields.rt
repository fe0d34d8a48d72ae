ghost use Rattle.std.specs.Prelude.{◌≡◌, ◌≤◌, ◌<◌, ◌+◌, ◌-◌, ◌^◌, [], ◌∷◌, length, take, drop, Some, None, MatchOption, IfOk, IfSome, true, if◌then◌else◌};
ghost use Rattle.std.specs.Str.{all_ascii_digits};
ghost use Rattle.slnf_journal.specs.Fields.{Gives, parts_at, first_of, field_in, number_of, hex_number, verb_of, answer_of, request_of, request_in, reply_of, reply_in, parts_in, entry_in, fields_of, fields_at, left_at, ending_at, stamp_in, is_decimal, decimal_value, is_hex_digit, hex_digit_value};

use crate::parts::{Answer, Place, Verb};
use memchr::memchr;
use slnf_access::{Entry, Key, Reply, Request, Value};

/// Stamps and versions are below this.
const STAMPS_END: u64 = 1 << 62;

/// Incarnations and items are below this.
const ITEMS_END: u64 = 1 << 32;

/// No decimal below 2^62 has more digits.
const MOST_DIGITS: usize = 19;

/// The entry of a line, or the number of the first field that no line has behind the fields before it.
pub fn read_entry(line: &[u8]) -> Result<Entry, u64>
    ensures { result ≡ entry_in (fields_of line.now) }
{
    entry_at(line, Place { at: 0, number: 1 })
}

#[tactic(auto, unfolding(crate::specs::Fields::entry_in))]
fn entry_at(line: &[u8], place: Place) -> Result<Entry, u64>
    ensures { result ≡ entry_in (fields_at line.now place) }
{
    let (entry, place) = read_parts(line, place)?;
    ending_at(entry, line, place)
}

#[tactic(auto, unfolding(crate::specs::Fields::parts_in))]
fn read_parts(line: &[u8], place: Place) -> Result<(Entry, Place), u64>
    ensures { Gives (λ x. (x.0, fields_at line.now x.1)) result (parts_in (fields_at line.now place)) }
{
    let (stamp, place) = read_number(line, place, 1, STAMPS_END)?;
    let (shard, place) = read_number(line, place, 0, 64)?;
    let (incarnation, place) = read_number(line, place, 0, ITEMS_END)?;
    let (item, place) = read_number(line, place, 0, ITEMS_END)?;
    let (request, place) = read_request(line, place)?;
    let (reply, place) = read_reply(line, place)?;
    let entry = Entry {
        stamp,
        shard: shard as u32,
        incarnation,
        item,
        request,
        reply,
    };
    Ok((entry, place))
}

/// The entry, where its line has no more fields.
fn ending_at(entry: Entry, line: &[u8], place: Place) -> Result<Entry, u64>
    ensures { result ≡ ending_at entry place.number (left_at line.now place.at) }
{
    if place.at <= line.len() {
        Err(place.number)
    } else {
        Ok(entry)
    }
}

#[tactic(auto, unfolding(crate::specs::Fields::request_in, crate::specs::Fields::request_of))]
fn read_request(line: &[u8], place: Place) -> Result<(Request, Place), u64>
    ensures { Gives (λ x. (x.0, fields_at line.now x.1)) result (request_in (fields_at line.now place)) }
{
    let (verb, place) = read_verb(line, place)?;
    let (key, place) = read_hex(line, place)?;
    let key = Key(key);
    match verb {
        Verb::Read => Ok((Request::Read { key }, place)),
        Verb::Put => {
            let (value, place) = read_hex(line, place)?;
            let value = Value(value);
            Ok((Request::PutIfAbsent { key, value }, place))
        }
        Verb::Replace => {
            let (version, place) = read_number(line, place, 1, STAMPS_END)?;
            let (value, place) = read_hex(line, place)?;
            let value = Value(value);
            Ok((
                Request::ReplaceIf {
                    key,
                    version,
                    value,
                },
                place,
            ))
        }
        Verb::Delete => {
            let (version, place) = read_number(line, place, 1, STAMPS_END)?;
            Ok((Request::DeleteIf { key, version }, place))
        }
    }
}

#[tactic(auto, unfolding(crate::specs::Fields::reply_in, crate::specs::Fields::reply_of))]
fn read_reply(line: &[u8], place: Place) -> Result<(Reply, Place), u64>
    ensures { Gives (λ x. (x.0, fields_at line.now x.1)) result (reply_in (fields_at line.now place)) }
{
    let (answer, place) = read_answer(line, place)?;
    match answer {
        Answer::Done => {
            let (version, place) = read_number(line, place, 1, STAMPS_END)?;
            Ok((Reply::Done(version), place))
        }
        Answer::Found => {
            let (value, place) = read_hex(line, place)?;
            let (version, place) = read_number(line, place, 1, STAMPS_END)?;
            Ok((Reply::Found(Value(value), version), place))
        }
        Answer::Absent => Ok((Reply::Absent, place)),
    }
}

/// A decimal from `least` on and below `end`.
#[tactic(auto, unfolding(crate::specs::Fields::field_in))]
fn read_number(line: &[u8], place: Place, least: u64, end: u64) -> Result<(u64, Place), u64>
    requires { end ≤ 2 ^ 62 }
    ensures value { Gives (λ x. (x.0, fields_at line.now x.1)) result
        (field_in (number_of least end) (fields_at line.now place)) }
    ensures below { IfOk result (λ x. x.0 < end) }
{
    let (field, behind) = next_field(line, place)?;
    match parse_number(field, least, end) {
        Some(number) => Ok((number, behind)),
        None => Err(place.number),
    }
}

/// 32 lower-case hexadecimal digits.
#[tactic(auto, unfolding(crate::specs::Fields::field_in))]
fn read_hex(line: &[u8], place: Place) -> Result<(u128, Place), u64>
    ensures { Gives (λ x. (x.0, fields_at line.now x.1)) result (field_in hex_number (fields_at line.now place)) }
{
    let (field, behind) = next_field(line, place)?;
    match parse_hex(field) {
        Some(number) => Ok((number, behind)),
        None => Err(place.number),
    }
}

#[tactic(auto, unfolding(crate::specs::Fields::field_in))]
fn read_verb(line: &[u8], place: Place) -> Result<(Verb, Place), u64>
    ensures { Gives (λ x. (x.0, fields_at line.now x.1)) result (field_in verb_of (fields_at line.now place)) }
{
    let (field, behind) = next_field(line, place)?;
    match parse_verb(field) {
        Some(verb) => Ok((verb, behind)),
        None => Err(place.number),
    }
}

#[tactic(auto, unfolding(crate::specs::Fields::field_in))]
fn read_answer(line: &[u8], place: Place) -> Result<(Answer, Place), u64>
    ensures { Gives (λ x. (x.0, fields_at line.now x.1)) result (field_in answer_of (fields_at line.now place)) }
{
    let (field, behind) = next_field(line, place)?;
    match parse_answer(field) {
        Some(answer) => Ok((answer, behind)),
        None => Err(place.number),
    }
}

/// The field at a place, and the place behind it.
fn next_field(line: &[u8], place: Place) -> Result<(&[u8], Place), u64>
    ensures { Gives (λ x. (x.0.now, fields_at line.now x.1)) result
        (first_of place.number (left_at line.now place.at)) }
{
    if place.at > line.len() {
        return Err(place.number);
    }
    let rest = &line[place.at..];
    let len = find(rest, b' ').unwrap_or(rest.len());
    let behind = Place {
        at: place.at + len + 1,
        number: place.number + 1,
    };
    Ok((&rest[..len], behind))
}

/// Where the byte first stands.
pub fn find(bytes: &[u8], byte: u8) -> Option<usize>
    ensures { MatchOption result (parts_at byte bytes.now ≡ bytes.now ∷ [])
        (λ at. (at < length bytes.now)
        × (parts_at byte bytes.now ≡ take at bytes.now ∷ parts_at byte (drop (at + 1) bytes.now))) }
{
    memchr(byte, bytes)
}

#[tactic(auto, unfolding(crate::specs::Fields::number_of))]
fn parse_number(field: &[u8], least: u64, end: u64) -> Option<u64>
    requires { end ≤ 2 ^ 62 }
    ensures value { result ≡ number_of least end field.now }
    ensures below { IfSome result (λ number. number < end) }
{
    if !is_decimal(field) || field.len() > MOST_DIGITS {
        return None;
    }
    let number = decimal_value(field);
    if least <= number && number < end {
        Some(number)
    } else {
        None
    }
}

/// Whether a field is one decimal digit or more, without a 0 before others.
fn is_decimal(field: &[u8]) -> bool
    ensures { result ≡ is_decimal field.now }
{
    match field.first() {
        None => false,
        Some(first) => (field.len() == 1 || *first > b'0') && are_digits(field),
    }
}

fn are_digits(field: &[u8]) -> bool
    ensures { result ≡ all_ascii_digits field.now }
{
    for byte in field {
        if !byte.is_ascii_digit() {
            return false;
        }
    }
    true
}

/// The number that some digits write.
fn decimal_value(field: &[u8]) -> u64
    requires digits { all_ascii_digits field.now ≡ true }
    requires few { length field.now ≤ 19 }
    ensures { result ≡ decimal_value 0 field.now }
{
    let mut number = 0;
    for byte in field {
        number = number * 10 + u64::from(*byte - b'0');
    }
    number
}

#[tactic(auto, unfolding(crate::specs::Fields::hex_number))]
fn parse_hex(field: &[u8]) -> Option<u128>
    ensures { result ≡ hex_number field.now }
{
    if field.len() != 32 {
        return None;
    }
    let mut number = 0;
    for byte in field {
        match hex_digit(*byte) {
            None => return None,
            Some(digit) => number = number * 16 + u128::from(digit),
        }
    }
    Some(number)
}

/// The number of a lower-case hexadecimal digit.
fn hex_digit(byte: u8) -> Option<u8>
    ensures value { result ≡ (if is_hex_digit byte then Some (hex_digit_value byte) else None) }
    ensures below { IfSome result (λ digit. digit < 16) }
{
    match byte {
        b'0'..=b'9' => Some(byte - b'0'),
        b'a'..=b'f' => Some(byte - b'a' + 10),
        _ => None,
    }
}

#[tactic(auto, unfolding(crate::specs::Fields::verb_of))]
fn parse_verb(field: &[u8]) -> Option<Verb>
    ensures { result ≡ verb_of field.now }
{
    if field == b"read".as_slice() {
        Some(Verb::Read)
    } else if field == b"put".as_slice() {
        Some(Verb::Put)
    } else if field == b"replace".as_slice() {
        Some(Verb::Replace)
    } else if field == b"delete".as_slice() {
        Some(Verb::Delete)
    } else {
        None
    }
}

#[tactic(auto, unfolding(crate::specs::Fields::answer_of))]
fn parse_answer(field: &[u8]) -> Option<Answer>
    ensures { result ≡ answer_of field.now }
{
    if field == b"done".as_slice() {
        Some(Answer::Done)
    } else if field == b"found".as_slice() {
        Some(Answer::Found)
    } else if field == b"absent".as_slice() {
        Some(Answer::Absent)
    } else {
        None
    }
}
