ghost use Rattle.std.specs.Prelude.{◌≡◌, ◌≤◌, ◌+◌, map, None, Some, option_map, IfSome, string_bytes};
ghost use Rattle.std.specs.Str.{all_ascii_digits};
ghost use Rattle.std.specs.List.{list_all};
ghost use Rattle.slnf_journal.specs.Fields.{is_decimal, within, number_of};
ghost use Rattle.slnf_top.specs.Words.{is_proper, are_captures, plan_words_of, load_of, Run, plain_command_named, plain_command_of, command_of, plan_named, spelled};

use crate::forms::{CommandWords, LoadWords, PlanWords};

/// Whether a word may name a file: it isn't empty, and doesn't begin with `-`.
fn is_proper(word: &str) -> bool
    ensures { result ≡ is_proper word.now }
{
    match word.as_bytes().first() {
        None => false,
        Some(first) => *first != b'-',
    }
}

/// Whether each of the words may name a file.
fn all_proper(words: &[String]) -> bool
    ensures { result ≡ list_all is_proper (map string_bytes words.now) }
{
    for word in words {
        if !is_proper(word.as_str()) {
            return false;
        }
    }
    true
}

/// Whether there are 1 to 32 words, each of which may name a file.
fn are_captures(words: &[String]) -> bool
    ensures { result ≡ are_captures (map string_bytes words.now) }
{
    1 <= words.len() && words.len() <= 32 && all_proper(words)
}

/// The words PLAN OUT IN.., where these are such.
fn plan_words(words: &[String]) -> Option<PlanWords<'_>>
    ensures { option_map plan_named result ≡ plan_words_of (map string_bytes words.now) }
{
    match words {
        [plan, out, captures @ ..] => {
            let plan = plan.as_str();
            let out = out.as_str();
            if is_proper(plan) && is_proper(out) && are_captures(captures) {
                Some(PlanWords {
                    plan,
                    out,
                    captures,
                })
            } else {
                None
            }
        }
        _ => None,
    }
}

/// Whether each byte is a decimal digit.
fn are_digits(word: &[u8]) -> bool
    ensures { result ≡ all_ascii_digits word.now }
{
    for byte in word {
        if !byte.is_ascii_digit() {
            return false;
        }
    }
    true
}

/// Whether a word is one decimal digit or more, without a 0 before others.
fn is_decimal(word: &[u8]) -> bool
    ensures { result ≡ is_decimal word.now }
{
    match word.first() {
        None => false,
        Some(first) => (word.len() == 1 || *first > b'0') && are_digits(word),
    }
}

/// The number of this range that a word is the decimal of.
fn number_of(word: &str, least: u64, most: u64) -> Option<u64>
    ensures value { result ≡ number_of least (most + 1) word.now }
    ensures at_least { IfSome result (λ number. least ≤ number) }
    ensures at_most { IfSome result (λ number. number ≤ most) }
{
    if !is_decimal(word.as_bytes()) {
        return None;
    }
    match word.parse::<u64>() {
        Ok(number) => within(least, most, number),
        Err(_) => None,
    }
}

/// The number, where it is in this range.
fn within(least: u64, most: u64, number: u64) -> Option<u64>
    ensures value { result ≡ within least (most + 1) number }
    ensures at_least { IfSome result (λ number. least ≤ number) }
    ensures at_most { IfSome result (λ number. number ≤ most) }
{
    if least <= number && number <= most {
        Some(number)
    } else {
        None
    }
}

/// The words of `load`, where they are NUMBER LANES PACKETS.
fn load_words(words: &[String]) -> Option<CommandWords<'static>>
    ensures { option_map spelled result ≡ load_of (map string_bytes words.now) }
{
    match words {
        [number, lanes, packets] => {
            let number = number_of(number.as_str(), 0, u64::MAX)?;
            let lanes = number_of(lanes.as_str(), 1, 32)? as u32;
            let packets = number_of(packets.as_str(), 1, 32_768)? as u32;
            Some(CommandWords::Load(LoadWords {
                number,
                lanes,
                packets,
            }))
        }
        _ => None,
    }
}

/// The words of the command that has this name, but `run`, where those behind it are of its form.
fn words_behind<'a>(name: &str, words: &'a [String]) -> Option<CommandWords<'a>>
    ensures { option_map spelled result ≡ plain_command_named name.now (map string_bytes words.now) }
{
    if name == "step" {
        Some(CommandWords::Step(plan_words(words)?))
    } else if name == "check" {
        Some(CommandWords::Check(plan_words(words)?))
    } else if name == "box" {
        Some(CommandWords::Box(plan_words(words)?))
    } else if name == "load" {
        load_words(words)
    } else {
        None
    }
}

/// The command of the words, where `run` is none and they are of a form.
pub fn plain_command_words(words: &[String]) -> Option<CommandWords<'_>>
    ensures { option_map spelled result ≡ plain_command_of (map string_bytes words.now) }
{
    match words {
        [] => None,
        [name, rest @ ..] => words_behind(name.as_str(), rest),
    }
}

/// The words behind `run`, where they are of its form.
pub fn run_words(words: &[String]) -> Option<PlanWords<'_>>
    ensures run { IfSome result (λ behind. command_of (map string_bytes words.now) ≡ Some (Run (plan_named behind))) }
    ensures plain { result ≡ None
        → command_of (map string_bytes words.now) ≡ plain_command_of (map string_bytes words.now) }
{
    match words {
        [] => None,
        [name, rest @ ..] => {
            if name.as_str() == "run" {
                plan_words(rest)
            } else {
                None
            }
        }
    }
}
