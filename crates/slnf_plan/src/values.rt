//! The kinds of single values: texts, words, whole numbers and truth values.
ghost use Rattle.std.specs.Prelude.{◌≡◌, ℕ, Bool, map};
ghost use Rattle.slnf_base.specs.declared.addresses.Pair.{Pair};
ghost use Rattle.slnf_plan.specs.declared.refusal.Cause.TheVariants.{BadAddress, BadPrefix, OutOfRange};
ghost use Rattle.slnf_plan.specs.Plain.{PlainPrefix, plain_prefix};
ghost use Rattle.slnf_plan.specs.Tables.{text, meaning_in, one_of, number, truth};
ghost use Rattle.slnf_plan.specs.Values.{apart_from, whole, in_order, two_ports, ports};
ghost use Rattle.slnf_plan.specs.Refusals.{Gives};
ghost use Rattle.toml.specs.View.{view, items_view};
ghost use Rattle.slnf_plan.specs.Texts.{address_of, pair_of, prefix_of};

use crate::kinds::{Kind, under};
use crate::refusal::{Cause, Fault};
use crate::texts;
use slnf_base::{Pair, Prefix};
use std::alloc::Global;
use toml::Value;

/// A text that is a prefix.
#[derive(Drop)]
pub(crate) struct PrefixText;

impl Kind for PrefixText {
    type Item = Prefix;

    ghost Plain = { PlainPrefix };

    ghost plain = { plain_prefix };

    ghost reads = { λ _ d. text BadPrefix prefix_of d };

    fn read(&self, _alloc: Global, value: &Value) -> Result<Prefix, Fault> {
        match value.as_str() {
            None => Err(Fault::of(Cause::WrongType)),
            Some(text) => match texts::prefix(text.as_bytes()) {
                None => Err(Fault::of(Cause::BadPrefix)),
                Some(prefix) => Ok(prefix),
            },
        }
    }
}

/// A text that is a pair.
#[derive(Drop)]
pub(crate) struct PairText;

impl Kind for PairText {
    type Item = Pair;

    ghost Plain = { Pair };

    ghost plain = { λ pair. pair };

    ghost reads = { λ _ d. text BadAddress pair_of d };

    fn read(&self, _alloc: Global, value: &Value) -> Result<Pair, Fault> {
        match value.as_str() {
            None => Err(Fault::of(Cause::WrongType)),
            Some(text) => match texts::pair(text.as_bytes()) {
                None => Err(Fault::of(Cause::BadAddress)),
                Some(pair) => Ok(pair),
            },
        }
    }
}

/// A text that is an address outside of a prefix.
#[derive(Drop)]
pub(crate) struct OutsideText {
    pub inside: Prefix,
}

impl Kind for OutsideText {
    type Item = u32;

    ghost Plain = { ℕ };

    ghost plain = { λ addr. addr };

    ghost reads = { λ kind d. text BadAddress (λ s. apart_from (plain_prefix kind.inside) (address_of s)) d };

    fn read(&self, _alloc: Global, value: &Value) -> Result<u32, Fault> {
        match value.as_str() {
            None => Err(Fault::of(Cause::WrongType)),
            Some(text) => match texts::address(text.as_bytes()) {
                None => Err(Fault::of(Cause::BadAddress)),
                Some(addr) => {
                    if self.inside.contains(addr) {
                        Err(Fault::of(Cause::BadAddress))
                    } else {
                        Ok(addr)
                    }
                }
            },
        }
    }
}

/// A text that is one of these words, each beside what it stands for.
#[derive(Drop)]
pub(crate) struct OneOf<'a, T> {
    pub words: &'a [(&'a str, T)],
}

impl<T: Copy> Kind for OneOf<'_, T> {
    type Item = T;

    ghost Plain = { T };

    ghost plain = { λ item. item };

    ghost reads = { λ kind d. one_of (map (λ w. (w.0.now, w.1)) kind.words.now) d };

    fn read(&self, _alloc: Global, value: &Value) -> Result<T, Fault> {
        match value.as_str() {
            None => Err(Fault::of(Cause::WrongType)),
            Some(word) => match meaning_in(self.words, word) {
                None => Err(Fault::of(Cause::OutOfRange)),
                Some(meaning) => Ok(meaning),
            },
        }
    }
}

// What stands beside the word.
fn meaning_in<T: Copy>(words: &[(&str, T)], word: &str) -> Option<T>
    ensures { result ≡ meaning_in (map (λ w. (w.0.now, w.1)) words.now) word.now }
{
    for (listed, meaning) in words {
        if *listed == word {
            return Some(*meaning);
        }
    }
    None
}

/// A whole number from `low` on and below `end`, or else this rule is broken.
#[derive(Drop)]
pub(crate) struct Number {
    pub cause: Cause,
    pub low: u32,
    pub end: u32,
}

impl Kind for Number {
    type Item = u32;

    ghost Plain = { ℕ };

    ghost plain = { λ n. n };

    ghost reads = { λ kind d. number kind.cause kind.low kind.end d };

    fn read(&self, _alloc: Global, value: &Value) -> Result<u32, Fault> {
        let number = match value.as_integer() {
            None => return Err(Fault::of(Cause::WrongType)),
            Some(number) => number,
        };
        let (low, end) = (self.low, self.end);
        match u32::try_from(number) {
            Ok(n) if low <= n && n < end => Ok(n),
            _ => Err(Fault::of(self.cause)),
        }
    }
}

/// A whole number from 0 on and below `end`.
#[derive(Drop)]
pub(crate) struct LongNumber {
    pub end: u64,
}

impl Kind for LongNumber {
    type Item = u64;

    ghost Plain = { ℕ };

    ghost plain = { λ n. n };

    ghost reads = { λ kind d. number OutOfRange 0 kind.end d };

    fn read(&self, _alloc: Global, value: &Value) -> Result<u64, Fault> {
        let number = match value.as_integer() {
            None => return Err(Fault::of(Cause::WrongType)),
            Some(number) => number,
        };
        let end = self.end;
        match u64::try_from(number) {
            Ok(n) if n < end => Ok(n),
            _ => Err(Fault::of(Cause::OutOfRange)),
        }
    }
}

/// A truth value.
#[derive(Drop)]
pub(crate) struct Truth;

impl Kind for Truth {
    type Item = bool;

    ghost Plain = { Bool };

    ghost plain = { λ b. b };

    ghost reads = { λ _ d. truth d };

    fn read(&self, _alloc: Global, value: &Value) -> Result<bool, Fault> {
        match value.as_bool() {
            None => Err(Fault::of(Cause::WrongType)),
            Some(b) => Ok(b),
        }
    }
}

/// A list of two ports in order, the first from `least` on.
#[derive(Drop)]
pub(crate) struct Ports {
    pub least: u16,
}

impl Kind for Ports {
    type Item = (u16, u16);

    ghost Plain = { ℕ × ℕ };

    ghost plain = { λ p. (p.0, p.1) };

    ghost reads = { λ kind d. ports kind.least d };

    fn read(&self, alloc: Global, value: &Value) -> Result<(u16, u16), Fault> {
        match value.as_array() {
            None => Err(Fault::of(Cause::WrongType)),
            Some(items) => two_ports(alloc, self.least, items.as_slice()),
        }
    }
}

// Both are numbers before their range is tried.
fn two_ports(alloc: Global, least: u16, items: &[Value]) -> Result<(u16, u16), Fault>
    ensures { Gives (λ p. (p.0, p.1)) result (two_ports least (items_view items.now)) }
{
    match items {
        [] => Err(Fault::of(Cause::WrongType)),
        [_] => Err(Fault::of(Cause::WrongType)),
        [low, high] => {
            let low = under(alloc, "0", whole(low))?;
            let high = under(alloc, "1", whole(high))?;
            two_in_order(least, low, high)
        }
        [_, _, _, ..] => Err(Fault::of(Cause::WrongType)),
    }
}

fn whole(value: &Value) -> Result<i64, Fault>
    ensures { Gives (λ z. z) result (whole (view value.now)) }
{
    match value.as_integer() {
        None => Err(Fault::of(Cause::WrongType)),
        Some(number) => Ok(number),
    }
}

fn two_in_order(least: u16, low: i64, high: i64) -> Result<(u16, u16), Fault>
    ensures { Gives (λ p. (p.0, p.1)) result (in_order least low high) }
{
    match (u16::try_from(low), u16::try_from(high)) {
        (Ok(low), Ok(high)) if least <= low && low <= high => Ok((low, high)),
        _ => Err(Fault::of(Cause::OutOfRange)),
    }
}
