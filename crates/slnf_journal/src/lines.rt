ghost use Rattle.std.specs.Prelude.{◌≡◌, ◌/◌, ◌%◌, ◌<◌, ◌^◌, [], ◌∷◌, ◌++◌, length, OnOk, OnErr, decimal};
ghost use Rattle.slnf_journal.specs.Words.{hex_digit, hex_text, pair_text};

use itoa::{Buffer, Integer};
use slnf_base::{NoMemory, Pair};
use std::alloc::Global;
use std::marker::Model;

/// A text under way, which contracts see as its bytes. After `NoMemory` a front of what was to be added may
/// have been added.
#[derive(Debug, Drop)]
pub struct Lines {
    bytes: Vec<u8>,
}

impl Model for Lines {
    ghost use Rattle.std.specs.Prelude.{ℕ, List};

    ghost Value = { List ℕ };

    ghost view = { λ lines. lines.bytes.items };
}

impl Lines {
    pub fn new(alloc: Global) -> Lines
        ensures { result ≡ [] }
    {
        Lines {
            bytes: Vec::new(alloc),
        }
    }

    pub fn into_bytes(self) -> Vec<u8>
        ensures { result.items ≡ self }
    {
        let Lines { bytes } = self;
        bytes
    }

    /// Adds a word as it stands.
    pub fn push_word(&mut self, word: &[u8]) -> Result<(), NoMemory>
        ensures { OnOk result (self.new ≡ self.old ++ word.now) }
    {
        self.bytes.extend_from_slice(word)?;
        Ok(())
    }

    /// Adds a number in decimals.
    pub fn push_decimal<I: Integer>(&mut self, number: I) -> Result<(), NoMemory>
        ensures { OnOk result (self.new ≡ self.old ++ I.text number) }
    {
        let mut buffer = Buffer::new();
        self.push_word(buffer.format(number).as_bytes())
    }

    /// Adds a number in 32 hexadecimal digits.
    pub fn push_hex(&mut self, number: u128) -> Result<(), NoMemory>
        ensures { OnOk result (self.new ≡ self.old ++ hex_text 32 number) }
    {
        let mut digits = [0; 32];
        fill_hex(&mut digits, number);
        self.push_word(&digits)
    }

    /// Adds four decimals, a colon and the port.
    #[tactic(auto, unfolding(crate::specs::Words::pair_text))]
    pub fn push_pair(&mut self, pair: Pair) -> Result<(), NoMemory>
        ensures { OnOk result (self.new ≡ self.old ++ pair_text pair) }
    {
        self.push_decimal(pair.addr / 16_777_216)?;
        self.push_word(b".")?;
        self.push_decimal(pair.addr / 65536 % 256)?;
        self.push_word(b".")?;
        self.push_decimal(pair.addr / 256 % 256)?;
        self.push_word(b".")?;
        self.push_decimal(pair.addr % 256)?;
        self.push_word(b":")?;
        self.push_decimal(pair.port)
    }
}

/// The hexadecimal digit of a number below 16.
fn hex_digit(number: u8) -> u8
    requires { number < 16 }
    ensures { result ≡ hex_digit number }
{
    if number < 10 {
        b'0' + number
    } else {
        b'a' + (number - 10)
    }
}

/// Fills the slice with the number's lowest hexadecimal digits, the highest first.
fn fill_hex(digits: &mut [u8], number: u128)
    ensures { digits.new ≡ hex_text (length digits.old) number }
{
    let mut left = number;
    let mut place = digits.len();
    while place > 0 {
        place -= 1;
        digits[place] = hex_digit((left % 16) as u8);
        left /= 16;
    }
}
