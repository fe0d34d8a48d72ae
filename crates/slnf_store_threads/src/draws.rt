ghost use Rattle.std.specs.Prelude.{◌<◌, ◌≤◌};

use crate::loads::Load;
use rand_core::{Rng, SeedableRng};
use rand_xoshiro::SplitMix64;
use slnf_access::{Key, Reply, Request, Value};

/// The keys' numbers count up from here: those of UDP clients.
const FIRST_KEY: u128 = 0x0411 << 112;

/// The rounds of one caller, which has keys of its own, so that it is told the same whatever the others do.
#[derive(Drop)]
pub struct Draws {
    words: SplitMix64,
    caller: u64,
    keys: u64,
    ghost some: { 64 ≤ keys },
}

/// A key, and the word that says what becomes of it.
#[derive(Clone, Copy, Debug)]
pub struct Draw {
    pub key: Key,
    pub word: u64,
}

impl Draws {
    /// The rounds of a caller of this load.
    pub(crate) fn of(caller: u64, load: Load) -> Draws {
        Draws {
            words: SplitMix64::seed_from_u64(caller),
            caller,
            keys: u64::from(load.keys / load.callers),
        }
    }

    /// The next round.
    pub(crate) fn next(&mut self) -> Draw {
        let word = self.words.next_u64();
        let place = (word >> 32) % self.keys;
        let key = FIRST_KEY + (u128::from(self.caller) << 32) + u128::from(place);
        Draw {
            key: Key(key),
            word,
        }
    }
}

impl Draws {
    /// The shard of the next keys that are to be of one, as a number that their places leave over the count of shards.
    pub(crate) fn next_left(&mut self, shards: u32) -> u64
        requires { (0 < shards) × (shards ≤ 64) }
    {
        self.words.next_u64() % u64::from(shards)
    }

    /// The next round at a place that leaves so much, so that all keys of one `left` are of one shard.
    pub(crate) fn next_at(&mut self, left: u64, shards: u32) -> Draw
        requires { (0 < shards) × (shards ≤ 64) }
    {
        let word = self.words.next_u64();
        let shards = u64::from(shards);
        let place = (word >> 32) % (self.keys / shards);
        let first = FIRST_KEY + (u128::from(self.caller) << 32) + u128::from(left);
        let key = first + u128::from(place) * u128::from(shards);
        Draw {
            key: Key(key),
            word,
        }
    }
}

impl Draw {
    /// The look at the key.
    pub(crate) fn look(self) -> Request {
        Request::Read { key: self.key }
    }

    /// What is written after the look: an absent key is put, and of eight that are found one is deleted and one replaced.
    pub(crate) fn write(self, reply: Reply) -> Option<Request> {
        let Draw { key, word } = self;
        let value = Value(u128::from(word));
        match (reply, word % 8) {
            (Reply::Absent, _) => Some(Request::PutIfAbsent { key, value }),
            (Reply::Found(_, version), 0) => Some(Request::DeleteIf { key, version }),
            (Reply::Found(_, version), 1) => Some(Request::ReplaceIf {
                key,
                version,
                value,
            }),
            _ => None,
        }
    }
}
