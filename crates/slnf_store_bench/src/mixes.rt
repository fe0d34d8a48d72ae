ghost use Rattle.std.specs.Prelude.{◌≡◌, ◌+◌, ◌/◌, ◌<◌, IfOk};

use rand_core::{Rng, SeedableRng};
use rand_xoshiro::SplitMix64;
use slnf_access::{Key, Reply, Request, Value};
use slnf_base::NoMemory;
use std::alloc::Global;
use std::marker::Model;

/// The generator's seed.
const SEED: u64 = 7;

/// The keys' numbers count up from here: those of UDP clients.
const FIRST_KEY: u128 = 0x0411 << 112;

/// How many accesses come to each key, on the average.
const ACCESSES_A_KEY: u32 = 8;

/// A fixed mix of accesses: of eight, four read, two put, one replaces and one deletes. The keys are drawn, and
/// the versions are those that the replies told last.
#[derive(Drop)]
pub struct Mix {
    words: SplitMix64,
    versions: Vec<u64>,
}

// A mix is seen as the number of its keys.
impl Model for Mix {
    ghost use Rattle.std.specs.Prelude.{ℕ, ◌<◌, vec_len};

    ghost Value = { ℕ };

    ghost view = { λ mix. vec_len mix.versions };

    ghost invariant = { λ mix. 0 < vec_len mix.versions };
}

/// An access of the mix, and its key's place.
#[derive(Clone, Copy, Debug)]
pub struct Draw {
    pub place: usize,
    pub request: Request,
}

impl Mix {
    /// The mix for so many accesses.
    pub fn make(alloc: Global, accesses: u32) -> Result<Mix, NoMemory>
        ensures { IfOk result (λ mix. mix ≡ accesses / 8 + 1) }
    {
        let keys = accesses / ACCESSES_A_KEY + 1;
        Ok(Mix {
            words: SplitMix64::seed_from_u64(SEED),
            versions: vec![in alloc; 0; keys as usize]?,
        })
    }

    /// The next access.
    pub fn next(&mut self) -> Draw
        ensures place { result.place < self.old }
        ensures keys { self.new ≡ self.old }
    {
        let word = self.words.next_u64();
        let place = ((word >> 32) % self.versions.len() as u64) as usize;
        let version = self.versions[place];
        // One access of eight names an older version.
        let named = if (word >> 3) % 8 == 0 {
            version / 2
        } else {
            version
        };
        Draw {
            place,
            request: request(word, Key(FIRST_KEY + place as u128), named),
        }
    }

    /// Keeps the version that the reply tells.
    pub fn told(&mut self, place: usize, reply: Reply)
        requires { place < self.old }
        ensures { self.new ≡ self.old }
    {
        self.versions[place] = match reply {
            Reply::Done(stamp) => stamp,
            Reply::Found(_, version) => version,
            Reply::Absent => 0,
        };
    }
}

/// The access that the lowest bits of a word stand for.
fn request(word: u64, key: Key, version: u64) -> Request {
    let value = Value(u128::from(word));
    match word % 8 {
        0..=3 => Request::Read { key },
        4 | 5 => Request::PutIfAbsent { key, value },
        6 => Request::ReplaceIf {
            key,
            version,
            value,
        },
        _ => Request::DeleteIf { key, version },
    }
}
