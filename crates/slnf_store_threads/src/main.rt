//! A measure of the shared store: rounds of accesses by several threads, and a checksum of what they were told.
#![tactic(auto)]

mod callers;
mod draws;
mod loads;
mod rounds;
mod runs;
mod sums;
mod turns;

use crate::loads::{FEWEST_KEYS, Load, MOST_CALLERS, MOST_OF_TURN, MOST_SHARDS};
use crate::runs::{count, run};
use anyhow::{Context, Result, bail};
use std::env;
use std::hash::RandomState;

/// The keys where no word says how many.
const KEYS: u32 = 16_384;

/// What is run where no words say otherwise.
const SMALL: Load = Load {
    callers: 4,
    shards: 8,
    rounds: 1000,
    turn: 1,
    keys: KEYS,
};

fn main(rt: HostRuntime) -> Result<()> {
    let words: Vec<String> = env::args(&rt)?.skip(1).collect(rt.alloc())?;
    let load = load_of_words(words.as_slice())?;
    let ran = run(&rt, rt.alloc(), RandomState::new(&rt)?, load)?;
    let sum = ran.sum;
    let accesses = count(ran.histories.as_slice());
    let nanoseconds = ran.time.as_nanos();
    eprintln!(rt; "nanoseconds {nanoseconds}")?;
    println!(rt; "accesses {accesses} checksum {sum:016x}")?;
    Ok(())
}

fn load_of_words(words: &[String]) -> Result<Load> {
    match words {
        [] => Ok(SMALL),
        [callers, shards, rounds] => {
            load_of(number(callers)?, number(shards)?, number(rounds)?, 1, KEYS)
        }
        [callers, shards, rounds, turn] => load_of(
            number(callers)?,
            number(shards)?,
            number(rounds)?,
            number(turn)?,
            KEYS,
        ),
        [callers, shards, rounds, turn, keys] => load_of(
            number(callers)?,
            number(shards)?,
            number(rounds)?,
            number(turn)?,
            number(keys)?,
        ),
        _ => bail!(
            "no words, or three to five: the threads, the shards, each thread's rounds, the accesses of a turn, the keys"
        ),
    }
}

fn number(word: &String) -> Result<u32> {
    word.as_str().parse::<u32>().context("a number")
}

fn load_of(callers: u32, shards: u32, rounds: u32, turn: u32, keys: u32) -> Result<Load> {
    if callers == 0 || callers > MOST_CALLERS {
        bail!("1 to 64 threads");
    }
    if shards == 0 || shards > MOST_SHARDS {
        bail!("1 to 64 shards");
    }
    if turn == 0 || turn > MOST_OF_TURN {
        bail!("1 to 32 accesses of a turn");
    }
    if keys < FEWEST_KEYS {
        bail!("at least 4,096 keys");
    }
    Ok(Load {
        callers,
        shards,
        rounds,
        turn,
        keys,
    })
}
