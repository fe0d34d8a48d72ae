//! A measure of the store's parts: so many accesses to eight buckets, their histories merged, and a checksum.
#![tactic(auto)]

ghost use Rattle.std.specs.Prelude.{◌<◌, ◌^◌, IfOk};
ghost use Rattle.slnf_access.specs.Map.{IsLegal};
ghost use Rattle.slnf_access.specs.Order.{InOrder};

mod mixes;
mod sums;

use crate::mixes::Mix;
use anyhow::{Context, Result, bail};
use slnf_access::Entry;
use slnf_base::Row;
use slnf_shards::Shards;
use std::alloc::Global;
use std::env;
use std::hash::RandomState;

const SHARDS: u32 = 8;

/// The accesses where no word says another number.
const FEW: u32 = 1000;

/// Who makes accesses: the number that the entries name, and the stamp of its last access.
#[derive(Clone, Copy, Debug)]
struct Caller {
    incarnation: u64,
    clock: u64,
    ghost in_range: { clock < 2 ^ 62 },
}

fn main(rt: HostRuntime) -> Result<()> {
    let words: Vec<String> = env::args(&rt)?.skip(1).collect(rt.alloc())?;
    let accesses = match words.as_slice() {
        [] => FEW,
        [word] => word
            .as_str()
            .parse::<u32>()
            .context("the number of accesses")?,
        _ => bail!("at most one word: the number of accesses"),
    };
    let merged = merged_accesses(rt.alloc(), RandomState::new(&rt)?, accesses)?;
    let count = merged.len();
    let sum = sums::sum(merged.as_slice());
    println!(rt; "accesses {count} checksum {sum:016x}")?;
    Ok(())
}

/// So many accesses of the mix by four callers in turn, merged.
fn merged_accesses(alloc: Global, state: RandomState, accesses: u32) -> Result<Row<Entry>>
    ensures in_order { IfOk result InOrder }
    ensures legal { IfOk result IsLegal }
{
    let mut shards = Shards::make(alloc, state, SHARDS)?;
    let mut mix = Mix::make(alloc, accesses)?;
    let mut callers = vec![in alloc;
        fresh_caller(0),
        fresh_caller(1),
        fresh_caller(2),
        fresh_caller(3),
    ]?;
    for item in 0..accesses {
        let draw = mix.next();
        let caller = &mut callers[item as usize % 4];
        let (reply, stamp) = shards.access(
            caller.incarnation,
            u64::from(item),
            caller.clock,
            draw.request,
        )?;
        caller.clock = stamp;
        mix.told(draw.place, reply);
    }
    Ok(shards.journal(alloc)?)
}

/// A caller before any access.
fn fresh_caller(incarnation: u64) -> Caller {
    Caller {
        incarnation,
        clock: 0,
    }
}
