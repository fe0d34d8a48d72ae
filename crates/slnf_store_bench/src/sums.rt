ghost use Rattle.std.specs.Prelude.{◌≡◌};
ghost use Rattle.slnf_store_bench.specs.Sums.{no_sum, with_number, with_reply, with_entries};

use slnf_access::{Entry, Reply};

/// The checksum of no numbers, and what each number multiplies it by: those of FNV-1a with 64 bits.
const START: u64 = 0xcbf2_9ce4_8422_2325;

const PRIME: u64 = 0x0000_0100_0000_01b3;

/// The checksum of accesses: of their stamps, shards and replies.
pub fn sum(entries: &[Entry]) -> u64
    ensures { result ≡ with_entries no_sum entries.now }
{
    let mut sum = START;
    for entry in entries {
        sum = with_reply(
            with(with(sum, entry.stamp), u64::from(entry.shard)),
            entry.reply,
        );
    }
    sum
}

/// The checksum with one number more.
fn with(sum: u64, number: u64) -> u64
    ensures { result ≡ with_number sum number }
{
    (sum ^ number).wrapping_mul(PRIME)
}

/// The checksum with a reply more.
fn with_reply(sum: u64, reply: Reply) -> u64
    ensures { result ≡ with_reply sum reply }
{
    match reply {
        Reply::Done(stamp) => with(with(sum, 1), stamp),
        Reply::Found(value, version) => {
            let low = value.0 % (1 << 64);
            with(with(with(sum, 2), low as u64), version)
        }
        Reply::Absent => with(sum, 3),
    }
}
