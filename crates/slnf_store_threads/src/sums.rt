ghost use Rattle.std.specs.Prelude.{◌≡◌};
ghost use Rattle.slnf_store_threads.specs.Sums.{with_reply};

use slnf_access::Reply;

const FACTOR: u64 = 31;

/// The checksum with one reply more. Stamps and versions hang on the order in which threads come, and are left out.
pub fn with_reply(sum: u64, reply: Reply) -> u64
    ensures { result ≡ with_reply sum reply }
{
    let told = match reply {
        Reply::Done(_) => 1,
        Reply::Found(value, _) => (value.0 % (1 << 64)) as u64,
        Reply::Absent => 2,
    };
    sum.wrapping_mul(FACTOR).wrapping_add(told)
}
