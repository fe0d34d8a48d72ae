//! How many packets nobody took.
ghost use Rattle.std.specs.Prelude.{◌≡◌, ◌<◌, ◌≤◌, ◌^◌, length};
ghost use Rattle.slnf_run.specs.Verdicts.{is_left, left_of, left_in};

use slnf_base::{Row, Verdict};

/// How many packets of all lanes are left.
pub fn left_in(lanes: &[Row<Verdict>]) -> u64
    requires { left_in lanes.now < 2 ^ 64 }
    ensures { result ≡ left_in lanes.now }
{
    let mut count = 0;
    for verdicts in lanes {
        count += left_of(verdicts.as_slice()) as u64;
    }
    count
}

/// How many packets of a lane are left.
fn left_of(verdicts: &[Verdict]) -> usize
    ensures is { result ≡ left_of verdicts.now }
    ensures most { result ≤ length verdicts.now }
{
    let mut count = 0;
    for verdict in verdicts {
        if is_left(verdict) {
            count += 1;
        }
    }
    count
}

/// Whether the packet is left.
fn is_left(verdict: &Verdict) -> bool
    ensures { result ≡ is_left verdict.now }
{
    match verdict {
        Verdict::Emit(_) => false,
        Verdict::Dropped(_) => false,
        Verdict::Lost => false,
        Verdict::Left => true,
    }
}
