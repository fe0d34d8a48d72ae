ghost use Rattle.std.specs.Prelude.{◌≡◌};
ghost use Rattle.slnf_run.specs.Jobs.{is_stop, within_quota, counted};
ghost use Rattle.std.specs.Prelude.{length};

use slnf_access::Entry;

/// What an actor is to do: to take `count` packets of its lane from `at` on, in batches of at most so many. It
/// may stop after so many accesses.
#[derive(Clone, Copy, Debug)]
pub(crate) struct Task {
    pub(crate) at: usize,
    pub(crate) count: usize,
    pub(crate) batch: usize,
    pub(crate) stop: Option<u64>,
}

/// At most so many, where there is a quota.
pub(crate) fn within_quota(quota: Option<u64>, count: usize) -> usize
    ensures { result ≡ within_quota quota count }
{
    match quota {
        None => count,
        Some(quota) => {
            if quota < count as u64 {
                quota as usize
            } else {
                count
            }
        }
    }
}

/// Whether an actor with this stop and these entries was stopped.
pub(crate) fn is_stopped(stop: Option<u64>, part: &[Entry]) -> bool
    ensures { result ≡ is_stop stop (length part.now) }
{
    match stop {
        None => false,
        Some(stop) => part.len() as u64 == stop,
    }
}

/// The entries of an actor that count: the last access of one that was stopped gives no verdict.
pub(crate) fn counted(stop: Option<u64>, part: &[Entry]) -> &[Entry]
    ensures { result.now ≡ counted (is_stop stop (length part.now)) part.now }
{
    if is_stopped(stop, part) {
        &part[..part.len().saturating_sub(1)]
    } else {
        part
    }
}
