ghost use Rattle.std.specs.Prelude.{◌≡◌, ◌+◌, ◌-◌, ◌^◌, ◌<◌, ◌≤◌};
ghost use Rattle.slnf_run.specs.Jobs.{within_quota};
ghost use Rattle.slnf_instance.specs.Errands.{IsErrand};

/// What an actor is sent to do: to take the items from `at` up to `end`, in batches of at most `batch`, over a store
/// with so many shards. It may have a quota of items, and a stop after so many accesses.
#[derive(Clone, Copy, Debug)]
pub struct Errand {
    pub at: usize,
    pub end: usize,
    pub batch: usize,
    pub shards: u32,
    pub quota: Option<u64>,
    pub stop: Option<u64>,
}

impl Errand {
    /// The errand of an actor that takes so many items from number `at` on, within its quota.
    pub fn over(
        items: usize,
        at: usize,
        batch: usize,
        shards: u32,
        quota: Option<u64>,
        stop: Option<u64>,
    ) -> Errand
        requires few { items < 2 ^ 32 }
        requires at { at ≤ items }
        requires batch { 0 < batch }
        requires most { batch ≤ 32 }
        requires shards { 0 < shards }
        ensures errand { IsErrand items result }
        ensures given { result ≡ record {
          at = at;
          end = at + within_quota quota (items - at);
          batch = batch;
          shards = shards;
          quota = quota;
          stop = stop;
        } }
    {
        Errand {
            at,
            end: at + within_quota(quota, items - at),
            batch,
            shards,
            quota,
            stop,
        }
    }
}

/// At most so many, where there is a quota.
fn within_quota(quota: Option<u64>, count: usize) -> usize
    ensures { result ≡ within_quota quota count }
{
    match quota {
        None => count,
        Some(quota) => {
            if quota < count as u64 {
                quota as usize
            } else {
                count
            }
        }
    }
}
