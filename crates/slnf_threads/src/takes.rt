//! The replies of one turn.
ghost use Rattle.std.specs.Prelude.{◌≡◌, ◌++◌, List};
ghost use Rattle.slnf_access.specs.declared.requests.Entry.{Entry};
ghost use Rattle.slnf_run.specs.Jobs.{Job};
ghost use Rattle.slnf_instance.specs.Instances.{StandsBy};
ghost use Rattle.slnf_threads.specs.Takes.{IsWord, left_at, CanTake};
ghost use Rattle.slnf_threads.specs.Worked.{IsWorked};

use slnf_access::Reply;
use slnf_instance::{Instance, Items};

/// How many accesses of at most `most` in one turn are left up to a stop to an actor that has made so many.
pub(crate) fn left_at(most: usize, stop: Option<u64>, made: u64) -> usize
    ensures left { result ≡ left_at most stop made }
    ensures word { IsWord stop }
{
    match stop {
        None => most,
        Some(stop) => stop.saturating_sub(made).min(most as u64) as usize,
    }
}

/// Takes the replies to the actor's next accesses, in order.
pub(crate) fn take_replies<T: Items>(instance: &mut Instance<'_, T>, replies: &[Reply])
    requires { (job : Job T.Flight) × (own : List Entry) × (more : List Entry)
        × CanTake T.work job own instance.old replies.now more }
    ensures errand { instance.new.errand ≡ instance.old.errand }
    ensures taken { (job : Job T.Flight) (own more : List Entry)
        → CanTake T.work job own instance.old replies.now more
        → StandsBy T.work job (own ++ more) instance.new × IsWorked job own more }
{
    for reply in replies {
        let _wanted = instance.wanted();
        instance.answered(*reply);
    }
}
