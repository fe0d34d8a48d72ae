//! The laws of the shards: they stand as the contract of a function that does nothing.
ghost use Rattle.slnf_run.specs.Setting.{Setting};
ghost use Rattle.slnf_shards.specs.Parts.{BeginAsParts, StayParts, MakesAsScheduled, StaysWithin, HasGreatest, IsFirstClock};

/// The histories stay the parts of the list that the accesses make, and each access is the schedule's: its entry by
/// the actor's clock, and by the greatest stamp of all where an epoch begins. While there are fewer accesses than stamps,
/// stamps aren't spent.
pub fn shards_keep_parts<F, A>()
    ensures none { BeginAsParts }
    ensures push { StayParts }
    ensures entry { (s : Setting F A) → MakesAsScheduled s }
    ensures within { (s : Setting F A) → StaysWithin s }
    ensures greatest { HasGreatest }
    ensures first { IsFirstClock }
{}
