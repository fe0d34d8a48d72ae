use crate::shards::Shard;
use slnf_turns::Pass;
use std::marker::Model;

/// One caller of the store. Contracts see the list of its own entries and what it last saw of each shard, which take no
/// memory.
#[derive(Drop)]
pub struct StorePass {
    pub(crate) pass: Pass<Shard>,
    // 0 is the root's, and one more than the incarnation any other's.
    pub(crate) number: u64,
    pub(crate) splits: u64,
    pub(crate) clock: u64,
}

impl Model for StorePass {
    ghost use Rattle.std.specs.Prelude.{◌≡◌, length};
    ghost use Rattle.slnf_turns.specs.Passes.{view as known_by};
    ghost use Rattle.slnf_store.specs.Passes.{PassState, IsPass};

    ghost Value = { PassState };

    ghost view = { λ p. record { table_id = p.pass.seat.table_id; known = known_by p.pass; clock = p.clock } };

    ghost invariant = { λ p.
        (p.number ≡ (known_by p.pass).number)
        × (p.splits ≡ length (known_by p.pass).before)
        × IsPass p.pass.seat.table_id.slots p.clock (known_by p.pass) };
}

ghost use Rattle.std.specs.Prelude.{◌≡◌, ◌≢◌, ◌+◌, ◌<◌, ◌^◌};

impl StorePass {
    /// How many passes were split off before this one.
    pub fn incarnation(&self) -> u64
        requires split { self.now.known.number ≢ 0 }
        ensures value { result + 1 ≡ self.now.known.number }
    {
        self.number - 1
    }

    /// The stamp of the pass's last access, and before any the clock that the split gave. The root's is the greatest
    /// stamp of the passes that it joined.
    pub fn clock(&self) -> u64
        ensures value { result ≡ self.now.clock }
        ensures below { result < 2 ^ 62 }
    {
        self.clock
    }
}
