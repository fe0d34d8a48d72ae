ghost use Rattle.std.specs.Prelude.{◌≡◌, true};
ghost use Rattle.slnf_turns.specs.Hands.{is_resting, posed};

use crate::rule::Place;
use crate::views::View;
use atomic_table::Badge;
use std::snapshot::Snapshot;

/// What one caller knows of the turns: its number, its own lines and what it saw of each shard. It has no bytes.
#[derive(Drop)]
pub struct Pass<B> {
    pub(crate) seat: Place<B>,
    ghost resting: { is_resting seat.table_id.slots seat.me.0.stage ≡ true },
    ghost hand: { seat ≡ posed seat },
}

/// A value whose turn the caller has.
#[derive(Drop)]
pub struct Held<B> {
    pub shard: u32,
    pub value: B,
}

/// Each number's list of lines, and which numbers were joined before its split. It has no bytes.
#[derive(Drop)]
pub struct Kept {
    pub(crate) root: Snapshot<Badge<View>>,
}
