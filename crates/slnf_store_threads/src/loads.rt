ghost use Rattle.std.specs.Prelude.{◌<◌, ◌≤◌};

pub const MOST_CALLERS: u32 = 64;

pub const MOST_SHARDS: u32 = 64;

/// The most accesses of one turn.
pub const MOST_OF_TURN: u32 = 32;

/// The fewest keys of all callers together.
pub const FEWEST_KEYS: u32 = 4_096;

/// How many callers make how many rounds each, over how many shards, how many accesses they make in one turn, and how many
/// keys there are, those of all callers together.
#[derive(Clone, Copy, Debug)]
pub struct Load {
    pub callers: u32,
    pub shards: u32,
    pub rounds: u32,
    pub turn: u32,
    pub keys: u32,
    ghost some_callers: { (0 < callers) × (callers ≤ 64) },
    ghost some_shards: { (0 < shards) × (shards ≤ 64) },
    ghost some_of_turn: { (0 < turn) × (turn ≤ 32) },
    ghost some_keys: { 4096 ≤ keys },
}
