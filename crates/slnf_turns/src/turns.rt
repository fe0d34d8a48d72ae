ghost use Rattle.std.specs.Prelude.{◌≡◌, ◌*◌, ◌<◌, ◌≤◌, []};
ghost use Rattle.std.specs.Vec.{vec_capacity};

use crate::chronicles::Chronicle;
use crate::rule::Law;
use crate::views::View;
use atomic_table::Table;
use std::alloc::Global;

mod calls;
mod steps;

/// One value for each shard, with a ticket lock of its own.
#[derive(Drop)]
pub struct Turns<B: Chronicle> {
    table: Table<Option<B>, View, (), Law, Global>,
    // The vector that `make` was given, for the values at the end.
    room: Vec<B>,
    ghost wide: { table.shared.table_id.words ≡ 32 * table.shared.table_id.slots },
    ghost count: { (0 < table.shared.table_id.slots) × (table.shared.table_id.slots ≤ 64) },
    ghost empty: { (room.items ≡ []) × (table.shared.table_id.slots ≤ vec_capacity room) },
}
