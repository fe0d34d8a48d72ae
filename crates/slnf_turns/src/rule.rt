//! The table under the turns. Word 32 k counts the tickets of shard k that were drawn, word 32 k + 1 those
//! that were served, and slot k has the shard's value. The two words lie side by side, so that mostly one cache
//! line has both, and comes from another processor once a turn. Those of two shards lie 256 bytes apart.
use crate::chronicles::Chronicle;
use crate::views::View;
use atomic_table::{Seat, Shared, TableRule};

pub struct Law;

impl<B: Chronicle> TableRule<Option<B>, View, ()> for Law {
    ghost use Rattle.slnf_turns.specs.Views.{first_view};
    ghost use Rattle.slnf_turns.specs.Rule.{Rule};

    ghost holds = { λ _. Rule B.lines B.place B.places };

    ghost first = { λ _. first_view };
}

pub type Top<B> = Shared<Option<B>, View, (), Law>;

pub type Place<B> = Seat<Option<B>, View>;
