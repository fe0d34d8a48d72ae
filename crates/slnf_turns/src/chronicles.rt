ghost use Rattle.std.specs.Prelude.{List, ℕ};
ghost use Rattle.slnf_turns.specs.declared.views.Line.{Line};

/// What a value under a turn means to contracts. It has no calls.
pub trait Chronicle {
    /// Its lines, the oldest first.
    ghost lines: { Self → List Line };

    /// The shard that it belongs to.
    ghost place: { Self → ℕ };

    /// How many shards there are.
    ghost places: { Self → ℕ };
}
