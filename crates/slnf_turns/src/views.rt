//! What contracts know of a pass. No value of these types is made: they exist in proofs alone.
use std::collections::LinkedList;

/// A caller's number and a list of numbers.
pub struct Line {
    pub number: u64,
    pub words: LinkedList<u64>,
}

/// A line of a pass's own list, with the shard in which it stands.
pub struct Noted {
    pub shard: u64,
    pub line: Line,
}

/// What was seen of a shard: the lines that its value had.
pub struct Sight {
    pub shard: u64,
    pub lines: LinkedList<Line>,
}

/// A number that a pass has or had, and its list of lines.
pub struct Listed {
    pub number: u64,
    pub lines: LinkedList<Noted>,
}

/// What the root keeps of a pass that was joined.
pub struct Joined {
    pub listed: Listed,
    pub seen: LinkedList<Sight>,
    /// What the pass kept from its split.
    pub told: LinkedList<Listed>,
}

/// Where a pass is on its way to a turn and back.
pub enum Stage {
    /// It has no ticket.
    Free,
    /// The shard and the ticket.
    Waits(u64, u64),
    /// The ticket is served.
    Turn(u64, u64),
    /// The shard is open, with the lines that its value had at the take, and those that it grew by.
    Open(u64, u64, LinkedList<Line>, LinkedList<Line>),
    /// The pass was joined.
    Spent,
}

/// What a pass knows.
pub struct View {
    pub number: u64,
    pub stage: Stage,
    /// The lines that it added, in order.
    pub own: LinkedList<Noted>,
    /// What it saw, the latest first.
    pub seen: LinkedList<Sight>,
    /// The numbers that were joined before its split, with their lists.
    pub told: LinkedList<Listed>,
    /// The root alone: for each number given, the numbers that were joined by then.
    pub before: LinkedList<LinkedList<u64>>,
    /// The root alone: the passes that were joined, in order.
    pub joined: LinkedList<Joined>,
}
