ghost use Rattle.std.specs.Prelude.{◌≤◌, ◌+◌};

/// Where a field of a line begins, and its number. Behind the last field it is one past the line's end.
#[derive(Clone, Copy, Debug)]
pub struct Place {
    pub at: usize,
    pub number: u64,
    pub ghost few: { number ≤ at + 1 },
}

/// The first word of a request.
#[derive(Clone, Copy, Debug, PartialEq, Eq)]
pub enum Verb {
    Read,
    Put,
    Replace,
    Delete,
}

/// The first word of a reply.
#[derive(Clone, Copy, Debug, PartialEq, Eq)]
pub enum Answer {
    Done,
    Found,
    Absent,
}
