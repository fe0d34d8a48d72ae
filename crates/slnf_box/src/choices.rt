use slnf_base::Reason;
use slnf_fw_table::State;

/// What is kept of a connection: whether it was opened from the outside, and what it has come to.
#[derive(Clone, Copy, Debug, PartialEq, Eq)]
pub struct Tracked {
    pub by_outside: bool,
    pub state: State,
}

/// What the firewall makes of a packet: it is dropped, it passes, or it passes where this is written of its connection.
#[derive(Clone, Copy, Debug, PartialEq, Eq)]
pub enum Choice {
    Refuses(Reason),
    Passes,
    Writes(Tracked),
}
