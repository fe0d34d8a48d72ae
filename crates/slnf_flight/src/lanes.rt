ghost use Rattle.std.specs.Prelude.{IsTrue};
ghost use Rattle.std.specs.List.{list_all};
ghost use Rattle.slnf_flight.specs.Ranges.{is_taken};

use slnf_base::{Packet, Reason, Row};

/// A captured packet: what the functions see of it, or the reason against it.
#[derive(Clone, Copy, Debug, PartialEq, Eq)]
pub enum Taken {
    Seen(Packet),
    Bad(Reason),
}

/// The packets of one capture, in order. They are numbered from 0.
#[derive(Debug, Drop)]
pub struct Lane {
    pub packets: Row<Taken>,
    pub ghost in_range: { IsTrue (list_all is_taken packets) },
}
