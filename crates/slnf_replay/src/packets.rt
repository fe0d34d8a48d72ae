ghost use Rattle.std.specs.Prelude.{◌≡◌};

use crate::seats::{Seat, seat_in};
use slnf_access::Entry;
use slnf_base::Packet;
use slnf_flight::{Lane, Taken, packets_on};

/// The packet of an entry, with the number of its instance's epoch and the lane on which it was captured.
#[derive(Clone, Copy, Debug)]
pub(crate) struct Sighting {
    pub(crate) epoch: usize,
    pub(crate) lane: u32,
    pub(crate) packet: Packet,
}

ghost use Rattle.std.specs.Prelude.{Some};
ghost use Rattle.slnf_flight.specs.Lanes.{packet_at};
ghost use Rattle.slnf_replay.specs.Packets.{sighted, sighting_of};

/// The packet with this number on a seat's lane.
fn sight(lanes: &[Lane], seat: Seat, number: u64) -> Option<Sighting>
    ensures { result ≡ sighted seat (packet_at lanes.now number (Some seat.lane)) }
{
    match packets_on(lanes, seat.lane).get(number as usize) {
        Some(Taken::Seen(packet)) => Some(Sighting {
            epoch: seat.epoch,
            lane: seat.lane,
            packet: *packet,
        }),
        Some(Taken::Bad(_)) => None,
        None => None,
    }
}

/// The packet of an entry, if an instance made the entry.
pub(crate) fn sighting_of(lanes: &[Lane], seats: &[Option<Seat>], entry: &Entry) -> Option<Sighting>
    ensures { result ≡ sighting_of lanes.now seats.now entry.now }
{
    let seat = seat_in(seats, entry.incarnation)?;
    sight(lanes, seat, entry.item)
}
