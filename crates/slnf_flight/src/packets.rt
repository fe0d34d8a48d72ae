ghost use Rattle.std.specs.Prelude.{◌≡◌, ◌^◌, ◌<◌, Some};
ghost use Rattle.slnf_access.specs.Machines.{stand_of_start};
ghost use Rattle.slnf_flight.specs.Begins.{begins_with};
ghost use Rattle.slnf_flight.specs.Lanes.{packets_on};

use crate::lanes::{Lane, Taken};
use slnf_access::{Function, Start};

/// The packets of a lane by its number. A lane without a capture has none.
pub fn packets_on(lanes: &[Lane], lane: u32) -> &[Taken]
    ensures { result.now ≡ packets_on lanes.now lane }
{
    match lanes.get(lane as usize) {
        Some(lane) => lane.packets.as_slice(),
        None => &[],
    }
}

/// How the captured packet with this number of its lane begins. One with a reason against it is dropped at once.
pub fn begin<F: Function>(
    function: &F,
    incarnation: u64,
    number: usize,
    taken: &Taken,
) -> Start<F::Flight>
    requires incarnation { incarnation < 2 ^ 32 }
    requires number { number < 2 ^ 32 }
    ensures { stand_of_start result
        ≡ begins_with ((F.behaviour function.now).begins incarnation number) (Some taken.now) }
{
    match taken {
        Taken::Seen(packet) => function.start(incarnation, number as u64, packet),
        Taken::Bad(reason) => Start::Over(*reason),
    }
}
