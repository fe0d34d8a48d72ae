use crate::flights::{Course, InState, NatFlight, OutState};
use crate::steps::{after_in, after_out, next_in, next_out};
use slnf_access::{Function, Reply, Request, Start, Step};
use slnf_base::{Packet, Pool, Reason};
use slnf_box::{is_inbound, is_outbound};

/// A NAT: each flow from the inside gets a pair of the pool, and packets to that pair go to the flow's inside pair.
#[derive(Debug, Drop)]
pub struct NatFunction {
    pub pool: Pool,
}

impl Function for NatFunction {
    ghost use Rattle.slnf_nat.specs.Behaviour.{nat_behaviour};
    ghost use Rattle.slnf_nat.specs.Refuses.{nat_refuses};

    type Flight = NatFlight;

    ghost behaviour = { λ function. nat_behaviour function.pool };

    fn start(&self, incarnation: u64, number: u64, packet: &Packet) -> Start<NatFlight> {
        if is_outbound(&self.pool, packet) {
            return Start::Go(NatFlight {
                course: Course::Out(OutState::Look, incarnation as u32, *packet),
            });
        }
        if is_inbound(&self.pool, packet) {
            return Start::Go(NatFlight {
                course: Course::In(InState::LookPort, *packet),
            });
        }
        Start::Over(Reason::Neither)
    }

    fn next(&self, flight: &NatFlight) -> Request {
        match flight.course {
            Course::Out(state, incarnation, packet) => next_out(
                &self.pool,
                incarnation,
                &packet,
                state,
            ),
            Course::In(state, packet) => next_in(&packet, state),
        }
    }

    fn after(&self, flight: NatFlight, reply: Reply) -> Step<NatFlight> {
        match flight.course {
            Course::Out(state, incarnation, packet) => after_out(
                &self.pool,
                incarnation,
                packet,
                state,
                reply,
            ),
            Course::In(state, packet) => after_in(packet, state, reply),
        }
    }

    ghost refuses = { λ function incarnation number packet reason h. nat_refuses function.pool incarnation number packet reason h };
}
