ghost use Rattle.std.specs.Prelude.{◌≡◌, ◌<◌, length, IsTrue};
ghost use Rattle.std.specs.List.{list_all};
ghost use Rattle.slnf_base.specs.Ranges.{is_pair};

use crate::flights::{LbFlight, LbState};
use slnf_access::{Function, Key, Reply, Request, Start, Step, Value};
use slnf_base::{Change, Packet, Pair, Proto, Reason, Row, Service, Verdict};
use slnf_box::{is_forward, is_return};
use slnf_keys::{Pin, PinKey};

/// A load balancer: packets to the service's front go to the backend that their client is pinned to, and a client without
/// a pin gets one of the active backends in turn. Packets from a client's backend come from the front.
#[derive(Debug, Drop)]
pub struct LbFunction {
    pub service: Service,
    pub active: Row<Pair>,
    pub ghost some: { 0 < length active },
    pub ghost pairs: { IsTrue (list_all is_pair active) },
}

ghost use Rattle.slnf_lb.specs.Machine.{choice_of, forwarded, returned, pin_key, pin_value};
ghost use Rattle.slnf_keys.specs.Values.{pin_of};

/// The active backend whose turn it is.
fn choice_of(active: &[Pair], incarnation: u64, number: u64) -> Pair
    requires some { 0 < length active.now }
    requires incarnation { incarnation < 4294967296 }
    requires number { number < 4294967296 }
    ensures { result ≡ choice_of active.now incarnation number }
{
    let turn = (incarnation + number) % active.len() as u64;
    active[turn as usize]
}

/// The key of a client's pin.
fn pin_key(proto: Proto, client: Pair) -> Key
    ensures { result ≡ pin_key proto client }
{
    Key(PinKey { proto, client }.to_number())
}

/// The value of a pin.
fn pin_value(backend: Pair) -> Value
    ensures { result ≡ pin_value backend }
{
    Value(Pin { backend }.to_number())
}

/// The verdict of a packet to the front whose client has this value.
fn forwarded(value: Value) -> Step<LbFlight>
    ensures { result ≡ forwarded (pin_of value.0) }
{
    match Pin::from_number(value.0) {
        None => Step::Over(Verdict::Dropped(Reason::NotPinned)),
        Some(pin) => Step::Over(Verdict::Emit(Change::Dest(pin.backend))),
    }
}

/// The verdict of a packet from a backend whose client has this value.
fn returned(service: &Service, packet: &Packet, value: Value) -> Step<LbFlight>
    ensures { result ≡ returned service.now packet.now (pin_of value.0) }
{
    match Pin::from_number(value.0) {
        None => Step::Over(Verdict::Dropped(Reason::NotPinned)),
        Some(pin) => {
            if pin.backend == packet.source {
                Step::Over(Verdict::Emit(Change::Source(service.front)))
            } else {
                Step::Over(Verdict::Dropped(Reason::NotPinned))
            }
        }
    }
}

impl Function for LbFunction {
    ghost use Rattle.slnf_lb.specs.Machine.{lb_behaviour};
    ghost use Rattle.slnf_lb.specs.Refuses.{lb_refuses};

    type Flight = LbFlight;

    ghost behaviour = { λ function. lb_behaviour function.service function.active };

    fn start(&self, incarnation: u64, number: u64, packet: &Packet) -> Start<LbFlight> {
        let packet = *packet;
        let choice = choice_of(self.active.as_slice(), incarnation, number);
        if is_forward(&self.service, &packet) {
            return Start::Go(LbFlight {
                state: LbState::Forward,
                packet,
                choice,
            });
        }
        if is_return(&self.service, &packet) {
            return Start::Go(LbFlight {
                state: LbState::Return,
                packet,
                choice,
            });
        }
        Start::Over(Reason::Neither)
    }

    fn next(&self, flight: &LbFlight) -> Request {
        let packet = flight.packet;
        match flight.state {
            LbState::Forward => Request::Read {
                key: pin_key(packet.proto, packet.source),
            },
            LbState::Put => Request::PutIfAbsent {
                key: pin_key(packet.proto, packet.source),
                value: pin_value(flight.choice),
            },
            LbState::Return => Request::Read {
                key: pin_key(packet.proto, packet.dest),
            },
        }
    }

    fn after(&self, flight: LbFlight, reply: Reply) -> Step<LbFlight> {
        match flight.state {
            LbState::Forward => match reply {
                Reply::Found(value, _) => forwarded(value),
                Reply::Absent => Step::Go(LbFlight {
                    state: LbState::Put,
                    packet: flight.packet,
                    choice: flight.choice,
                }),
                Reply::Done(_) => Step::Over(Verdict::Dropped(Reason::NotPinned)),
            },
            LbState::Put => match reply {
                Reply::Done(_) => Step::Over(Verdict::Emit(Change::Dest(flight.choice))),
                Reply::Found(value, _) => forwarded(value),
                Reply::Absent => Step::Over(Verdict::Dropped(Reason::NotPinned)),
            },
            LbState::Return => match reply {
                Reply::Found(value, _) => returned(&self.service, &flight.packet, value),
                Reply::Absent => Step::Over(Verdict::Dropped(Reason::NotPinned)),
                Reply::Done(_) => Step::Over(Verdict::Dropped(Reason::NotPinned)),
            },
        }
    }

    ghost refuses = { λ function incarnation number packet reason h. lb_refuses function.service function.active incarnation number packet reason h };
}
