ghost use Rattle.std.specs.Prelude.{◌≡◌, Option};
ghost use Rattle.slnf_base.specs.declared.packets.Reason.TheVariants.{NoFlow};
ghost use Rattle.slnf_base.specs.declared.packets.Verdict.TheVariants.{Dropped};
ghost use Rattle.slnf_access.specs.declared.functions.Step.TheVariants.{Go as StepGo, Over as StepOver};
ghost use Rattle.slnf_keys.specs.Values.{flow_to_number, flow_to_of, claim_number, claim_of};
ghost use Rattle.slnf_box.specs.Pools.{nat_of};
ghost use Rattle.slnf_nat.specs.Flights.{Out, In};
ghost use Rattle.slnf_nat.specs.Machine.{flow_key, port_key, asks_out, asks_in, looked, try_after, released, goes_out, claimed, entered, goes_in};

use crate::flights::{Course, InState, NatFlight, OutState};
use slnf_access::{Key, Reply, Request, Step, Value};
use slnf_base::{Change, Packet, Pair, Pool, Proto, Reason, Verdict};
use slnf_box::{candidate, port_count};
use slnf_keys::{Claim, FlowKey, FlowTo, PortKey};

/// The key of a flow.
fn flow_key(proto: Proto, inside: Pair) -> Key
    ensures { result.0 ≡ flow_key proto inside }
{
    Key(FlowKey { proto, inside }.to_number())
}

/// The key of an outside pair's claim.
fn port_key(proto: Proto, outside: Pair) -> Key
    ensures { result.0 ≡ port_key proto outside }
{
    Key(PortKey { proto, outside }.to_number())
}

/// The value of a claim.
fn claim_value(incarnation: u32, inside: Pair) -> Value
    ensures { result.0 ≡ claim_number (record { incarnation = incarnation; inside = inside }) }
{
    let claim = Claim {
        incarnation,
        inside,
    };
    Value(claim.to_number())
}

/// The value of a flow's record.
fn flow_value(outside: Pair) -> Value
    ensures { result.0 ≡ flow_to_number (record { outside = outside }) }
{
    Value(FlowTo { outside }.to_number())
}

/// The access that a packet on its way out makes next.
pub fn next_out(pool: &Pool, incarnation: u32, packet: &Packet, state: OutState) -> Request
    ensures { result ≡ asks_out (nat_of pool.now) incarnation packet.now state }
{
    match state {
        OutState::Look | OutState::Last => Request::Read {
            key: flow_key(packet.proto, packet.source),
        },
        OutState::Try(place) => Request::PutIfAbsent {
            key: port_key(packet.proto, candidate(pool, packet.source, place)),
            value: claim_value(incarnation, packet.source),
        },
        OutState::Confirm(place, _) => Request::PutIfAbsent {
            key: flow_key(packet.proto, packet.source),
            value: flow_value(candidate(pool, packet.source, place)),
        },
        OutState::Release(place, version, _) => Request::DeleteIf {
            key: port_key(packet.proto, candidate(pool, packet.source, place)),
            version,
        },
    }
}

/// The access that a packet on its way in makes next.
pub fn next_in(packet: &Packet, state: InState) -> Request
    ensures { result ≡ asks_in packet.now state }
{
    match state {
        InState::LookPort => Request::Read {
            key: port_key(packet.proto, packet.dest),
        },
        InState::LookFlow(inside) => Request::Read {
            key: flow_key(packet.proto, inside),
        },
    }
}

/// A packet on its way out goes on.
fn go_out(incarnation: u32, packet: Packet, state: OutState) -> Step<NatFlight>
    ensures { result ≡ StepGo (Out state incarnation packet) }
{
    Step::Go(NatFlight {
        course: Course::Out(state, incarnation, packet),
    })
}

/// A packet ends, since no flow has its pair.
fn no_flow() -> Step<NatFlight>
    ensures { result ≡ StepOver (Dropped NoFlow) }
{
    Step::Over(Verdict::Dropped(Reason::NoFlow))
}

/// The verdict of a packet on its way out whose flow has this value.
fn looked(value: Value) -> Step<NatFlight>
    ensures { result ≡ looked (flow_to_of value.0) }
{
    match FlowTo::from_number(value.0) {
        None => no_flow(),
        Some(to) => Step::Over(Verdict::Emit(Change::Source(to.outside))),
    }
}

/// The state after a candidate that is taken.
fn try_after(pool: &Pool, place: u32) -> OutState
    ensures { result ≡ try_after (nat_of pool.now) place }
{
    if place < port_count(pool) - 1 {
        OutState::Try(place + 1)
    } else {
        OutState::Last
    }
}

/// How a packet on its way out goes on whose flow has this value, after its claim of the candidate at this place.
fn released(
    incarnation: u32,
    packet: Packet,
    place: u32,
    version: u64,
    value: Value,
) -> Step<NatFlight>
    ensures { result ≡ released incarnation packet place version (flow_to_of value.0) }
{
    match FlowTo::from_number(value.0) {
        None => no_flow(),
        Some(to) => {
            let state = OutState::Release(place, version, to.outside);
            go_out(incarnation, packet, state)
        }
    }
}

/// How a packet on its way out goes on after the reply.
pub fn after_out(
    pool: &Pool,
    incarnation: u32,
    packet: Packet,
    state: OutState,
    reply: Reply,
) -> Step<NatFlight>
    ensures { result ≡ goes_out (nat_of pool.now) incarnation packet state reply }
{
    match state {
        OutState::Look => match reply {
            Reply::Found(value, _) => looked(value),
            Reply::Absent => go_out(incarnation, packet, OutState::Try(0)),
            Reply::Done(_) => no_flow(),
        },
        OutState::Try(place) => match reply {
            Reply::Done(stamp) => go_out(incarnation, packet, OutState::Confirm(place, stamp)),
            Reply::Found(_, _) => go_out(incarnation, packet, try_after(pool, place)),
            Reply::Absent => no_flow(),
        },
        OutState::Confirm(place, version) => match reply {
            Reply::Done(_) => Step::Over(Verdict::Emit(Change::Source(candidate(
                pool,
                packet.source,
                place,
            )))),
            Reply::Found(value, _) => released(incarnation, packet, place, version, value),
            Reply::Absent => no_flow(),
        },
        OutState::Release(_, _, port) => Step::Over(Verdict::Emit(Change::Source(port))),
        OutState::Last => match reply {
            Reply::Found(value, _) => looked(value),
            Reply::Absent => Step::Over(Verdict::Dropped(Reason::NoPort)),
            Reply::Done(_) => no_flow(),
        },
    }
}

/// A packet on its way in goes on.
fn go_in(packet: Packet, state: InState) -> Step<NatFlight>
    ensures { result ≡ StepGo (In state packet) }
{
    Step::Go(NatFlight {
        course: Course::In(state, packet),
    })
}

/// How a packet on its way in goes on whose destination has this claim.
fn claimed(packet: Packet, value: Value) -> Step<NatFlight>
    ensures { result ≡ claimed packet (claim_of value.0) }
{
    match Claim::from_number(value.0) {
        None => no_flow(),
        Some(claim) => go_in(packet, InState::LookFlow(claim.inside)),
    }
}

/// The verdict of a packet on its way in whose claim's flow has this value.
fn entered(packet: &Packet, inside: Pair, value: Value) -> Step<NatFlight>
    ensures { result ≡ entered packet.now inside (flow_to_of value.0) }
{
    match FlowTo::from_number(value.0) {
        None => no_flow(),
        Some(to) => {
            if to.outside == packet.dest {
                Step::Over(Verdict::Emit(Change::Dest(inside)))
            } else {
                no_flow()
            }
        }
    }
}

/// How a packet on its way in goes on after the reply.
pub fn after_in(packet: Packet, state: InState, reply: Reply) -> Step<NatFlight>
    ensures { result ≡ goes_in packet state reply }
{
    match state {
        InState::LookPort => match reply {
            Reply::Found(value, _) => claimed(packet, value),
            Reply::Absent | Reply::Done(_) => no_flow(),
        },
        InState::LookFlow(inside) => match reply {
            Reply::Found(value, _) => entered(&packet, inside, value),
            Reply::Absent | Reply::Done(_) => no_flow(),
        },
    }
}
