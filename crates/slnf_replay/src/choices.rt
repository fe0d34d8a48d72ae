ghost use Rattle.std.specs.Prelude.{◌≡◌, ◌<◌, ◌^◌, Option, length};
ghost use Rattle.slnf_plan.specs.declared.plan.FunctionPlan.{FunctionPlan};
ghost use Rattle.slnf_plan.specs.declared.plan.Epoch.{Epoch};
ghost use Rattle.slnf_nat.specs.Machine.{flow_key};
ghost use Rattle.slnf_nat.specs.StoredFlows.{outside_of};
ghost use Rattle.slnf_nat.specs.NatScene.{put_on};
ghost use Rattle.slnf_lb.specs.Machine.{choice_of};
ghost use Rattle.slnf_keys.specs.Values.{flow_to_of};
ghost use Rattle.slnf_flight.specs.Functions.{IsFunctionOf};
ghost use Rattle.slnf_replay.specs.Packets.{choice_at};

use slnf_access::{Entry, Reply, Request};
use slnf_base::{Packet, Pair};
use slnf_flight::AnyFunction;
use slnf_keys::{FlowKey, FlowTo};

/// The outside pair in a flow's record.
fn outside_of(number: u128) -> Option<Pair>
    ensures { result ≡ outside_of (flow_to_of number) }
{
    FlowTo::from_number(number).map(|to| to.outside)
}

/// The pair that a put on this key wrote, where it was done.
fn put_on(key: u128, entry: &Entry) -> Option<Pair>
    ensures { result ≡ put_on key entry.now.request entry.now.reply }
{
    match (entry.request, entry.reply) {
        (Request::PutIfAbsent { key: own, value }, Reply::Done(_)) => {
            if own.0 == key {
                outside_of(value.0)
            } else {
                None
            }
        }
        _ => None,
    }
}

/// The pair that the packet's own put on its flow's key wrote.
fn written_pair(packet: &Packet, entry: &Entry) -> Option<Pair>
    ensures { result ≡ put_on (flow_key packet.now.proto packet.now.source) entry.now.request entry.now.reply }
{
    let key = FlowKey {
        proto: packet.proto,
        inside: packet.source,
    };
    put_on(key.to_number(), entry)
}

/// The active backend whose turn it is.
fn choice_of(active: &[Pair], incarnation: u64, number: u64) -> Pair
    requires some { 0 < length active.now }
    requires incarnation { incarnation < 2 ^ 32 }
    requires number { number < 2 ^ 32 }
    ensures { result ≡ choice_of active.now incarnation number }
{
    let turn = (incarnation + number) % active.len() as u64;
    active[turn as usize]
}

/// The pair that is proposed for an entry's packet to the box of an epoch's function.
pub(crate) fn choice_at(function: &AnyFunction, packet: &Packet, entry: &Entry) -> Option<Pair>
    requires incarnation { entry.now.incarnation < 2 ^ 32 }
    requires number { entry.now.item < 2 ^ 32 }
    ensures { (plan_function : FunctionPlan) (epoch : Option Epoch)
        → IsFunctionOf plan_function epoch function.now
        → result ≡ choice_at plan_function epoch packet.now entry.now }
{
    match function {
        AnyFunction::Nat(_) => written_pair(packet, entry),
        AnyFunction::Firewall(_) => None,
        AnyFunction::Balancer(function) => Some(choice_of(
            function.active.as_slice(),
            entry.incarnation,
            entry.item,
        )),
    }
}
