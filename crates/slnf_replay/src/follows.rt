ghost use Rattle.std.specs.Prelude.{◌≡◌, ◌+◌, ◌<◌, ◌^◌, None, if◌then◌else◌, length, IfOk, OnOk};
ghost use Rattle.slnf_access.specs.Map.{CanReply};
ghost use Rattle.slnf_run.specs.Run.{IsRun};
ghost use Rattle.slnf_flight.specs.Functions.{any_behaviour};
ghost use Rattle.slnf_flight.specs.Lanes.{AreFew};
ghost use Rattle.slnf_flight.specs.PlanSetting.{setting_of};
ghost use Rattle.slnf_replay.specs.Follows.{is_delete, hand_of_start, hand_or, hand_of_step, place_of_step, AreInHand};
ghost use Rattle.slnf_replay.specs.Functions.{AreFunctionsOf};
ghost use Rattle.slnf_replay.specs.Hands.{hand_in, with_hand};
ghost use Rattle.slnf_replay.specs.Packets.{has_first_place};
ghost use Rattle.slnf_replay.specs.Places.{place_of};
ghost use Rattle.slnf_replay.specs.Seats.{seats_from};

use crate::functions::function_of;
use crate::hands::{Hands, InHand};
use crate::packets::sighting_of;
use crate::seats::Seat;
use slnf_access::{Entry, Function, Request, Start, Step};
use slnf_base::{NoMemory, Packet, Reason, Verdict};
use slnf_box::is_outbound;
use slnf_flight::{AnyFlight, AnyFunction, Lane};
use slnf_plan::{FunctionPlan, Plan};

/// Whether the access takes something away. A packet makes such a one only to give its claim back, once it is decided.
fn is_delete(request: &Request) -> bool
    ensures { result ≡ is_delete request.now }
{
    match request {
        Request::Read { .. } => false,
        Request::PutIfAbsent { .. } => false,
        Request::ReplaceIf { .. } => false,
        Request::DeleteIf { .. } => true,
    }
}

/// Whether a packet that is decided so has its first entry as its place: one on its way in that finds no flow.
fn has_first_place(plan_function: &FunctionPlan, packet: &Packet, verdict: &Verdict) -> bool
    ensures { result ≡ has_first_place plan_function.now packet.now verdict.now }
{
    match plan_function {
        FunctionPlan::Nat(pool) => {
            !is_outbound(pool, packet) && *verdict == Verdict::Dropped(Reason::NoFlow)
        }
        FunctionPlan::Firewall { .. } => false,
        FunctionPlan::Balancer(_) => false,
    }
}

/// The packet in hand, or else the packet of this entry, which has its first entry here.
fn hand_at(
    function: &AnyFunction,
    packet: &Packet,
    number: usize,
    entry: &Entry,
    held: Option<InHand>,
) -> Option<InHand>
    requires incarnation { entry.now.incarnation < 2 ^ 32 }
    requires item { entry.now.item < 2 ^ 32 }
    ensures { result ≡ hand_or held (hand_of_start number
        ((any_behaviour function.now).begins entry.now.incarnation entry.now.item packet.now)) }
{
    match held {
        Some(hand) => Some(hand),
        None => match function.start(entry.incarnation, entry.item, packet) {
            Start::Go(flight) => Some(InHand {
                first: number,
                flight,
            }),
            Start::Over(_) => None,
        },
    }
}

/// The place of the packet that a step decides at the entry with this number, if it does.
fn place_at(
    plan_function: &FunctionPlan,
    function: &AnyFunction,
    packet: &Packet,
    first: usize,
    number: usize,
    decided: bool,
    step: &Step<AnyFlight>,
) -> Option<usize>
    ensures { result ≡ place_of_step plan_function.now packet.now (any_behaviour function.now).asks
        first number decided step.now }
{
    if decided {
        return None;
    }
    match step {
        Step::Go(flight) => {
            if is_delete(&function.next(flight)) {
                Some(number)
            } else {
                None
            }
        }
        Step::Over(verdict) => {
            if has_first_place(plan_function, packet, verdict) {
                Some(first)
            } else {
                Some(number)
            }
        }
    }
}

/// Keeps the packet of an incarnation's item in hand after a step, if it flies.
#[tactic(auto, using(crate::proofs::HandsAfter::none_there))]
fn keep(
    hands: &mut Hands,
    incarnation: u64,
    item: u64,
    first: usize,
    step: Step<AnyFlight>,
) -> Result<(), NoMemory>
    requires { hand_in hands.old incarnation item ≡ None }
    ensures { OnOk result (hand_in hands.new
        ≡ with_hand (hand_in hands.old) incarnation item (hand_of_step first step)) }
{
    match step {
        Step::Go(flight) => hands.put(incarnation, item, InHand { first, flight }),
        Step::Over(_) => Ok(()),
    }
}

/// Lets a packet go on by its entry with this number, and tells its place where it is decided there.
fn go_on(
    plan_function: &FunctionPlan,
    function: &AnyFunction,
    packet: &Packet,
    hands: &mut Hands,
    hand: InHand,
    number: usize,
    entry: &Entry,
) -> Result<Option<usize>, NoMemory>
    requires can { CanReply ((any_behaviour function.now).asks hand.flight) entry.now.reply }
    requires taken { hand_in hands.old entry.now.incarnation entry.now.item ≡ None }
    ensures place { IfOk result (λ place. place ≡ place_of_step plan_function.now packet.now
        (any_behaviour function.now).asks hand.first number (is_delete entry.now.request)
        ((any_behaviour function.now).goes hand.flight entry.now.reply)) }
    ensures hands { OnOk result (hand_in hands.new ≡ with_hand (hand_in hands.old)
        entry.now.incarnation entry.now.item
        (hand_of_step hand.first ((any_behaviour function.now).goes hand.flight entry.now.reply))) }
{
    let InHand { first, flight } = hand;
    let decided = is_delete(&entry.request);
    let step = function.after(flight, entry.reply);
    let place = place_at(
        plan_function,
        function,
        packet,
        first,
        number,
        decided,
        &step,
    );
    keep(hands, entry.incarnation, entry.item, first, step)?;
    Ok(place)
}

/// Follows the packet of the entry with this number, and tells its place where it is decided there.
pub(crate) fn follow(
    plan: &Plan,
    lanes: &[Lane],
    seats: &[Option<Seat>],
    functions: &[AnyFunction],
    journal: &[Entry],
    hands: &mut Hands,
    number: usize,
) -> Result<Option<usize>, NoMemory>
    requires few { AreFew lanes.now }
    requires run { IsRun (setting_of plan.now lanes.now) journal.now }
    requires seats { seats.now ≡ seats_from 0 plan.now.epochs }
    requires functions { AreFunctionsOf plan.now.function plan.now.epochs functions.now }
    requires number { number < length journal.now }
    requires hands { AreInHand (setting_of plan.now lanes.now).scene seats.now journal.now number hands.old }
    ensures place { IfOk result (λ place. place ≡ place_of (setting_of plan.now lanes.now).scene journal.now number) }
    ensures hands { OnOk result
        (AreInHand (setting_of plan.now lanes.now).scene seats.now journal.now (number + 1) hands.new) }
{
    let entry = &journal[number];
    let Some(sighting) = sighting_of(lanes, seats, entry) else {
        return Ok(None);
    };
    let function = function_of(functions, sighting.epoch);
    let packet = &sighting.packet;
    let held = hands.take(entry.incarnation, entry.item);
    let Some(hand) = hand_at(function, packet, number, entry, held) else {
        return Ok(None);
    };
    hand.flight.know_packet();
    go_on(&plan.function, function, packet, hands, hand, number, entry)
}
