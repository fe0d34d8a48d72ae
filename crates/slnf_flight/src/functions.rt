ghost use Rattle.std.specs.Prelude.{◌≡◌, ◌<◌, length, IfOk, IsOk, slice_get};
ghost use Rattle.slnf_base.specs.declared.plans.Pool.{Pool};
ghost use Rattle.slnf_plan.specs.declared.plan.FunctionPlan.TheVariants.{Nat as NatPlan};
ghost use Rattle.slnf_run.specs.Cases.{start_as, stray_request};
ghost use Rattle.slnf_flight.specs.declared.flights.AnyFlight.TheVariants.{Nat as NatFlies, Firewall as FwFlies, Balancer as LbFlies};
ghost use Rattle.slnf_flight.specs.Functions.{IsFunctionOf, step_as};

use crate::flights::AnyFlight;
use slnf_access::{Function, Key, Reply, Request, Start, Step};
use slnf_base::{NoMemory, Packet, Pair, Row, Service, Verdict, know_pair};
use slnf_box::Policy;
use slnf_fw::{FwFlight, FwFunction};
use slnf_lb::{LbFlight, LbFunction};
use slnf_nat::{NatFlight, NatFunction};
use slnf_plan::{FunctionPlan, Plan};
use std::alloc::Global;

/// The function of a plan's epoch.
#[derive(Debug, Drop)]
pub enum AnyFunction {
    Nat(NatFunction),
    Firewall(FwFunction),
    Balancer(LbFunction),
}

/// How a NAT's packet begins, as one of any function's.
fn nat_start(start: Start<NatFlight>) -> Start<AnyFlight>
    ensures { result ≡ start_as NatFlies start }
{
    match start {
        Start::Go(flight) => Start::Go(AnyFlight::Nat(flight)),
        Start::Over(reason) => Start::Over(reason),
    }
}

/// How a firewall's packet begins.
fn fw_start(start: Start<FwFlight>) -> Start<AnyFlight>
    ensures { result ≡ start_as FwFlies start }
{
    match start {
        Start::Go(flight) => Start::Go(AnyFlight::Firewall(flight)),
        Start::Over(reason) => Start::Over(reason),
    }
}

/// How a balancer's packet begins.
fn lb_start(start: Start<LbFlight>) -> Start<AnyFlight>
    ensures { result ≡ start_as LbFlies start }
{
    match start {
        Start::Go(flight) => Start::Go(AnyFlight::Balancer(flight)),
        Start::Over(reason) => Start::Over(reason),
    }
}

/// How a NAT's packet goes on, as one of any function's.
fn nat_step(step: Step<NatFlight>) -> Step<AnyFlight>
    ensures { result ≡ step_as NatFlies step }
{
    match step {
        Step::Go(flight) => Step::Go(AnyFlight::Nat(flight)),
        Step::Over(verdict) => Step::Over(verdict),
    }
}

/// How a firewall's packet goes on.
fn fw_step(step: Step<FwFlight>) -> Step<AnyFlight>
    ensures { result ≡ step_as FwFlies step }
{
    match step {
        Step::Go(flight) => Step::Go(AnyFlight::Firewall(flight)),
        Step::Over(verdict) => Step::Over(verdict),
    }
}

/// How a balancer's packet goes on.
fn lb_step(step: Step<LbFlight>) -> Step<AnyFlight>
    ensures { result ≡ step_as LbFlies step }
{
    match step {
        Step::Go(flight) => Step::Go(AnyFlight::Balancer(flight)),
        Step::Over(verdict) => Step::Over(verdict),
    }
}

/// What another function's flight asks for.
fn stray_request() -> Request
    ensures { result ≡ stray_request }
{
    Request::Read { key: Key(0) }
}

impl Function for AnyFunction {
    ghost use Rattle.slnf_flight.specs.Functions.{any_behaviour, any_refuses};

    type Flight = AnyFlight;

    ghost behaviour = { any_behaviour };

    fn start(&self, incarnation: u64, number: u64, packet: &Packet) -> Start<AnyFlight> {
        match self {
            AnyFunction::Nat(function) => nat_start(function.start(incarnation, number, packet)),
            AnyFunction::Firewall(function) => {
                fw_start(function.start(incarnation, number, packet))
            }
            AnyFunction::Balancer(function) => {
                lb_start(function.start(incarnation, number, packet))
            }
        }
    }

    fn next(&self, flight: &AnyFlight) -> Request {
        match self {
            AnyFunction::Nat(function) => match flight {
                AnyFlight::Nat(flight) => function.next(flight),
                AnyFlight::Firewall(_) => stray_request(),
                AnyFlight::Balancer(_) => stray_request(),
            },
            AnyFunction::Firewall(function) => match flight {
                AnyFlight::Nat(_) => stray_request(),
                AnyFlight::Firewall(flight) => function.next(flight),
                AnyFlight::Balancer(_) => stray_request(),
            },
            AnyFunction::Balancer(function) => match flight {
                AnyFlight::Nat(_) => stray_request(),
                AnyFlight::Firewall(_) => stray_request(),
                AnyFlight::Balancer(flight) => function.next(flight),
            },
        }
    }

    fn after(&self, flight: AnyFlight, reply: Reply) -> Step<AnyFlight> {
        match self {
            AnyFunction::Nat(function) => match flight {
                AnyFlight::Nat(flight) => nat_step(function.after(flight, reply)),
                AnyFlight::Firewall(_) => Step::Over(Verdict::Lost),
                AnyFlight::Balancer(_) => Step::Over(Verdict::Lost),
            },
            AnyFunction::Firewall(function) => match flight {
                AnyFlight::Nat(_) => Step::Over(Verdict::Lost),
                AnyFlight::Firewall(flight) => fw_step(function.after(flight, reply)),
                AnyFlight::Balancer(_) => Step::Over(Verdict::Lost),
            },
            AnyFunction::Balancer(function) => match flight {
                AnyFlight::Nat(_) => Step::Over(Verdict::Lost),
                AnyFlight::Firewall(_) => Step::Over(Verdict::Lost),
                AnyFlight::Balancer(flight) => lb_step(function.after(flight, reply)),
            },
        }
    }

    ghost refuses = { any_refuses };
}

impl AnyFunction {
    /// The function of a plan's epoch. The rules, the backends and those that are active are copied; a NAT wants no memory.
    pub fn of(alloc: Global, plan: &Plan, epoch: usize) -> Result<AnyFunction, NoMemory>
        requires { epoch < length plan.now.epochs }
        ensures function { IfOk result (IsFunctionOf plan.now.function (slice_get plan.now.epochs epoch)) }
        ensures nat { (pool : Pool) → plan.now.function ≡ NatPlan pool → IsOk result }
    {
        let epoch = &plan.epochs.as_slice()[epoch];
        match &plan.function {
            FunctionPlan::Nat(pool) => Ok(AnyFunction::Nat(NatFunction { pool: *pool })),
            FunctionPlan::Firewall { inside, rules } => Ok(AnyFunction::Firewall(FwFunction {
                policy: Policy {
                    inside: *inside,
                    rules: Row::from_vec(Vec::from_slice(alloc, rules.as_slice())?),
                },
            })),
            FunctionPlan::Balancer(service) => Ok(AnyFunction::Balancer(LbFunction {
                service: copy_of(alloc, service)?,
                active: active_of(alloc, service, epoch.active.as_slice())?,
            })),
        }
    }
}

ghost use Rattle.slnf_flight.specs.LbPlan.{backends_at};
ghost use Rattle.std.specs.Prelude.{nat_lt, IsTrue};
ghost use Rattle.std.specs.List.{list_all};
ghost use Rattle.slnf_base.specs.Ranges.{is_pair};

/// The service, copied.
fn copy_of(alloc: Global, service: &Service) -> Result<Service, NoMemory>
    ensures { IfOk result (λ copy. copy ≡ service.now) }
{
    Ok(Service {
        proto: service.proto,
        front: service.front,
        backends: Row::from_vec(Vec::from_slice(alloc, service.backends.as_slice())?),
    })
}

/// The backends at these places.
fn active_of(alloc: Global, service: &Service, places: &[u32]) -> Result<Row<Pair>, NoMemory>
    requires { IsTrue (list_all (λ n. nat_lt n (length service.now.backends)) places.now) }
    ensures active { IfOk result (λ row. row ≡ backends_at service.now places.now) }
    ensures pairs { IfOk result (λ row. IsTrue (list_all is_pair row)) }
    ensures count { IfOk result (λ row. length row ≡ length places.now) }
{
    let backends = service.backends.as_slice();
    let mut active = Vec::new(alloc);
    for place in places {
        active.push(backend_at(backends, *place as usize))?;
    }
    Ok(Row::from_vec(active))
}

ghost use Rattle.std.specs.Prelude.{Some};

/// The backend at this place.
fn backend_at(backends: &[Pair], place: usize) -> Pair
    requires { place < length backends.now }
    ensures there { slice_get backends.now place ≡ Some result }
    ensures pair { IsTrue (is_pair result) }
{
    let backend = backends[place];
    know_pair(backend);
    backend
}
