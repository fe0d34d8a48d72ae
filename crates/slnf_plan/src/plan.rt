ghost use Rattle.std.specs.Prelude.{◌≤◌, ◌^◌, length, IsTrue};
ghost use Rattle.std.specs.List.{list_all};
ghost use Rattle.slnf_plan.specs.Ranges.{fits_function, has_instances, has_lanes_apart, has_places, has_sweep, has_actors};

use slnf_base::{Pool, Prefix, Row, Service};
use slnf_fw_table::Rule;

/// The network function that a plan runs.
#[derive(Debug, Drop)]
pub enum FunctionPlan {
    Nat(Pool),
    Firewall { inside: Prefix, rules: Row<Rule> },
    Balancer(Service),
}

/// An instance of an epoch: the lane that it works on, 0 to 31. With a quota it takes at most so many
/// packets (at most 1,048,576), and with a stop it makes at most so many accesses (at most 2^40).
#[derive(Clone, Copy, Debug, PartialEq, Eq)]
pub struct InstancePlan {
    pub lane: u32,
    pub quota: Option<u64>,
    pub stop: Option<u64>,
}

/// Whether an epoch has an orphan sweep, and after how many accesses (at most 2^40) it stops.
#[derive(Clone, Copy, Debug, PartialEq, Eq)]
pub enum SweepPlan {
    No,
    Yes { stop: Option<u64> },
}

/// An epoch: at most 32 instances, the places of a balancer's active backends, a NAT's sweep, and the
/// numbers of the actors in the order of their turns.
#[derive(Debug, Drop)]
pub struct Epoch {
    pub instances: Row<InstancePlan>,
    pub active: Row<u32>,
    pub sweep: SweepPlan,
    pub schedule: Row<u32>,
}

/// A plan: the function, 1 to 64 shards, 1 to 32 packets a batch, and 1 to 1000 epochs.
#[derive(Debug, Drop)]
pub struct Plan {
    pub function: FunctionPlan,
    pub shards: u32,
    pub batch: u32,
    pub epochs: Row<Epoch>,
    pub ghost some_shards: { 1 ≤ shards },
    pub ghost few_shards: { shards ≤ 64 },
    pub ghost some_batch: { 1 ≤ batch },
    pub ghost few_batch: { batch ≤ 32 },
    pub ghost some_epochs: { 1 ≤ length epochs },
    pub ghost few_epochs: { length epochs ≤ 1000 },
    pub ghost function_fits: { IsTrue (fits_function function) },
    pub ghost instances_fit: { IsTrue (list_all has_instances epochs) },
    pub ghost lanes_apart: { IsTrue (list_all has_lanes_apart epochs) },
    pub ghost places_fit: { IsTrue (list_all (has_places function) epochs) },
    pub ghost sweeps_fit: { IsTrue (list_all (has_sweep function) epochs) },
    pub ghost actors_fit: { IsTrue (list_all has_actors epochs) },
}
