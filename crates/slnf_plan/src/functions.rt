//! The tables of the functions.
ghost use Rattle.std.specs.Prelude.{IfOk, IsTrue};
ghost use Rattle.slnf_plan.specs.Ranges.{fits_function};
ghost use Rattle.toml.specs.View.{table_view};
ghost use Rattle.slnf_plan.specs.Refusals.{Gives};
ghost use Rattle.slnf_plan.specs.Plain.{PlainPool, PlainRule, PlainFunction, plain_pool, plain_rule, plain_function};
ghost use Rattle.slnf_plan.specs.Plans.{nat_rows, nat_table, rule_rows, rule_table, firewall_rows, firewall_table, balancer_rows, balancer_table, function_row};
ghost use Rattle.slnf_base.specs.declared.plans.Service.{Service};

use crate::count::Count;
use crate::function_kind::FunctionKind;
use crate::kinds::{Kind, as_table, defaulted, known, required};
use crate::lists::ListOf;
use crate::plan::FunctionPlan;
use crate::refusal::{Cause, Fault};
use crate::values::{OneOf, OutsideText, PairText, Ports, PrefixText};
use slnf_base::{Pool, Prefix, Proto, Service};
use slnf_fw_table::Rule;
use std::alloc::Global;
use toml::{Table, Value};

/// The table of the function that a plan runs.
#[tactic(auto, unfolding(crate::specs::Plans::function_row))]
pub(crate) fn function_at(
    alloc: Global,
    table: &Table,
    kind: FunctionKind,
) -> Result<FunctionPlan, Fault>
    ensures gives { Gives plain_function result (function_row kind (table_view table.now)) }
    ensures fits { IfOk result (λ f. IsTrue (fits_function f)) }
{
    match kind {
        FunctionKind::Nat => {
            let pool = required(alloc, table, "nat", &NatTable)?;
            Ok(FunctionPlan::Nat(pool))
        }
        FunctionKind::Firewall => required(alloc, table, "firewall", &FirewallTable),
        FunctionKind::Balancer => {
            let service = required(alloc, table, "balancer", &BalancerTable)?;
            Ok(FunctionPlan::Balancer(service))
        }
    }
}

#[derive(Drop)]
struct NatTable;

impl Kind for NatTable {
    type Item = Pool;

    ghost Plain = { PlainPool };

    ghost plain = { plain_pool };

    ghost reads = { λ _ d. nat_table d };

    #[tactic(auto, unfolding(crate::specs::Plans::nat_table))]
    fn read(&self, alloc: Global, value: &Value) -> Result<Pool, Fault> {
        let table = as_table(value)?;
        known(alloc, table, &["inside", "outside", "ports"])?;
        nat_pool(alloc, table)
    }
}

#[tactic(auto, unfolding(crate::specs::Plans::nat_rows))]
fn nat_pool(alloc: Global, table: &Table) -> Result<Pool, Fault>
    ensures { Gives plain_pool result (nat_rows (table_view table.now)) }
{
    let inside = required(alloc, table, "inside", &PrefixText)?;
    let outside = required(alloc, table, "outside", &OutsideText { inside })?;
    let (low, high) = required(alloc, table, "ports", &Ports { least: 1024 })?;
    Ok(Pool {
        inside,
        outside,
        low,
        high,
    })
}

#[derive(Drop)]
struct FirewallTable;

impl Kind for FirewallTable {
    type Item = FunctionPlan;

    ghost Plain = { PlainFunction };

    ghost plain = { plain_function };

    ghost reads = { λ _ d. firewall_table d };

    #[tactic(auto, unfolding(crate::specs::Plans::firewall_table))]
    fn read(&self, alloc: Global, value: &Value) -> Result<FunctionPlan, Fault> {
        let table = as_table(value)?;
        known(alloc, table, &["inside", "rules"])?;
        firewall(alloc, table)
    }
}

#[tactic(auto, unfolding(crate::specs::Plans::firewall_rows))]
fn firewall(alloc: Global, table: &Table) -> Result<FunctionPlan, Fault>
    ensures { Gives plain_function result (firewall_rows (table_view table.now)) }
{
    let inside = required(alloc, table, "inside", &PrefixText)?;
    let rules = ListOf {
        count: Count {
            empty: None,
            most: Some(256),
        },
        element: RuleTable,
    };
    let rules = required(alloc, table, "rules", &rules)?;
    Ok(FunctionPlan::Firewall { inside, rules })
}

#[derive(Drop)]
struct RuleTable;

impl Kind for RuleTable {
    type Item = Rule;

    ghost Plain = { PlainRule };

    ghost plain = { plain_rule };

    ghost reads = { λ _ d. rule_table d };

    #[tactic(auto, unfolding(crate::specs::Plans::rule_table))]
    fn read(&self, alloc: Global, value: &Value) -> Result<Rule, Fault> {
        let table = as_table(value)?;
        let listed = ["action", "direction", "proto", "source", "dest", "ports"];
        known(alloc, table, &listed)?;
        rule(alloc, table)
    }
}

const ACTIONS: [(&str, bool); 2] = [("permit", true), ("deny", false)];

const DIRECTIONS: [(&str, bool); 2] = [("out", true), ("in", false)];

const RULE_PROTOS: [(&str, u8); 3] = [("tcp", 6), ("udp", 17), ("any", 0)];

const PROTOS: [(&str, Proto); 2] = [("tcp", Proto::Tcp), ("udp", Proto::Udp)];

#[tactic(auto, unfolding(crate::specs::Plans::rule_rows))]
fn rule(alloc: Global, table: &Table) -> Result<Rule, Fault>
    ensures { Gives plain_rule result (rule_rows (table_view table.now)) }
{
    let permit = required(alloc, table, "action", &OneOf { words: &ACTIONS })?;
    let outbound = required(alloc, table, "direction", &OneOf { words: &DIRECTIONS })?;
    let protos = OneOf {
        words: &RULE_PROTOS,
    };
    let proto = defaulted(alloc, table, "proto", &protos, 0)?;
    let everywhere = Prefix { addr: 0, bits: 0 };
    let source = defaulted(alloc, table, "source", &PrefixText, everywhere)?;
    let dest = defaulted(alloc, table, "dest", &PrefixText, everywhere)?;
    let ports = Ports { least: 0 };
    let (low, high) = defaulted(alloc, table, "ports", &ports, (0, 65535))?;
    Ok(Rule {
        permit,
        outbound,
        proto,
        source: source.addr,
        source_bits: source.bits,
        dest: dest.addr,
        dest_bits: dest.bits,
        low,
        high,
    })
}

#[derive(Drop)]
struct BalancerTable;

impl Kind for BalancerTable {
    type Item = Service;

    ghost Plain = { Service };

    ghost plain = { λ service. service };

    ghost reads = { λ _ d. balancer_table d };

    #[tactic(auto, unfolding(crate::specs::Plans::balancer_table))]
    fn read(&self, alloc: Global, value: &Value) -> Result<Service, Fault> {
        let table = as_table(value)?;
        known(alloc, table, &["proto", "service", "backends"])?;
        service(alloc, table)
    }
}

#[tactic(auto, unfolding(crate::specs::Plans::balancer_rows))]
fn service(alloc: Global, table: &Table) -> Result<Service, Fault>
    ensures { Gives (λ s. s) result (balancer_rows (table_view table.now)) }
{
    let proto = required(alloc, table, "proto", &OneOf { words: &PROTOS })?;
    let front = required(alloc, table, "service", &PairText)?;
    let backends = ListOf {
        count: Count {
            empty: Some(Cause::NoBackend),
            most: Some(64),
        },
        element: PairText,
    };
    let backends = required(alloc, table, "backends", &backends)?;
    Ok(Service {
        proto,
        front,
        backends,
    })
}
