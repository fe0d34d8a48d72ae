//! What the types of a plan's numbers say.
ghost use Rattle.std.specs.Prelude.{◌<◌, ◌^◌, IsTrue};
ghost use Rattle.std.specs.List.{list_all};
ghost use Rattle.slnf_base.specs.Ranges.{is_pair};
ghost use Rattle.slnf_setting.specs.Fits.{has_types};

use slnf_base::{Pair, Pool, know_pair};
use slnf_plan::{FunctionPlan, Plan};

/// A pool's numbers have the ranges of their types.
fn know_pool(pool: &Pool)
    ensures outside { pool.now.outside < 2 ^ 32 }
    ensures high { pool.now.high < 2 ^ 16 }
{
    let _outside = pool.outside;
    let _high = pool.high;
}

/// And so do those of these pairs.
fn know_pairs(pairs: &[Pair])
    ensures { IsTrue (list_all is_pair pairs.now) }
{
    for pair in pairs {
        know_pair(*pair);
    }
}

/// And those of a function.
fn know_function(function: &FunctionPlan)
    ensures { IsTrue (has_types function.now) }
{
    match function {
        FunctionPlan::Nat(pool) => know_pool(pool),
        FunctionPlan::Firewall {
            inside: _,
            rules: _,
        } => {}
        FunctionPlan::Balancer(service) => know_pairs(service.backends.as_slice()),
    }
}

/// The numbers of a plan's function have the ranges of their types, which the laws of plans ask for.
pub fn know_types(plan: &Plan)
    ensures { IsTrue (has_types plan.now.function) }
{
    know_function(&plan.function);
}
