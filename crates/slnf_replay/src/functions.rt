ghost use Rattle.std.specs.Prelude.{◌≡◌, ◌<◌, Some, length, slice_get, IfOk};
ghost use Rattle.slnf_replay.specs.Functions.{AreFunctionsOf};

use slnf_base::NoMemory;
use slnf_flight::AnyFunction;
use slnf_plan::Plan;
use std::alloc::Global;

/// The functions of a plan's epochs, in order.
pub(crate) fn functions_of(alloc: Global, plan: &Plan) -> Result<Vec<AnyFunction>, NoMemory>
    ensures { IfOk result (λ functions. AreFunctionsOf plan.now.function plan.now.epochs functions.items) }
{
    let mut functions = Vec::new(alloc);
    for number in 0..plan.epochs.len() {
        functions.push(AnyFunction::of(alloc, plan, number)?)?;
    }
    Ok(functions)
}

/// The function of the epoch with this number.
pub(crate) fn function_of(functions: &[AnyFunction], epoch: usize) -> &AnyFunction
    requires { epoch < length functions.now }
    ensures { slice_get functions.now epoch ≡ Some result.now }
{
    &functions[epoch]
}
