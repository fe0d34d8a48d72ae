//! The law of the sweep: it stands as the contract of a function that does nothing.
ghost use Rattle.std.specs.Prelude.{◌≤◌, ℕ, List, length};
ghost use Rattle.slnf_base.specs.declared.plans.Pool.{Pool};
ghost use Rattle.slnf_access.specs.declared.requests.Entry.{Entry};
ghost use Rattle.slnf_access.specs.Machines.{IsPath};
ghost use Rattle.slnf_box.specs.Pools.{nat_of};
ghost use Rattle.slnf_nat.specs.Machine.{nat_machine};
ghost use Rattle.slnf_nat.specs.Starts.{sweep_item};

use slnf_nat::nat_is_bounded;

/// An item of a sweep makes no more than three accesses.
pub fn sweep_is_bounded()
    ensures { (pool : Pool) (base item : ℕ) (own : List Entry)
        → IsPath (nat_machine (nat_of pool)) (sweep_item pool base item) own → length own ≤ 3 }
{
    nat_is_bounded();
}
