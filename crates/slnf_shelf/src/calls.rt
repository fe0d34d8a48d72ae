ghost use Rattle.std.specs.Prelude.{◌≡◌};
ghost use Rattle.slnf_shelf.specs.Counters.{one_more};

use crate::shelf::Call;

/// A call that is to fail: its kind, and its number among the calls of that kind, counted from 1.
#[derive(Clone, Copy, Debug, PartialEq, Eq)]
pub struct Fail {
    pub call: Call,
    pub count: u64,
}

/// How many calls of each kind were made. The numbers stand still at their type's end.
#[derive(Clone, Copy, Debug, PartialEq, Eq)]
pub struct Made {
    pub reads: u64,
    pub begins: u64,
    pub appends: u64,
}

impl Made {
    ghost use Rattle.slnf_shelf.specs.Memory.{next_number, with_call};

    /// Counts one more call of this kind, and gives its number.
    pub(crate) fn count(&mut self, call: Call) -> u64
        ensures number { result ≡ next_number self.old call }
        ensures counted { self.new ≡ with_call call self.old }
    {
        match call {
            Call::Read => count_one(&mut self.reads),
            Call::Begin => count_one(&mut self.begins),
            Call::Append => count_one(&mut self.appends),
        }
    }
}

fn count_one(number: &mut u64) -> u64
    ensures number { result ≡ one_more number.old }
    ensures counted { number.new ≡ one_more number.old }
{
    *number = number.saturating_add(1);
    *number
}
