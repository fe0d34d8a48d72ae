ghost use Rattle.std.specs.Prelude.{◌≡◌};
ghost use Rattle.slnf_follow.specs.Refusals.{refusal_of};

use slnf_local::Broken;

/// Where a rule is broken. Lines and entries are counted from 1. An output's byte has its lane, and its place counted
/// from 0.
#[derive(Clone, Copy, Debug, PartialEq, Eq)]
pub enum At {
    Line(u64),
    Entry(u64),
    Incarnation(u64),
    OutputByte(u32, u64),
}

/// The first rule that is broken, by its number, and the least place where it is.
#[derive(Clone, Copy, Debug, PartialEq, Eq)]
pub struct Refusal {
    pub rule: u8,
    pub at: At,
}

/// A rule of runs by its number.
pub(crate) fn refusal_of(broken: Broken) -> Refusal
    ensures { result ≡ refusal_of broken }
{
    match broken {
        Broken::Order(place) => Refusal {
            rule: 2,
            at: At::Entry(place),
        },
        Broken::Reply(place) => Refusal {
            rule: 3,
            at: At::Entry(place),
        },
        Broken::Unexpected(place) => Refusal {
            rule: 4,
            at: At::Entry(place),
        },
        Broken::Unended(incarnation) => Refusal {
            rule: 5,
            at: At::Incarnation(incarnation),
        },
    }
}
