//! The lanes of a plan, its function, and the setting that the two make.
#![tactic(auto)]

mod captures;
mod flights;
mod functions;
mod lanes;
mod outcomes;
mod outputs;
mod packets;
mod theorems;

pub use captures::{frame_of, make_lane};
pub use flights::AnyFlight;
pub use functions::AnyFunction;
pub use lanes::{Lane, Taken};
pub use outcomes::Outcome;
pub use outputs::write_output;
pub use packets::{begin, packets_on};
pub use theorems::function_is_plans;
