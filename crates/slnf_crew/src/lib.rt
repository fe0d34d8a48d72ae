//! The actors of a plan's epochs: what each works on, and what it is sent to do.
#![tactic(auto)]

mod crews;
mod errands;
mod items;
mod theorems;

pub use crews::{epoch_of, items_of};
pub use errands::errand_for;
pub use items::{ActorItems, ItemFlight};
pub use theorems::actors_have_jobs;
