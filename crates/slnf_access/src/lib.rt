//! The store's accesses, what each one means, and the functions that make them.
#![tactic(auto)]

mod functions;
mod requests;
mod stores;

pub use functions::{Function, Start, Step};
pub use requests::{Ask, Entry, Held, Key, Reply, Request, Value};
pub use stores::ListStore;

#[cfg(test)]
mod tests;
