//! Files by name, with a count of the faults of each kind of call at each name.
#![tactic(auto)]

mod calls;
mod faults;
mod files;
mod memory;
mod real;
mod shelf;
mod sure;
#[cfg(test)]
mod tests;
mod whole;

pub use calls::{Fail, Made};
pub use faults::Fault;
pub use files::Stored;
pub use memory::MemoryShelf;
pub use real::FileShelf;
pub use shelf::{Call, Shelf, ShelfError};
pub use sure::SureShelf;
pub use whole::{WholeError, read_whole, write_whole};
