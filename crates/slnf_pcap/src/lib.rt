//! Classic captures, version 2.4 of the pcap file format: reading the headers of their records, and writing
//! a capture record by record.
#![tactic(auto)]

mod capture;
mod errors;
mod read;
#[cfg(test)]
mod tests;
mod write;

pub use capture::{Capture, Captured};
pub use errors::PcapError;
pub use read::read_capture;
pub use write::{write_header, write_packet};
