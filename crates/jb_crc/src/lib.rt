//! CRC-32C, the checksum of a journal's blocks.
#![tactic(auto)]

mod checksum;
pub mod laws;
mod tables;

pub use checksum::crc32c;
