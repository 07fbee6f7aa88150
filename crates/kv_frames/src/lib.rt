//! Frames of bytes, each with a checksum: what a journal file is made of, and what is read of it after a crash.
#![tactic(auto)]

mod crc;
mod frame;
pub mod laws;
mod table;
mod whole;

pub use frame::Framing;
pub use table::Crc32c;
