//! What joins a bucket and its file: the version that a file stands for, and what a crash leaves of it.
#![tactic(auto)]

mod acceptance;
mod batch;
mod checkpoint;
mod close;
mod compaction;
mod config;
mod durable;
mod error;
mod journal;
pub mod laws;
mod open;
mod records;
mod recovery;
mod shrinking;
mod start;
mod watch;
mod write;

pub use durable::{Durable, NotDone};
pub use error::{BatchError, DurableError};
pub use journal::Journal;
pub use kv_file::{JournalFile, OpenFault, ReplaceableFile, Sync, SystemFile, SystemLocation};
pub use open::Opened;
pub use recovery::{Recovered, recover};
pub use shrinking::Shrunk;
