//! A bucket that threads share and that survives its process: what is published of it is in its file before, and on the disk
//! where each act is synced. So no reader, feed or receipt sees what a crash takes back.
#![tactic(auto)]

mod acceptance;
mod batch;
mod checkpoint;
mod close;
mod compaction;
mod keeper;
pub mod laws;
mod live;
mod open;
mod shrinking;
mod write;

pub use keeper::DurableKeeper;
pub use kv_bucket::{BatchReceipt, Feed, LiveName, Mark, Reader, Receipt};
pub use kv_durable::{
    BatchError, DurableError, Journal, JournalFile, NotDone, ReplaceableFile, Shrunk, Sync,
    SystemFile, SystemLocation,
};
pub use live::DurableLive;
pub use open::Opened;
