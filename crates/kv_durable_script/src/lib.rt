//! Scripts on a durable bucket, and the script of its file.
#![tactic(auto)]

mod dumping;
pub mod laws;
mod lines;
mod running;
mod shrinking;
mod stored;
mod target;

pub use dumping::dump;
pub use kv_durable::{
    Durable, DurableError, JournalFile, NotDone, OpenFault, Opened, ReplaceableFile, Sync,
    SystemFile, SystemLocation,
};
pub use running::{Finished, run_durable};
pub use shrinking::{Compacts, InPlace, Replacing};
pub use target::OnDurable;
