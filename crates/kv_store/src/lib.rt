//! Versions of a bucket: each is a value that stands for a list of accepted acts, and stays as it is, whatever is made
//! of another.
#![tactic(auto)]

mod accept;
mod compaction;
mod key_history;
pub mod laws;
mod listing;
mod put_back;
mod read;
mod rev;
mod ring;
mod stored;
mod version;
mod wanted;
mod write;

pub use key_history::KeyHistory;
pub use kv_model::{Config, Op, Request, Status, Write};
pub use rev::Rev;
pub use ring::{Next, Ring};
pub use version::Version;
pub use wanted::Wanted;
