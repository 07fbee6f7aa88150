//! A bucket: what was accepted, and the watches that are open.
#![tactic(auto)]

mod bucket;
mod compaction;
pub mod laws;
mod reply;
mod run;
mod watch;
mod write;

pub use bucket::Bucket;
pub use kv_keys::{Filter, Filters, Key, KvError, Place, Short, fnv32};
pub use kv_model::{
    BatchRefused, Call, Config, Event, Op, Options, Request, Start, Status, Stopped, Write,
};
pub use kv_store::{KeyHistory, Rev, Version};
pub use kv_trie::{Trie, Visit};
pub use kv_watch::{Cursor, Shown, Taken, given};
pub use reply::{Reply, Seen};
