//! One bucket for many threads: writers share one lock; readers, feeds and receipts take none. What is published lies in
//! the log of `kv_publish`. It hands on the names of `kv_single`, so that one crate is enough for who shares a bucket.
#![tactic(auto)]

mod batch;
mod cached;
mod feed;
mod keeper;
pub mod laws;
mod live;
mod prepared;
mod progress;
mod publisher;
mod reader;
mod receipt;
mod serve;
mod threaded;

pub use batch::BatchReceipt;
pub use cached::Cached;
pub use feed::Feed;
pub use keeper::Keeper;
pub use kv_publish::{Began, ChosenActs, Known, LiveName, Notifier, Woken};
pub use kv_single::{
    BatchRefused, Bucket, Call, Config, Cursor, Event, Filter, Filters, Key, KeyHistory, KvError,
    Op, Options, Place, Reply, Request, Rev, Seen, Short, Shown, Start, Status, Stopped, Taken,
    Trie, Version, Visit, Write, fnv32, given,
};
pub use live::{Live, Opened};
pub use prepared::{Prepared, PreparedBatch};
pub use reader::Reader;
pub use receipt::{Mark, Receipt};
pub use serve::Service;
pub use threaded::ThreadedService;
