//! What a race answers.

use kv_keys::KvError;
use kv_single::Reply;
use kv_store::Version;

/// What a race answers.
#[derive(Drop)]
pub struct Report {
    /// Of each worker, the revision or the refusal of each request, in order.
    pub replies: Vec<Vec<Result<u64, KvError>>>,
    /// Of each watch, the entries and the marker that it was handed, in order.
    pub seen: Vec<Vec<Reply>>,
    /// The version once all workers had ended.
    pub last: Version,
}
