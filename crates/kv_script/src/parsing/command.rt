//! Commands of a script.

use kv_keys::{Filters, Key};
use kv_model::{Options, Request};

/// What a line of a script asks for. A watch goes by its number.
#[derive(Drop)]
pub enum Command {
    /// `put`, `create`, `update`, `delete`, `purge`.
    Write(Request),
    /// `get` of the latest entry.
    Get(Key),
    /// `get` at a revision.
    GetAt(Key, u64),
    /// `history`: the retained entries of a key.
    History(Key),
    /// `keys` that have a value and that one of the filters matches.
    Keys(Filters),
    /// `watch`, from now on.
    Watch(Filters, Options),
    /// `count` takes, or as many as come before one that answers Empty.
    Take { watch: u64, count: u64 },
    /// `stop` of an open watch.
    Stop(u64),
    /// `status`: the numbers of the bucket.
    Status,
    /// `seal`: the end of writes.
    Seal,
    /// `compact` to a floor, which is a revision.
    Compact(u64),
    /// The place of a key in a hash trie.
    Place(Key),
    /// `batch`: the writes of so many lines, in one step.
    Batch(u64),
}
