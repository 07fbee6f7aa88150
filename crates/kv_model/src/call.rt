//! What a bucket can be asked.

use crate::options::Options;
use crate::request::Request;
use kv_keys::{Filters, Key};

/// What a bucket can be asked. A watch goes by its number.
#[derive(Drop)]
pub enum Call {
    /// A write: ValueTooLarge, Sealed, JournalFull, KeyExists or WrongLastRevision where the rules refuse it.
    Write(Request),
    /// The end of writes. A bucket may be sealed again.
    Seal,
    /// The latest entry of the key, where it is a put, else KeyNotFound.
    Get(Key),
    /// The retained entry of the key with the revision, where it is a put, else KeyNotFound.
    GetAt(Key, u64),
    /// The retained entries of the key, markers among them, else KeyNotFound.
    History(Key),
    /// The keys that one of the filters matches and whose latest entry is a put, each once, in the order of those puts'
    /// revisions.
    Keys(Filters),
    /// The numbers of the bucket.
    Status,
    /// A new watch, from now on: TooManyWatches where 64 are open or all numbers are given.
    Watch(Filters, Options),
    /// The next item of an open watch, else NoSuchWatch.
    Take(u64),
    /// The end of an open watch, else NoSuchWatch.
    Stop(u64),
    /// A compaction to a floor: BadFloor where the floor is 0, above the last revision, or below the floor so far, else
    /// WatchBehind where an open watch still owes an entry that came after it was opened and is at or below the floor.
    Compact(u64),
}
