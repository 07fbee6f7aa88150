//! How the watches of a race begin.

ghost use Rattle.std.specs.Prelude.{◌≡◌, IfOk, IfErr};
ghost use Rattle.kv_keys.specs.declared.error.KvError.TheVariants.{OutOfMemory};
ghost use Rattle.std.specs.List.{AllZip};
ghost use Rattle.kv_bucket.specs.ReaderState.{IsUnread};
ghost use Rattle.kv_race.specs.Openings.{IsFresh};

use crate::never::never;
use kv_bucket::{Feed, LiveName, Reader};
use kv_keys::{Filters, KvError};
use kv_model::Options;
use std::alloc::Global;
use std::sync::Wait;

/// A feed that begins on the empty bucket.
pub(crate) fn open_feed<N: LiveName>(
    reader: Reader<N>,
    filters: &Filters,
    options: Options,
) -> Result<Feed<N>, KvError>
    ensures ok { IfOk result (λ feed. IsFresh N.opening.config (filters.now, options) feed) }
    ensures err { IfErr result (λ e. e ≡ OutOfMemory) }
{
    match reader.watch_from_empty(filters, options) {
        Ok(feed) => Ok(feed),
        Err((_, refusal)) => Err(refusal),
    }
}

/// A feed for each watch, and a reader that is left, if one is. There are as many readers as watches, or more; where there
/// were not, this would wait for ever.
pub(crate) fn open_feeds<N: LiveName, R: Wait>(
    rt: &R,
    alloc: Global,
    mut readers: Vec<Reader<N>>,
    watches: &[(Filters, Options)],
) -> Result<(Vec<Feed<N>>, Option<Reader<N>>), KvError>
    ensures ok { IfOk result (λ opened. AllZip (IsFresh N.opening.config) watches.now opened.0.items) }
    ensures err { IfErr result IsUnread }
{
    let mut feeds = Vec::new(alloc);
    for n in 0..watches.len() {
        let Some(reader) = readers.pop() else {
            return never(rt);
        };
        let (filters, options) = &watches[n];
        feeds.push(open_feed(reader, filters, *options)?)?;
    }
    Ok((feeds, readers.pop()))
}
