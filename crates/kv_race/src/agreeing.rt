//! The one list of acts that all watches of a race saw, and the version that stands for it.

ghost use Rattle.std.specs.Prelude.{◌≡◌, true, [], IfOk, IfErr, All, map};
ghost use Rattle.kv_bucket.specs.ReaderState.{IsUnread};
ghost use Rattle.kv_race.specs.Telling.{HasLast, IsShown};

use crate::ending::{Answers, Ended, hear_all};
use crate::feeding::refresh;
use crate::never::never;
use crate::opening::open_feed;
use kv_bucket::{Feed, LiveName, Reader};
use kv_keys::{Filters, KvError};
use kv_model::{Options, Start};
use kv_store::Version;
use std::alloc::Global;
use std::sync::Wait;

/// How a reader that nobody watches by is shown the last version.
const LATEST: Options = Options {
    start: Start::Latest,
    ignore_deletes: false,
    headers_only: false,
};

// Whether two readers have seen the same.
#[tactic(auto, using(crate::proofs::Alike::same_seen))]
fn have_seen_alike<N: LiveName>(one: &Reader<N>, other: &Reader<N>) -> bool
    ensures { result ≡ true → other.now.seen ≡ one.now.seen }
{
    one.has_seen_all_of(other) && other.has_seen_all_of(one)
}

// Whether all watches have seen what this reader has, and nothing else.
fn all_agree<N: LiveName>(reader: &Reader<N>, ended: &[Ended<N>]) -> bool
    ensures { result ≡ true → All (λ seen. seen ≡ reader.now.seen) (map (λ end. end.reader.seen) ended.now) }
{
    for n in 0..ended.len() {
        if !have_seen_alike(reader, &ended[n].reader) {
            return false;
        }
    }
    true
}

// The version that a feed goes on to once it has taken in all receipts.
fn last_shown<N: LiveName, R: Wait>(
    rt: &R,
    feed: &mut Feed<N>,
    answers: &[Answers<N>],
) -> Result<Version, KvError>
    ensures ok { IfOk result (HasLast N.opening.config (map (λ some. some.items) answers.now) []) }
    ensures err { IfErr result IsUnread }
{
    hear_all(feed, answers);
    refresh(rt, feed)?;
    feed.version()
}

// The version that a reader shows once it has taken in all receipts. There is one where nobody watches.
fn version_of<N: LiveName, R: Wait>(
    rt: &R,
    alloc: Global,
    reader: Option<Reader<N>>,
    answers: &[Answers<N>],
) -> Result<Version, KvError>
    ensures ok { IfOk result (HasLast N.opening.config (map (λ some. some.items) answers.now) []) }
    ensures err { IfErr result IsUnread }
{
    let Some(reader) = reader else {
        return never(rt);
    };
    let filters = Filters::parse(alloc, ">")?;
    let mut feed = open_feed(reader, &filters, LATEST)?;
    last_shown(rt, &mut feed, answers)
}

/// The version that all watches have gone on to. They always agree on it; where they did not, this would wait for ever.
/// Where there are none it is the one that the spare reader shows.
pub(crate) fn last_of<N: LiveName, R: Wait>(
    rt: &R,
    alloc: Global,
    ended: &[Ended<N>],
    spare: Option<Reader<N>>,
    answers: &[Answers<N>],
) -> Result<Version, KvError>
    requires { All (λ end. IsShown N.opening.config (map (λ some. some.items) answers.now) end.reader.seen end.last)
        ended.now }
    ensures ok { IfOk result
        (HasLast N.opening.config (map (λ some. some.items) answers.now) (map (λ end. end.reader.seen) ended.now)) }
    ensures err { IfErr result IsUnread }
{
    if ended.is_empty() {
        return version_of(rt, alloc, spare, answers);
    }
    let first = &ended[0];
    if all_agree(&first.reader, ended) {
        first.last.snapshot()
    } else {
        never(rt)
    }
}
