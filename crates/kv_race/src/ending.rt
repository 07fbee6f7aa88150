//! The end of a race, when all its threads have ended.

ghost use Rattle.std.specs.Prelude.{◌≡◌, [], IfOk, IfErr, map};
ghost use Rattle.kv_model.specs.Acts.{IsPrefix};
ghost use Rattle.kv_bucket.specs.FeedState.{HasLearned};
ghost use Rattle.kv_bucket.specs.ReaderState.{IsUnread};
ghost use Rattle.kv_race.specs.Telling.{Begin, BeginAll, IsEnded};

use crate::feeding::refresh;
use crate::threads::Watched;
use crate::watcher::collect;
use kv_bucket::{Feed, LiveName, Reader, Receipt, Reply};
use kv_keys::KvError;
use kv_store::Version;
use std::alloc::Global;
use std::sync::Wait;

/// What a worker was answered, in order.
pub(crate) type Answers<N> = Vec<Result<(u64, Receipt<N>), KvError>>;

// Takes in the receipt of an answer, if it has one.
#[tactic(auto, using(crate::proofs::Hearing::heard_nothing, crate::proofs::Hearing::heard_one))]
fn hear_one<N: LiveName>(feed: &mut Feed<N>, answer: &Result<(u64, Receipt<N>), KvError>)
    ensures heard { HasLearned [] feed.old feed.new }
    ensures told { IfOk answer.now (λ told. IsPrefix told.1 feed.new.reader.told) }
{
    if let Ok((_, receipt)) = answer {
        feed.learn(receipt);
    }
}

// Takes in the receipts of a worker.
#[tactic(auto, using(crate::proofs::Hearing::heard_nothing, crate::proofs::Hearing::heard_more, crate::proofs::Hearing::begin_next))]
fn hear<N: LiveName>(feed: &mut Feed<N>, answers: &Answers<N>)
    ensures heard { HasLearned [] feed.old feed.new }
    ensures told { Begin feed.new.reader.told answers.now.items }
{
    for n in 0..answers.len() {
        hear_one(feed, &answers[n]);
    }
}

/// Takes in the receipts of all workers.
#[tactic(auto, using(crate::proofs::Hearing::heard_nothing, crate::proofs::Hearing::heard_more, crate::proofs::Hearing::begin_all_next))]
pub(crate) fn hear_all<N: LiveName>(feed: &mut Feed<N>, answers: &[Answers<N>])
    ensures heard { HasLearned [] feed.old feed.new }
    ensures told { BeginAll feed.new.reader.told (map (λ some. some.items) answers.now) }
{
    for n in 0..answers.len() {
        hear(feed, &answers[n]);
    }
}

/// A watch that has ended: its reader, the version that it went on to, and all that it saw.
#[derive(Drop)]
pub(crate) struct Ended<N: LiveName> {
    pub(crate) reader: Reader<N>,
    pub(crate) last: Version,
    pub(crate) seen: Vec<Reply>,
}

// Takes in all receipts, goes on once more, and hands out all that is left; the version is the one that it went on to.
fn drain<N: LiveName, R: Wait>(
    rt: &R,
    alloc: Global,
    feed: &mut Feed<N>,
    seen: &mut Vec<Reply>,
    answers: &[Answers<N>],
) -> Result<Version, KvError>
    ensures ok { IfOk result (λ last. IsEnded N.opening.config (map (λ some. some.items) answers.now)
        feed.old seen.old.items feed.new.reader.seen last seen.new.items) }
    ensures err { IfErr result IsUnread }
{
    hear_all(feed, answers);
    feed.handed();
    refresh(rt, feed)?;
    collect(alloc, feed, seen)?;
    feed.version()
}

/// Ends a watch: it takes in all receipts, goes on once more, and hands out all that is left.
pub(crate) fn end_watch<N: LiveName, R: Wait>(
    rt: &R,
    alloc: Global,
    watched: Watched<N>,
    answers: &[Answers<N>],
) -> Result<Ended<N>, KvError>
    ensures ok { IfOk result
        (λ ended. IsEnded N.opening.config (map
        (λ some. some.items) answers.now) watched.feed watched.seen.items ended.reader.seen ended.last
        ended.seen.items) }
    ensures err { IfErr result IsUnread }
{
    let Watched { mut feed, mut seen } = watched;
    let last = drain(rt, alloc, &mut feed, &mut seen, answers)?;
    let (reader, _) = feed.stop();
    Ok(Ended { reader, last, seen })
}
