//! Asks by the calls of a bucket. After a call that is refused the bucket looks like its twin, of which only the rows
//! before were asked, and one that is refused for memory is made once more.

use super::*;

pub(super) fn taken(taken: Result<Taken<'_>, KvError>) -> Answer {
    match taken {
        Ok(Taken::Entry(shown)) => entry(shown.revision(), shown.value()),
        Ok(Taken::Marker) => Answer::Marker,
        Ok(Taken::Empty) => Answer::Empty,
        Err(error) => Answer::Refused(error),
    }
}

// Takes the item that is next.
fn take(rt: &impl Abort, bucket: &mut Bucket, watch: u64) -> Answer {
    let next = taken(bucket.peek(watch));
    let taken = taken(bucket.take(watch));
    equal(rt, taken, next);
    taken
}

fn stop(bucket: &mut Bucket, watch: u64) -> Answer {
    match bucket.stop(watch) {
        Ok(stopped) => Answer::Stopped(stopped.handed),
        Err(error) => Answer::Refused(error),
    }
}

fn done(done: Result<(), KvError>, answer: Answer) -> Answer {
    match done {
        Ok(()) => answer,
        Err(error) => Answer::Refused(error),
    }
}

// Compacts, which is done where it may be.
fn compact(rt: &impl Abort, bucket: &mut Bucket, floor: u64) -> Answer {
    let may = done(bucket.may_compact(floor), Answer::Compacted(floor));
    let answer = done(bucket.compact(floor), Answer::Compacted(floor));
    if answer.refusal() != Some(KvError::OutOfMemory) {
        equal(rt, answer, may);
    }
    answer
}

fn watch(alloc: Global, bucket: &mut Bucket, text: &str) -> Result<Answer, KvError> {
    let filters = Filters::parse(alloc, text)?;
    Ok(Answer::Watch(bucket.watch(&filters, LATEST)?))
}

fn watch_one(alloc: Global, bucket: &mut Bucket, text: &str) -> Result<Answer, KvError> {
    let filters = making::one(alloc, text)?;
    Ok(Answer::Watch(bucket.watch(&filters, LATEST)?))
}

fn get(alloc: Global, bucket: &Bucket, key: &str) -> Result<Answer, KvError> {
    let write = bucket.version().get(&Key::parse(alloc, key)?)?;
    Ok(entry(write.revision(), Some(write.value())))
}

fn get_at(alloc: Global, bucket: &Bucket, key: &str, revision: u64) -> Result<Answer, KvError> {
    let key = Key::parse(alloc, key)?;
    let write = bucket.version().get_at(&key, revision)?;
    Ok(entry(write.revision(), Some(write.value())))
}

fn history(alloc: Global, bucket: &Bucket, key: &str) -> Result<Answer, KvError> {
    let key = Key::parse(alloc, key)?;
    Ok(Answer::Count(bucket.version().history(alloc, &key)?.len()))
}

fn keys(alloc: Global, bucket: &Bucket, filters: &str) -> Result<Answer, KvError> {
    let filters = Filters::parse(alloc, filters)?;
    let keys = bucket.version().keys_where(alloc, &filters)?;
    Ok(Answer::Count(keys.len()))
}

fn write(alloc: Global, bucket: &mut Bucket, ask: Ask) -> Result<Answer, KvError> {
    match making::request(alloc, ask)? {
        Some(request) => Ok(Answer::Revision(bucket.write(&request)?)),
        None => Ok(Answer::Status(bucket.version().status(), bucket.watches())),
    }
}

fn in_memory(alloc: Global, bucket: &mut Bucket, ask: Ask) -> Result<Answer, KvError> {
    match ask {
        Ask::Get(key) => get(alloc, bucket, key),
        Ask::GetAt(key, revision) => get_at(alloc, bucket, key, revision),
        Ask::History(key) => history(alloc, bucket, key),
        Ask::Keys(filters) => keys(alloc, bucket, filters),
        Ask::Watch(filters) => watch(alloc, bucket, filters),
        Ask::WatchOne(filter) => watch_one(alloc, bucket, filter),
        _ => write(alloc, bucket, ask),
    }
}

fn ask_once(rt: &impl Abort, alloc: Global, bucket: &mut Bucket, ask: Ask) -> Answer {
    match ask {
        Ask::Take(watch) => take(rt, bucket, watch),
        Ask::Stop(watch) => stop(bucket, watch),
        Ask::Seal => done(bucket.seal(), Answer::Sealed),
        Ask::Compact(floor) => compact(rt, bucket, floor),
        _ => match in_memory(alloc, bucket, ask) {
            Ok(answer) => answer,
            Err(error) => Answer::Refused(error),
        },
    }
}

fn ask(rt: &impl Abort, alloc: Global, bucket: &mut Bucket, ask: Ask) -> Answer {
    once_more!(ask_once(rt, alloc, bucket, ask))
}

// Each row is asked of the bucket and then of its twin.
pub(super) fn ask_each_beside(
    rt: &impl Abort,
    alloc: Global,
    bucket: &mut Bucket,
    twin: &mut Bucket,
    rows: &[Row],
) {
    for row in rows {
        let answer = once_more!(
            ask_once(rt, alloc, bucket, row.0),
            look_alike(rt, bucket, twin)
        );
        equal(rt, answer, row.1);
        equal(rt, ask(rt, alloc, twin, row.0), row.1);
    }
}

// Each row is asked of one bucket alone.
pub(super) fn ask_each(rt: &impl Abort, alloc: Global, bucket: &mut Bucket, rows: &[Row]) {
    for row in rows {
        equal(rt, ask(rt, alloc, bucket, row.0), row.1);
    }
}
