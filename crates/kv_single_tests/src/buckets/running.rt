//! The same asks in one run. Where a request for memory is refused, the calls before the refused one were done and
//! answered, and the others go on from there.

use super::*;

fn calls(alloc: Global, rows: &[Row]) -> Result<Vec<Call>, KvError> {
    let mut calls = Vec::new(alloc);
    for row in rows {
        calls.push(making::call(alloc, row.0)?)?;
    }
    Ok(calls)
}

fn brief(reply: &Reply) -> Answer {
    match reply {
        Reply::Revision(revision) => Answer::Revision(*revision),
        Reply::Sealed => Answer::Sealed,
        Reply::Entry(seen) => entry(seen.revision, seen.value.as_deref()),
        Reply::Entries(entries) => Answer::Count(entries.len()),
        Reply::Keys(keys) => Answer::Count(keys.len()),
        Reply::Status { status, watches } => Answer::Status(*status, *watches),
        Reply::Watch(number) => Answer::Watch(*number),
        Reply::Marker => Answer::Marker,
        Reply::Empty => Answer::Empty,
        Reply::Stopped(stopped) => Answer::Stopped(stopped.handed),
        Reply::Compacted(floor) => Answer::Compacted(*floor),
        Reply::Refused(error) => Answer::Refused(*error),
    }
}

// The bucket looks like one of which these rows alone were asked.
fn looks_asked(
    rt: &impl Abort,
    alloc: Global,
    limits: Limits,
    bucket: &Bucket,
    rows: &[Row],
) -> Result<(), KvError> {
    let mut other = open(alloc, limits)?;
    asking::ask_each(rt, alloc, &mut other, rows);
    look_alike(rt, bucket, &other);
    Ok(())
}

fn run(
    rt: &impl Abort,
    alloc: Global,
    limits: Limits,
    bucket: &mut Bucket,
    rows: &[Row],
    calls: &[Call],
    replies: &mut Vec<Reply>,
) -> Result<(), KvError> {
    if let Err(error) = bucket.run(calls, replies) {
        equal(rt, error, KvError::OutOfMemory);
        let done = replies.len();
        assert!(rt; done < calls.len() && done < rows.len());
        looks_asked(rt, alloc, limits, bucket, &rows[..done])?;
        bucket.run(&calls[done..], replies)?;
    }
    looks_asked(rt, alloc, limits, bucket, rows)
}

fn are_answers(rt: &impl Abort, replies: &[Reply], rows: &[Row]) {
    equal(rt, replies.len(), rows.len());
    for (reply, row) in replies.iter().zip(rows) {
        equal(rt, brief(reply), row.1);
    }
}

// In a new bucket each row has its answer.
pub(super) fn run_all(
    rt: &impl Abort,
    alloc: Global,
    limits: Limits,
    rows: &[Row],
) -> Result<(), KvError> {
    let mut bucket = open(alloc, limits)?;
    let calls = once_more!(calls(alloc, rows))?;
    let mut replies = Vec::new(alloc);
    run(rt, alloc, limits, &mut bucket, rows, &calls, &mut replies)?;
    are_answers(rt, &replies, rows);
    Ok(())
}
