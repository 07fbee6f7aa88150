//! Batches: all of their requests are done in one step, or none. Each is compared with a twin of which the requests of the
//! accepted batches were asked one after the other.

use super::*;
use kv_single::BatchRefused;

// What a batch was answered: the revision of its first write, or the place of the request that was refused, and why.
#[derive(Clone, Copy, Debug, PartialEq, Eq)]
enum Batched {
    First(u64),
    Refused(usize, KvError),
}

impl Answered for Batched {
    fn refusal(&self) -> Option<KvError> {
        match *self {
            Batched::First(_) => None,
            Batched::Refused(_, error) => Some(error),
        }
    }
}

type BatchRow = (&'static [Ask], Batched);

fn requests(alloc: Global, asks: &[Ask]) -> Result<Vec<Request>, KvError> {
    let mut requests = Vec::new(alloc);
    for ask in asks {
        if let Some(request) = making::request(alloc, *ask)? {
            requests.push(request)?;
        }
    }
    Ok(requests)
}

fn written(bucket: &mut Bucket, requests: &[Request]) -> Batched {
    match bucket.write_all(requests) {
        Ok(first) => Batched::First(first),
        Err(refused) => Batched::Refused(refused.at, refused.error),
    }
}

// What is accepted in one step is accepted one after the other, with revisions that go on from the first.
fn follow(rt: &impl Abort, alloc: Global, twin: &mut Bucket, asks: &[Ask], first: u64) {
    let mut revision = first;
    for ask in asks {
        asking::ask_each(rt, alloc, twin, &[(*ask, Answer::Revision(revision))]);
        revision = revision.wrapping_add(1);
    }
}

// A batch that is refused leaves the bucket like its twin.
fn ask_batch(
    rt: &impl Abort,
    alloc: Global,
    bucket: &mut Bucket,
    twin: &mut Bucket,
    row: BatchRow,
) -> Result<(), KvError> {
    let requests = once_more!(requests(alloc, row.0))?;
    let answer = once_more!(written(bucket, &requests), look_alike(rt, bucket, twin));
    equal(rt, answer, row.1);
    if let Batched::First(first) = row.1 {
        follow(rt, alloc, twin, row.0, first);
    }
    look_alike(rt, bucket, twin);
    Ok(())
}

// Two watches are open meanwhile, of which one has been handed what came before.
const WATCHED: &[Row] = &[
    (Ask::Put("a", "0"), Answer::Revision(1)),
    (Ask::Watch(">"), Answer::Watch(1)),
    (Ask::Watch("b"), Answer::Watch(2)),
    (Ask::Take(1), Answer::Entry(1, b'0')),
    (Ask::Take(1), Answer::Marker),
];

fn ask_all(
    rt: &impl Abort,
    alloc: Global,
    limits: Limits,
    beginning: &[Row],
    batches: &[BatchRow],
    end: &[Row],
) -> Result<(), KvError> {
    let mut bucket = open(alloc, limits)?;
    let mut twin = open(alloc, limits)?;
    asking::ask_each_beside(rt, alloc, &mut bucket, &mut twin, beginning);
    for row in batches {
        ask_batch(rt, alloc, &mut bucket, &mut twin, *row)?;
    }
    asking::ask_each_beside(rt, alloc, &mut bucket, &mut twin, end);
    Ok(())
}

// Each request is judged behind those before it: a create behind a delete of the same batch, and not behind a put.
const JUDGED: &[BatchRow] = &[
    (&[], Batched::First(1)),
    (
        &[Ask::Put("a", "1"), Ask::Create("b"), Ask::Put("a", "2")],
        Batched::First(2),
    ),
    (&[], Batched::First(4)),
    (
        &[Ask::Delete("b"), Ask::Create("b"), Ask::Purge("a", 4)],
        Batched::First(5),
    ),
    (
        &[Ask::Put("c", "1"), Ask::Delete("a"), Ask::Create("c")],
        Batched::Refused(2, KvError::KeyExists),
    ),
    (
        &[Ask::Purge("a", 4), Ask::Create("b")],
        Batched::Refused(0, KvError::WrongLastRevision { last: 7 }),
    ),
    (&[Ask::Put("c", "2")], Batched::First(8)),
];

const HANDED: &[Row] = &[
    (Ask::Take(1), Answer::Entry(2, b'1')),
    (Ask::Take(1), Answer::Entry(3, 0)),
    (Ask::Take(1), Answer::Entry(4, b'2')),
    (Ask::Take(1), Answer::Entry(5, 0)),
    (Ask::Take(1), Answer::Entry(6, 0)),
    (Ask::Take(1), Answer::Entry(7, 0)),
    (Ask::Take(1), Answer::Entry(8, b'2')),
    (Ask::Take(1), Answer::Empty),
    (Ask::Take(2), Answer::Marker),
    (Ask::Take(2), Answer::Entry(3, 0)),
    (Ask::Take(2), Answer::Entry(5, 0)),
    (Ask::Take(2), Answer::Entry(6, 0)),
    (Ask::Take(2), Answer::Empty),
];

#[test]
fn a_batch_is_its_requests_or_nothing(rt: HostRuntime) -> Result<(), Fail> {
    ask_all(&rt, rt.alloc(), keeping(3), WATCHED, JUDGED, HANDED)?;
    Ok(())
}

const TWO_WRITES: Limits = Limits {
    history: 1,
    value_limit: 1,
    write_limit: 2,
    revision_limit: 2,
};

const FULL: &[BatchRow] = &[
    (
        &[Ask::Put("a", "1"), Ask::Put("b", "2"), Ask::Put("c", "3")],
        Batched::Refused(2, KvError::JournalFull),
    ),
    (
        &[Ask::Put("a", "1"), Ask::Put("b", "22")],
        Batched::Refused(1, KvError::ValueTooLarge),
    ),
    (&[Ask::Put("a", "1"), Ask::Put("b", "2")], Batched::First(1)),
    (
        &[Ask::Delete("a")],
        Batched::Refused(0, KvError::JournalFull),
    ),
    (&[], Batched::First(2)),
];

const SEAL: &[Row] = &[(Ask::Seal, Answer::Sealed)];

const SEALED: &[BatchRow] = &[
    (
        &[Ask::Put("a", "1"), Ask::Put("b", "2")],
        Batched::Refused(0, KvError::Sealed),
    ),
    (&[], Batched::First(0)),
];

#[test]
fn a_batch_that_finds_no_room_leaves_it_to_the_next(rt: HostRuntime) -> Result<(), Fail> {
    ask_all(&rt, rt.alloc(), TWO_WRITES, &[], FULL, SEAL)?;
    Ok(())
}

#[test]
fn a_sealed_bucket_refuses_the_first_of_a_batch(rt: HostRuntime) -> Result<(), Fail> {
    ask_all(&rt, rt.alloc(), keeping(1), SEAL, SEALED, &[])?;
    Ok(())
}

fn text(alloc: Global) -> Result<String, KvError> {
    let refused = BatchRefused {
        at: 2,
        error: KvError::KeyExists,
    };
    Ok(format!(in alloc; "{refused}")?)
}

#[test]
fn the_text_of_a_refused_batch_has_its_place(rt: HostRuntime) -> Result<(), Fail> {
    let text = once_more!(text(rt.alloc()))?;
    equal(&rt, text.as_str(), "KeyExists at 2");
    Ok(())
}
