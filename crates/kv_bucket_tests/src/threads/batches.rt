//! Tests of batches: what is asked in one is done in one step, or nothing of it is.

use super::*;
use kv_bucket::{BatchReceipt, Keeper};

pub(super) const NOTHING: &[Ask] = &[];

pub(super) const PAIR: &[Ask] = &[Ask::Put("a"), Ask::Put("b")];

pub(super) const LAST_IS_THERE: &[Ask] = &[Ask::Put("c"), Ask::Create("a")];

// Each request is judged behind those before it.
const LAST_IS_TOO_OLD: &[Ask] = &[Ask::Put("c"), Ask::Put("a"), Ask::Delete("a", 1)];

const CREATED_ANEW: &[Ask] = &[Ask::Delete("a", 1), Ask::Create("a"), Ask::Put("c")];

// The limit of writes is six.
const IN_ONE_STEP: &[(Call, Answer)] = &[
    (Call::Guarded(Step::Watch), Answer::Number(1)),
    (Call::WriteAll(NOTHING), Answer::Number(0)),
    (Call::WriteAll(PAIR), Answer::Number(1)),
    (Call::WriteAll(NOTHING), Answer::Number(2)),
    (
        Call::WriteAll(LAST_IS_THERE),
        Answer::RefusedAt(1, KvError::KeyExists),
    ),
    (
        Call::Guarded(Step::WriteAll(LAST_IS_TOO_OLD)),
        Answer::RefusedAt(2, KvError::WrongLastRevision { last: 4 }),
    ),
    (
        Call::Guarded(Step::WriteAll(CREATED_ANEW)),
        Answer::Number(3),
    ),
    (
        Call::WriteAll(PAIR),
        Answer::RefusedAt(1, KvError::JournalFull),
    ),
    (Call::Put("b"), Answer::Number(6)),
    (
        Call::WriteAll(PAIR),
        Answer::RefusedAt(0, KvError::JournalFull),
    ),
    (Call::Seal, Answer::Done),
    (Call::WriteAll(PAIR), Answer::RefusedAt(0, KvError::Sealed)),
    (Call::WriteAll(NOTHING), Answer::Number(6)),
    (Call::Guarded(Step::Take(1)), Answer::Marker),
    (Call::Guarded(Step::Take(1)), Answer::Entry(1)),
    (Call::Guarded(Step::Take(1)), Answer::Entry(2)),
    (Call::Guarded(Step::Take(1)), Answer::Entry(3)),
    (Call::Guarded(Step::Take(1)), Answer::Entry(4)),
    (Call::Guarded(Step::Take(1)), Answer::Entry(5)),
    (Call::Guarded(Step::Take(1)), Answer::Entry(6)),
    (Call::Guarded(Step::Take(1)), Answer::Empty),
];

// Refutes a batch that keeps what comes before the request that is refused: the writes behind it would have later
// revisions.
#[test]
fn a_batch_is_done_in_one_step_or_not_at_all(rt: HostRuntime) -> Result<(), Fail> {
    Ok(run(&rt, rt.alloc(), InOneStep)?)
}

#[derive(Clone, Copy)]
struct InOneStep;

impl<R: Wait + Abort> Test<R> for InOneStep {
    fn run<N: LiveName>(
        self,
        rt: &R,
        alloc: Global,
        live: &Live<N>,
        readers: &mut Vec<Reader<N>>,
    ) -> Result<(), KvError> {
        equal(rt, calls(rt, alloc, live, IN_ONE_STEP), None);
        last_reads(rt, readers, Answer::On(6, 0))
    }
}

// Who knows a batch by its receipt: who has seen it, and whether the reader was told it.
fn knows<N: LiveName, R: Abort>(
    rt: &R,
    receipt: &BatchReceipt<N>,
    reader: &Reader<N>,
    feed: &Feed<N>,
    seen: Seen,
    told: Told,
) {
    let by_reader = receipt.is_seen_by(reader);
    equal(rt, seen_by(by_reader, receipt.is_followed_by(feed)), seen);
    equal(rt, told_if(receipt.is_told_to(reader)), told);
}

fn told_once<N: LiveName, R: Wait>(
    rt: &R,
    alloc: Global,
    keeper: &mut Keeper<N>,
    asks: &[Ask],
) -> Result<(u64, BatchReceipt<N>), KvError> {
    batched(keeper.write_all_told(rt, &requests(alloc, asks)?))
}

// The receipt of a batch through a guard, of which the first write has this revision.
fn told_through<N: LiveName, R: Wait + Abort>(
    rt: &R,
    alloc: Global,
    live: &Live<N>,
    asks: &[Ask],
    first: u64,
) -> Result<BatchReceipt<N>, KvError> {
    let mut keeper = live.lock(rt);
    let before = look_through(&*keeper);
    let told = once_more!(
        told_once(rt, alloc, &mut *keeper, asks),
        equal(rt, look_through(&*keeper).is_as(&before), true)
    );
    let (answered, receipt) = told?;
    equal(rt, answered, first);
    Ok(receipt)
}

// Refutes a receipt that nobody has ever seen, and one that everybody has.
#[test]
fn a_batch_receipt_tells_who_has_seen_the_batch(rt: HostRuntime) -> Result<(), Fail> {
    Ok(run(&rt, rt.alloc(), ToldBatch)?)
}

#[derive(Clone, Copy)]
struct ToldBatch;

impl<R: Wait + Abort> Test<R> for ToldBatch {
    fn run<N: LiveName>(
        self,
        rt: &R,
        alloc: Global,
        live: &Live<N>,
        readers: &mut Vec<Reader<N>>,
    ) -> Result<(), KvError> {
        equal(
            rt,
            calls(rt, alloc, live, &[(Call::Put("a"), Answer::Number(1))]),
            None,
        );
        let (mut reader, mut feed) = reader_and_feed(alloc, readers)?;
        equal(rt, shown_to(&mut reader), Answer::On(1, 0));
        told_to_both(rt, alloc, live, &mut reader, &mut feed)?;
        told_of_nothing(rt, alloc, live, &mut reader, &feed)
    }
}

fn told_to_both<N: LiveName, R: Wait + Abort>(
    rt: &R,
    alloc: Global,
    live: &Live<N>,
    reader: &mut Reader<N>,
    feed: &mut Feed<N>,
) -> Result<(), KvError> {
    let receipt = told_through(rt, alloc, live, PAIR, 2)?;
    seen_in_turn(rt, &receipt, reader, feed);
    equal(
        rt,
        calls(rt, alloc, live, &[(Call::Put("c"), Answer::Number(4))]),
        None,
    );
    knows(rt, &receipt, reader, feed, Seen::ByBoth, Told::Yes);
    Ok(())
}

// What a feed that has not gone on hands out comes before the batch.
const BEFORE: &[(Move, Answer)] = &[
    (Move::Take, Answer::Entry(1)),
    (Move::Take, Answer::Marker),
    (Move::Take, Answer::Empty),
];

const BEHIND: &[(Move, Answer)] = &[
    (Move::Refresh, Answer::Done),
    (Move::Version, Answer::On(3, 0)),
    (Move::Take, Answer::Entry(2)),
    (Move::Take, Answer::Entry(3)),
    (Move::Take, Answer::Empty),
];

fn seen_in_turn<N: LiveName, R: Abort>(
    rt: &R,
    receipt: &BatchReceipt<N>,
    reader: &mut Reader<N>,
    feed: &mut Feed<N>,
) {
    knows(rt, receipt, reader, feed, Seen::ByNobody, Told::No);
    reader.learn_mark(receipt.mark());
    knows(rt, receipt, reader, feed, Seen::ByNobody, Told::Yes);
    equal(rt, moves(feed, BEFORE), None);
    equal(rt, shown_to(reader), Answer::On(3, 0));
    knows(rt, receipt, reader, feed, Seen::ByReader, Told::Yes);
    equal(rt, moves(feed, BEHIND), None);
    knows(rt, receipt, reader, feed, Seen::ByBoth, Told::Yes);
}

// The receipt of a batch of no requests tells all that was published before.
fn told_of_nothing<N: LiveName, R: Wait + Abort>(
    rt: &R,
    alloc: Global,
    live: &Live<N>,
    reader: &mut Reader<N>,
    feed: &Feed<N>,
) -> Result<(), KvError> {
    let receipt = told_through(rt, alloc, live, NOTHING, 4)?;
    knows(rt, &receipt, reader, feed, Seen::ByNobody, Told::No);
    equal(rt, shown_to(reader), Answer::On(4, 0));
    knows(rt, &receipt, reader, feed, Seen::ByReader, Told::No);
    Ok(())
}

#[test]
fn a_batch_is_seen_behind_a_close(rt: HostRuntime) -> Result<(), Fail> {
    Ok(run_closing(&rt, rt.alloc(), ClosedBehindABatch)?)
}

// A feed of the empty bucket, and the receipt of a batch that it has not gone on to.
fn told_to_a_feed<N: LiveName, R: Wait + Abort>(
    rt: &R,
    alloc: Global,
    live: &Live<N>,
    readers: &mut Vec<Reader<N>>,
) -> Result<(Feed<N>, BatchReceipt<N>), KvError> {
    let feed = feed_of_last(alloc, readers)?;
    let receipt = told_at(rt, alloc, live)?;
    Ok((feed, receipt))
}

fn told_at<N: LiveName, R: Wait + Abort>(
    rt: &R,
    alloc: Global,
    live: &Live<N>,
) -> Result<BatchReceipt<N>, KvError> {
    let (first, receipt) = once_more!(told_live(rt, alloc, live))?;
    equal(rt, first, 1);
    Ok(receipt)
}

fn told_live<N: LiveName, R: Wait>(
    rt: &R,
    alloc: Global,
    live: &Live<N>,
) -> Result<(u64, BatchReceipt<N>), KvError> {
    batched(live.write_all_told(rt, &requests(alloc, PAIR)?))
}

// The bucket is closed behind the batch, before anybody looks.
#[derive(Clone, Copy)]
struct ClosedBehindABatch;

impl<R: Wait + Abort> ClosingTest<R> for ClosedBehindABatch {
    fn run<N: LiveName>(
        self,
        rt: &R,
        alloc: Global,
        live: Live<N>,
        readers: &mut Vec<Reader<N>>,
    ) -> Result<(), KvError> {
        let told = told_to_a_feed(rt, alloc, &live, readers);
        live.close(rt);
        let (mut feed, receipt) = told?;
        goes_on_behind_the_close(rt, &receipt, &mut feed);
        looks_behind_the_close(rt, &receipt, readers)
    }
}

const ALL_OF_IT: &[(Move, Answer)] = &[
    (Move::Take, Answer::Marker),
    (Move::Take, Answer::Empty),
    (Move::Refresh, Answer::Done),
    (Move::Version, Answer::On(2, 0)),
    (Move::Take, Answer::Entry(1)),
    (Move::Take, Answer::Entry(2)),
    (Move::Take, Answer::Empty),
];

fn goes_on_behind_the_close<N: LiveName, R: Abort>(
    rt: &R,
    receipt: &BatchReceipt<N>,
    feed: &mut Feed<N>,
) {
    equal(rt, receipt.is_followed_by(feed), false);
    equal(rt, moves(feed, ALL_OF_IT), None);
    equal(rt, receipt.is_followed_by(feed), true);
}

fn looks_behind_the_close<N: LiveName, R: Abort>(
    rt: &R,
    receipt: &BatchReceipt<N>,
    readers: &mut Vec<Reader<N>>,
) -> Result<(), KvError> {
    let mut reader = last(readers)?;
    equal(rt, receipt.is_seen_by(&reader), false);
    equal(rt, shown_to(&mut reader), Answer::On(2, 0));
    equal(rt, receipt.is_seen_by(&reader), true);
    Ok(())
}
