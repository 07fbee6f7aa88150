//! A test of told writes through a guard. A write that is refused leaves receipts and readers working.

use super::*;
use kv_bucket::{Keeper, Receipt};

#[test]
fn a_write_told_on_a_guard_is_seen_by_who_learns_it(rt: HostRuntime) -> Result<(), Fail> {
    Ok(run(&rt, rt.alloc(), ToldOnAGuard)?)
}

#[derive(Clone, Copy)]
struct ToldOnAGuard;

impl<R: Wait + Abort> Test<R> for ToldOnAGuard {
    fn run<N: LiveName>(
        self,
        rt: &R,
        alloc: Global,
        live: &Live<N>,
        readers: &mut Vec<Reader<N>>,
    ) -> Result<(), KvError> {
        let receipt = told_under_the_lock(rt, alloc, live)?;
        seen_once_learned(rt, readers, &receipt)?;
        mark_is_learned(rt, readers, &receipt)?;
        equal(rt, calls(rt, alloc, live, SEAL), None);
        equal(rt, refusal_of_told(rt, alloc, live), Some(KvError::Sealed));
        Ok(())
    }
}

fn seen_once_learned<N: LiveName, R: Abort>(
    rt: &R,
    readers: &mut Vec<Reader<N>>,
    receipt: &Receipt<N>,
) -> Result<(), KvError> {
    let mut reader = last(readers)?;
    equal(rt, reader.has_seen(receipt), false);
    reader.learn(receipt);
    equal(rt, shown_to(&mut reader), Answer::On(2, 0));
    equal(rt, reader.has_seen(receipt), true);
    Ok(())
}

// The mark of a receipt tells what the receipt does.
fn mark_is_learned<N: LiveName, R: Abort>(
    rt: &R,
    readers: &mut Vec<Reader<N>>,
    receipt: &Receipt<N>,
) -> Result<(), KvError> {
    let mut reader = last(readers)?;
    reader.learn_mark(receipt.mark());
    equal(rt, shown_to(&mut reader), Answer::On(2, 0));
    equal(rt, reader.has_seen(receipt), true);
    Ok(())
}

const SEAL: &[(Call, Answer)] = &[(Call::Seal, Answer::Done)];

// The receipt of the second of two writes on one guard.
fn told_under_the_lock<N: LiveName, R: Wait + Abort>(
    rt: &R,
    alloc: Global,
    live: &Live<N>,
) -> Result<Receipt<N>, KvError> {
    let mut keeper = live.lock(rt);
    let first = &[(Step::Put("a"), Answer::Number(1))];
    equal(rt, steps(rt, alloc, &mut *keeper, first), None);
    told_through(rt, alloc, &mut *keeper, 2)
}

fn refusal_of_told<N: LiveName, R: Wait + Abort>(
    rt: &R,
    alloc: Global,
    live: &Live<N>,
) -> Option<KvError> {
    let mut keeper = live.lock(rt);
    told_made(rt, alloc, &mut *keeper).err()
}

// The receipt of a put through a guard, which is told at this revision.
pub(super) fn told_through<N: LiveName, R: Wait + Abort>(
    rt: &R,
    alloc: Global,
    keeper: &mut Keeper<N>,
    revision: u64,
) -> Result<Receipt<N>, KvError> {
    let (answered, receipt) = told_made(rt, alloc, keeper)?;
    equal(rt, (answered, receipt.revision()), (revision, revision));
    Ok(receipt)
}

fn told_made<N: LiveName, R: Wait + Abort>(
    rt: &R,
    alloc: Global,
    keeper: &mut Keeper<N>,
) -> Result<(u64, Receipt<N>), KvError> {
    let before = look_through(keeper);
    once_more!(
        told_once(rt, alloc, keeper),
        equal(rt, look_through(keeper).is_as(&before), true)
    )
}

fn told_once<N: LiveName, R: Wait>(
    rt: &R,
    alloc: Global,
    keeper: &mut Keeper<N>,
) -> Result<(u64, Receipt<N>), KvError> {
    let request = put_request(alloc, "a")?;
    keeper.write_told(rt, &request)
}
