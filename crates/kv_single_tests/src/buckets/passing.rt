//! A pass moves a watch on as a take does, and lends nothing.

use super::*;

const BEGINNING: &[Row] = &[
    (Ask::Put("a", "1"), Answer::Revision(1)),
    (Ask::Watch("a"), Answer::Watch(1)),
    (Ask::Watch(">"), Answer::Watch(2)),
    (Ask::Put("b", "2"), Answer::Revision(2)),
];

fn begun(rt: &impl Abort, alloc: Global) -> Result<Bucket, KvError> {
    let mut bucket = open(alloc, keeping(1))?;
    asking::ask_each(rt, alloc, &mut bucket, BEGINNING);
    Ok(bucket)
}

fn next(bucket: &Bucket, watch: u64) -> Answer {
    asking::taken(bucket.peek(watch))
}

// What is passed of a watch is what is taken of it: its entry, the end marker, the entry behind its opening, and none.
#[test]
fn a_pass_moves_on_as_a_take_does(rt: HostRuntime) -> Result<(), Fail> {
    let mut passed = begun(&rt, rt.alloc())?;
    let mut taken = begun(&rt, rt.alloc())?;
    for _ in 0..4 {
        let lent = asking::taken(taken.take(2));
        equal(&rt, next(&passed, 2), lent);
        passed.pass(2);
        look_alike(&rt, &passed, &taken);
    }
    equal(&rt, next(&passed, 2), Answer::Empty);
    equal(&rt, passed.stop(2)?.handed, 3);
    Ok(())
}

// A watch that was peeked and stopped is not passed, nor is another one.
#[test]
fn a_pass_behind_a_stop_moves_no_watch(rt: HostRuntime) -> Result<(), Fail> {
    let mut bucket = begun(&rt, rt.alloc())?;
    equal(&rt, next(&bucket, 1), Answer::Entry(1, b'1'));
    equal(&rt, bucket.stop(1)?.handed, 0);
    bucket.pass(1);
    equal(&rt, next(&bucket, 1), Answer::Refused(KvError::NoSuchWatch));
    equal(&rt, next(&bucket, 2), Answer::Entry(1, b'1'));
    equal(&rt, bucket.stop(2)?.handed, 0);
    Ok(())
}
