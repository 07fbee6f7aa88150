//! A test of compactions of a live bucket: what they leave to a watch under the lock, and to readers.

use super::*;

#[test]
fn a_watch_under_the_lock_refuses_a_compaction(rt: HostRuntime) -> Result<(), Fail> {
    Ok(run(&rt, rt.alloc(), HeldWatch)?)
}

const AROUND_A_WATCH: &[(Call, Answer)] = &[
    (Call::Put("k"), Answer::Number(1)),
    (Call::Guarded(Step::Watch), Answer::Number(1)),
    (Call::Put("k"), Answer::Number(2)),
    (Call::Compact(0), Answer::Refused(KvError::BadFloor)),
    (Call::Compact(3), Answer::Refused(KvError::BadFloor)),
    (
        Call::Compact(2),
        Answer::Refused(KvError::WatchBehind { watch: 1 }),
    ),
    (Call::Compact(1), Answer::Done),
    (Call::Guarded(Step::Take(1)), Answer::Entry(1)),
    (Call::Guarded(Step::Take(1)), Answer::Marker),
    (Call::Guarded(Step::Take(1)), Answer::Entry(2)),
    (Call::Compact(2), Answer::Done),
    (Call::Compact(1), Answer::Refused(KvError::BadFloor)),
];

#[derive(Clone, Copy)]
struct HeldWatch;

impl<R: Wait + Abort> Test<R> for HeldWatch {
    fn run<N: LiveName>(
        self,
        rt: &R,
        alloc: Global,
        live: &Live<N>,
        readers: &mut Vec<Reader<N>>,
    ) -> Result<(), KvError> {
        equal(rt, calls(rt, alloc, live, AROUND_A_WATCH), None);
        let mut reader = last(readers)?;
        reads_from_the_floor(rt, &mut reader)
    }
}

fn reads_from_the_floor<N: LiveName, R: Abort>(
    rt: &R,
    reader: &mut Reader<N>,
) -> Result<(), KvError> {
    let version = version(reader)?;
    let kept = (version.write_at(1).is_some(), version.write_at(2).is_some());
    equal(rt, (version.floor(), kept), (2, (false, true)));
    Ok(())
}
