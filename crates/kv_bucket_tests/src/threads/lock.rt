//! Tests of the lock. What is done on a guard has a guard of its own for each line.

use super::*;

const NO_SUCH_WATCH: Answer = Answer::Refused(KvError::NoSuchWatch);

// A watch that is opened behind the first of three puts is given that, and then the others.
#[derive(Clone, Copy)]
struct WatchBetweenPuts {
    put: Call,
}

impl<R: Wait + Abort> Test<R> for WatchBetweenPuts {
    fn run<N: LiveName>(
        self,
        rt: &R,
        alloc: Global,
        live: &Live<N>,
        _readers: &mut Vec<Reader<N>>,
    ) -> Result<(), KvError> {
        equal(
            rt,
            calls(rt, alloc, live, &[(self.put, Answer::Number(1))]),
            None,
        );
        equal(rt, calls(rt, alloc, live, WATCHED), None);
        equal(
            rt,
            calls(rt, alloc, live, &[(self.put, Answer::Number(2))]),
            None,
        );
        equal(
            rt,
            calls(rt, alloc, live, &[(self.put, Answer::Number(3))]),
            None,
        );
        equal(rt, calls(rt, alloc, live, HANDED), None);
        Ok(())
    }
}

const WATCHED: &[(Call, Answer)] = &[(Call::Guarded(Step::Watch), Answer::Number(1))];

const HANDED: &[(Call, Answer)] = &[
    (Call::Guarded(Step::Take(1)), Answer::Entry(1)),
    (Call::Guarded(Step::Take(1)), Answer::Marker),
    (Call::Guarded(Step::Take(1)), Answer::Entry(2)),
    (Call::Guarded(Step::Take(1)), Answer::Entry(3)),
    (Call::Guarded(Step::Take(1)), Answer::Empty),
];

// Refutes lock_resets_watches, which would lose a watch between two guards.
#[test]
fn a_watch_survives_the_guard(rt: HostRuntime) -> Result<(), Fail> {
    let put = Call::Guarded(Step::Put("k"));
    Ok(run(&rt, rt.alloc(), WatchBetweenPuts { put })?)
}

// Refutes live_write_writes_nothing, which would answer a number without a write.
#[test]
fn a_live_write_is_stored(rt: HostRuntime) -> Result<(), Fail> {
    let put = Call::Put("k");
    Ok(run(&rt, rt.alloc(), WatchBetweenPuts { put })?)
}

// A test of calls one after another, each with what it answers. It uses no reader.
#[derive(Clone, Copy)]
struct InTurn(&'static [(Call, Answer)]);

impl<R: Wait + Abort> Test<R> for InTurn {
    fn run<N: LiveName>(
        self,
        rt: &R,
        alloc: Global,
        live: &Live<N>,
        _readers: &mut Vec<Reader<N>>,
    ) -> Result<(), KvError> {
        equal(rt, calls(rt, alloc, live, self.0), None);
        Ok(())
    }
}

const WATCH_NUMBERS: &[(Call, Answer)] = &[
    (Call::Guarded(Step::Take(7)), NO_SUCH_WATCH),
    (Call::Guarded(Step::Stop(7)), NO_SUCH_WATCH),
    (Call::Guarded(Step::Watch), Answer::Number(1)),
    (Call::Guarded(Step::Take(1)), Answer::Marker),
    (Call::Guarded(Step::Stop(1)), Answer::Stopped(1)),
    (Call::Guarded(Step::Take(1)), NO_SUCH_WATCH),
    (Call::Guarded(Step::Stop(1)), NO_SUCH_WATCH),
    (Call::Guarded(Step::Watch), Answer::Number(2)),
];

#[test]
fn a_number_is_given_to_one_watch(rt: HostRuntime) -> Result<(), Fail> {
    Ok(run(&rt, rt.alloc(), InTurn(WATCH_NUMBERS))?)
}

// So many watches may be open.
const MOST_WATCHES: u64 = 64;

// A stopped watch makes room, and its number is not given again.
const BEYOND: &[(Call, Answer)] = &[
    (
        Call::Guarded(Step::Watch),
        Answer::Refused(KvError::TooManyWatches),
    ),
    (Call::Guarded(Step::Stop(1)), Answer::Stopped(0)),
    (Call::Guarded(Step::Watch), Answer::Number(MOST_WATCHES + 1)),
];

#[derive(Clone, Copy)]
struct OneWatchTooMany;

impl<R: Wait + Abort> Test<R> for OneWatchTooMany {
    fn run<N: LiveName>(
        self,
        rt: &R,
        alloc: Global,
        live: &Live<N>,
        _readers: &mut Vec<Reader<N>>,
    ) -> Result<(), KvError> {
        for before in 0..MOST_WATCHES {
            let line = (Call::Guarded(Step::Watch), Answer::Number(before + 1));
            equal(rt, calls(rt, alloc, live, &[line]), None);
        }
        equal(rt, calls(rt, alloc, live, BEYOND), None);
        Ok(())
    }
}

#[test]
fn the_sixty_fifth_watch_is_refused_until_one_is_stopped(rt: HostRuntime) -> Result<(), Fail> {
    Ok(run(&rt, rt.alloc(), OneWatchTooMany)?)
}

const TWO_WRITES: Opening = Opening {
    writes: 2,
    ..OPENING
};

const FULL_AND_SEALED: &[(Call, Answer)] = &[
    (Call::Put("a"), Answer::Number(1)),
    (Call::Put("b"), Answer::Number(2)),
    (Call::Put("c"), Answer::Refused(KvError::JournalFull)),
    (Call::Seal, Answer::Done),
    (Call::Put("d"), Answer::Refused(KvError::Sealed)),
];

#[test]
fn a_live_bucket_refuses_writes_where_it_is_full_or_sealed(rt: HostRuntime) -> Result<(), Fail> {
    Ok(run_on(&rt, rt.alloc(), TWO_WRITES, InTurn(FULL_AND_SEALED))?)
}
