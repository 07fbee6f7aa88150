//! A test of a version that a thread keeps: it stays as it is until it is refreshed, and is then on what is published.

use super::*;
use kv_bucket::{Cached, Key};

#[test]
fn a_cached_version_stays_until_it_is_refreshed(rt: HostRuntime) -> Result<(), Fail> {
    Ok(run(&rt, rt.alloc(), CachedVersion)?)
}

// A call, what it answers, and what the cached version is on from the next refresh on.
#[derive(Clone, Copy)]
struct Line {
    call: Call,
    answer: Answer,
    refreshed: Answer,
}

const LINES: &[Line] = &[
    Line {
        call: Call::Put("a"),
        answer: Answer::Number(1),
        refreshed: Answer::On(1, 0),
    },
    Line {
        call: Call::Put("a"),
        answer: Answer::Number(2),
        refreshed: Answer::On(2, 0),
    },
    Line {
        call: Call::Compact(1),
        answer: Answer::Done,
        refreshed: Answer::On(2, 1),
    },
    Line {
        call: Call::Compact(3),
        answer: Answer::Refused(KvError::BadFloor),
        refreshed: Answer::On(2, 1),
    },
    Line {
        call: Call::Seal,
        answer: Answer::Done,
        refreshed: Answer::On(2, 1),
    },
];

#[derive(Clone, Copy)]
struct CachedVersion;

impl<R: Wait + Abort> Test<R> for CachedVersion {
    fn run<N: LiveName>(
        self,
        rt: &R,
        alloc: Global,
        live: &Live<N>,
        readers: &mut Vec<Reader<N>>,
    ) -> Result<(), KvError> {
        let mut reader = last(readers)?;
        refreshed_in_turn(rt, alloc, live, &mut reader)?;
        let key = once_more!(Key::parse(alloc, "a"))?;
        equal(rt, last_seen(&mut reader, &key)?, 2);
        Ok(())
    }
}

fn refreshed_in_turn<N: LiveName, R: Wait + Abort>(
    rt: &R,
    alloc: Global,
    live: &Live<N>,
    reader: &mut Reader<N>,
) -> Result<(), KvError> {
    let mut cached = reader.cached()?;
    let mut before = Answer::On(0, 0);
    for line in LINES {
        equal(
            rt,
            calls(rt, alloc, live, &[(line.call, line.answer)]),
            None,
        );
        stays_until_refreshed(rt, reader, &mut cached, before, line.refreshed)?;
        before = line.refreshed;
    }
    Ok(())
}

// The second refresh finds nothing new.
fn stays_until_refreshed<N: LiveName, R: Abort>(
    rt: &R,
    reader: &mut Reader<N>,
    cached: &mut Cached<N>,
    before: Answer,
    after: Answer,
) -> Result<(), KvError> {
    equal(rt, is_on(cached), before);
    reader.refresh(cached)?;
    equal(rt, is_on(cached), after);
    reader.refresh(cached)?;
    equal(rt, is_on(cached), after);
    Ok(())
}

fn is_on<N: LiveName>(cached: &Cached<N>) -> Answer {
    let version = cached.version();
    Answer::On(version.revision(), version.floor())
}

// Looks a key up a thousand times, each time in what is published by then, and answers the last revision that it saw.
fn last_seen<N: LiveName>(reader: &mut Reader<N>, key: &Key) -> Result<u64, KvError> {
    let mut seen = 0;
    let mut cached = reader.cached()?;
    for _ in 0..1000 {
        reader.refresh(&mut cached)?;
        if let Ok(entry) = cached.version().get(key) {
            seen = entry.revision();
        }
    }
    Ok(seen)
}
