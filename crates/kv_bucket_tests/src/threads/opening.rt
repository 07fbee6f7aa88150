//! What an opening refuses, and what it begins and ends with.

use super::*;
use kv_bucket::{Cached, Config, Opened, Status};

// What is asked for, and the refusal, if any.
#[derive(Clone, Copy)]
struct Asked {
    name: &'static str,
    history: u64,
    value_limit: u64,
    write_limit: u64,
    readers: usize,
    refusal: Option<KvError>,
}

fn opened_once(alloc: Global, asked: Asked) -> Result<Opened, KvError> {
    let mut config = Config::named(alloc, asked.name)?;
    config.history = asked.history;
    config.value_limit = asked.value_limit;
    config.write_limit = asked.write_limit;
    Live::open(alloc, &config, asked.readers)
}

// 64 bytes.
const LONGEST_NAME: &str = "0123456789012345678901234567890123456789012345678901234567890123";

// One more.
const TOO_LONG_NAME: &str = "01234567890123456789012345678901234567890123456789012345678901234";

const MOST_READERS: usize = 32;

const LONGEST_HISTORY: u64 = 64;

const LARGEST_VALUE: u64 = 1 << 20;

const LEGAL: Asked = Asked {
    name: "kv",
    history: 1,
    value_limit: LARGEST_VALUE,
    write_limit: 1_000_000,
    readers: 2,
    refusal: None,
};

const NAMED_BADLY: Asked = Asked {
    refusal: Some(KvError::BadBucket),
    ..LEGAL
};

const OVER_A_LIMIT: Asked = Asked {
    refusal: Some(KvError::BadConfig),
    ..LEGAL
};

const WITHOUT_ROOM: Asked = Asked {
    refusal: Some(KvError::NoReader),
    ..LEGAL
};

const OPENINGS: &[Asked] = &[
    Asked {
        name: "my.bucket",
        ..NAMED_BADLY
    },
    Asked {
        name: "",
        ..NAMED_BADLY
    },
    Asked {
        name: TOO_LONG_NAME,
        ..NAMED_BADLY
    },
    // The name goes first.
    Asked {
        name: "",
        history: 0,
        value_limit: 0,
        write_limit: 0,
        readers: 0,
        ..NAMED_BADLY
    },
    Asked {
        name: LONGEST_NAME,
        ..LEGAL
    },
    Asked {
        history: 0,
        ..OVER_A_LIMIT
    },
    Asked {
        history: LONGEST_HISTORY + 1,
        ..OVER_A_LIMIT
    },
    Asked {
        write_limit: 0,
        ..OVER_A_LIMIT
    },
    Asked {
        value_limit: LARGEST_VALUE + 1,
        ..OVER_A_LIMIT
    },
    // The limits go before the readers.
    Asked {
        history: 0,
        readers: MOST_READERS + 1,
        ..OVER_A_LIMIT
    },
    Asked {
        readers: 0,
        ..WITHOUT_ROOM
    },
    Asked {
        readers: MOST_READERS + 1,
        ..WITHOUT_ROOM
    },
    Asked {
        readers: MOST_READERS,
        ..LEGAL
    },
    Asked {
        readers: 1,
        ..LEGAL
    },
];

#[test]
fn an_opening_refuses_names_then_limits_then_readers(rt: HostRuntime) -> Result<(), Fail> {
    let alloc = rt.alloc();
    for asked in OPENINGS {
        let refusal = once_more!(opened_once(alloc, *asked)).err();
        equal(&rt, refusal, asked.refusal);
    }
    Ok(())
}

const WITH_ALL_READERS: Opening = Opening {
    readers: MOST_READERS,
    ..OPENING
};

#[derive(Clone, Copy)]
struct AllRead;

impl<R: Wait + Abort> Test<R> for AllRead {
    fn run<N: LiveName>(
        self,
        rt: &R,
        _alloc: Global,
        _live: &Live<N>,
        readers: &mut Vec<Reader<N>>,
    ) -> Result<(), KvError> {
        equal(rt, readers.len(), MOST_READERS);
        for _ in 0..MOST_READERS {
            last_reads(rt, readers, Answer::On(0, 0))?;
        }
        Ok(())
    }
}

#[test]
fn thirty_two_readers_see_the_empty_bucket(rt: HostRuntime) -> Result<(), Fail> {
    Ok(run_on(&rt, rt.alloc(), WITH_ALL_READERS, AllRead)?)
}

const EMPTY: Status = Status {
    history: 1,
    last: 0,
    sealed: false,
    stored: 0,
    values: 0,
};

#[derive(Clone, Copy)]
struct Beginning;

impl<R: Wait + Abort> Test<R> for Beginning {
    fn run<N: LiveName>(
        self,
        rt: &R,
        _alloc: Global,
        live: &Live<N>,
        _readers: &mut Vec<Reader<N>>,
    ) -> Result<(), KvError> {
        let keeper = live.lock(rt);
        let bucket = keeper.bucket();
        equal(rt, bucket.version().bucket(), "kv");
        equal(rt, bucket.version().status(), EMPTY);
        equal(rt, bucket.watches(), 0);
        Ok(())
    }
}

#[test]
fn a_bucket_is_opened_empty_and_without_watches(rt: HostRuntime) -> Result<(), Fail> {
    Ok(run(&rt, rt.alloc(), Beginning)?)
}

#[test]
fn a_close_ends_no_reader(rt: HostRuntime) -> Result<(), Fail> {
    Ok(run_closing(&rt, rt.alloc(), ClosedBeforeALook)?)
}

// The bucket is written to, and closed before its readers look. One of them has a cached version from before.
#[derive(Clone, Copy)]
struct ClosedBeforeALook;

impl<R: Wait + Abort> ClosingTest<R> for ClosedBeforeALook {
    fn run<N: LiveName>(
        self,
        rt: &R,
        alloc: Global,
        live: Live<N>,
        readers: &mut Vec<Reader<N>>,
    ) -> Result<(), KvError> {
        let kept = cached_by_last(readers);
        put_and_close(rt, alloc, live);
        let (mut reader, mut cached) = kept?;
        reader.refresh(&mut cached)?;
        equal(rt, cached.version().revision(), 1);
        last_reads(rt, readers, Answer::On(1, 0))
    }
}

fn cached_by_last<N: LiveName>(
    readers: &mut Vec<Reader<N>>,
) -> Result<(Reader<N>, Cached<N>), KvError> {
    let mut reader = last(readers)?;
    let cached = reader.cached()?;
    Ok((reader, cached))
}

fn put_and_close<N: LiveName, R: Wait + Abort>(rt: &R, alloc: Global, live: Live<N>) {
    equal(
        rt,
        calls(rt, alloc, &live, &[(Call::Put("a"), Answer::Number(1))]),
        None,
    );
    live.close(rt);
}
