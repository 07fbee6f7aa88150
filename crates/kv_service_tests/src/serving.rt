//! A bucket for as long as a service runs: the readers that this is handed, its leader and followers, and what is
//! refused.

ghost use Rattle.std.specs.Prelude.{◌≡◌, IfOk};

use crate::equal::equal;
use kv_bucket::{Config, Key, KvError, Live, LiveName, Reader, Request, Service, ThreadedService};
use kv_test_tools::once_more;
use std::alloc::Global;
use std::sync::Wait;
use std::test::Fail;
use std::thread::Threads;

// Answers how many readers it was handed.
#[derive(Drop)]
struct CountReaders;

impl<R> Service<R> for CountReaders {
    type Answer = usize;

    ghost answers = { λ service config readers answer. answer ≡ readers };

    fn run<N: LiveName>(self, _rt: &R, _live: &Live<N>, readers: Vec<Reader<N>>) -> usize {
        readers.len()
    }
}

// How many readers a service is handed that is to have so many.
fn handed<R: Wait>(rt: &R, alloc: Global, history: u64, readers: usize) -> Result<usize, KvError>
    ensures { IfOk result (λ handed. handed ≡ readers) }
{
    let mut config = Config::named(alloc, "settings")?;
    config.history = history;
    Live::serve(rt, alloc, &config, readers, CountReaders)
}

const MOST_READERS: usize = 32;

// What is asked for, and how many readers the service is handed.
struct Asked {
    history: u64,
    readers: usize,
    handed: Result<usize, KvError>,
}

const SERVICES: &[Asked] = &[
    Asked {
        history: 1,
        readers: 1,
        handed: Ok(1),
    },
    Asked {
        history: 1,
        readers: MOST_READERS,
        handed: Ok(MOST_READERS),
    },
    Asked {
        history: 1,
        readers: 0,
        handed: Err(KvError::NoReader),
    },
    Asked {
        history: 1,
        readers: MOST_READERS + 1,
        handed: Err(KvError::NoReader),
    },
    // The limits go before the readers.
    Asked {
        history: 0,
        readers: MOST_READERS + 1,
        handed: Err(KvError::BadConfig),
    },
];

#[test]
fn a_service_is_handed_all_its_readers_or_is_refused(rt: HostRuntime) -> Result<(), Fail> {
    for asked in SERVICES {
        let found = once_more!(handed(&rt, rt.alloc(), asked.history, asked.readers));
        equal(&rt, found, asked.handed);
    }
    Ok(())
}

// The leader writes. Each follower waits for that, and answers its number and the revision that it saw.
#[derive(Drop)]
struct WriteAndSee {
    alloc: Global,
}

impl<R: Wait> ThreadedService<R> for WriteAndSee {
    type Answer = Result<u64, KvError>;

    type Followed = Result<(usize, u64), KvError>;

    ghost follows = { λ service config number answer. IfOk answer (λ a. a.0 ≡ number) };

    fn lead<N: LiveName>(&self, rt: &R, live: &Live<N>) -> Result<u64, KvError> {
        let key = Key::parse(self.alloc, "app.port")?;
        let value = Vec::new(self.alloc);
        live.write(rt, &Request::Put { key, value })
    }

    fn follow<N: LiveName>(
        &self,
        rt: &R,
        number: usize,
        _live: &Live<N>,
        mut reader: Reader<N>,
    ) -> Result<(usize, u64), KvError> {
        match reader.wait_for(rt, 1)? {
            Some(version) => Ok((number, version.revision())),
            None => Ok((number, 0)),
        }
    }
}

// How many followers in a row saw the write, each under its own number.
fn in_a_row(followed: Vec<Result<(usize, u64), KvError>>) -> Result<usize, KvError> {
    let mut count = 0_usize;
    for answer in followed {
        if answer? != (count, 1) {
            break;
        }
        count = count.saturating_add(1);
    }
    Ok(count)
}

fn followed<R: Threads + Wait + Sync>(
    rt: &R,
    alloc: Global,
    history: u64,
    readers: usize,
) -> Result<usize, KvError> {
    let mut config = Config::named(alloc, "settings")?;
    config.history = history;
    let service = WriteAndSee { alloc };
    let (led, followed) = Live::serve_threaded(rt, alloc, &config, readers, &service)?;
    led?;
    in_a_row(followed)
}

#[test]
fn each_reader_has_a_follower_that_sees_what_the_leader_wrote(rt: HostRuntime) -> Result<(), Fail> {
    for asked in SERVICES {
        let found = once_more!(followed(&rt, rt.alloc(), asked.history, asked.readers));
        equal(&rt, found, asked.handed);
    }
    Ok(())
}
