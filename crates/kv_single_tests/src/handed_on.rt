//! What one crate hands on from those below it. Who uses a bucket of one thread has each name from `kv_single` alone; the
//! words of versions are also those of `kv_store`, and the words and the laws of watches also those of `kv_watch`.

ghost use Rattle.std.specs.Prelude.{◌≡◌};

use crate::equal::equal;
use kv_single::{
    Bucket, Cursor, Event, Filter, Filters, Key, KeyHistory, KvError, Place, Rev, Seen, Short,
    Shown, Stopped, Taken, Trie, Version, Visit, Write, fnv32, given,
};
use kv_store::{Config, Op, Request, Status};
use kv_test_tools::once_more;
use kv_watch::laws::{given_goes_on, one_kept_is_latest, revisions_rise};
use kv_watch::{Options, Start};
use std::alloc::Global;
use std::process::Abort;
use std::test::Fail;

// A write that is asked for by the request of `kv_store`.
fn put(alloc: Global, bucket: &mut Bucket, text: &str, value: &[u8]) -> Result<u64, KvError> {
    let key = Key::parse(alloc, text)?;
    let value = Vec::from_slice(alloc, value)?;
    bucket.write(&Request::Put { key, value })
}

const TWO: Status = Status {
    history: 1,
    last: 2,
    sealed: false,
    stored: 2,
    values: 2,
};

// The options of a watch by the words of `kv_watch`.
const LATEST: Options = Options {
    start: Start::Latest,
    ignore_deletes: false,
    headers_only: false,
};

fn is_shown(shown: &Shown<'_>, revision: u64) -> bool {
    shown.op() == Op::Put && shown.revision() == revision
}

fn is_entry(taken: Taken<'_>, revision: u64) -> bool {
    match taken {
        Taken::Entry(shown) => is_shown(&shown, revision),
        _ => false,
    }
}

fn cursor_hands_out(
    rt: &impl Abort,
    alloc: Global,
    version: &Version,
    filters: &Filters,
) -> Result<(), KvError> {
    let mut cursor = Cursor::open(alloc, version, filters, LATEST)?;
    assert!(rt; is_entry(cursor.take(Some(version), version), 2));
    assert!(rt; matches!(cursor.take(Some(version), version), Taken::Marker));
    Ok(())
}

fn is_given(
    rt: &impl Abort,
    alloc: Global,
    write: &Write,
    filters: &Filters,
) -> Result<(), KvError> {
    let events = given(alloc, &[write], 1, 1, 1, filters, LATEST)?;
    equal(rt, events.as_slice(), &[Event::Marker]);
    Ok(())
}

fn is_watched(rt: &impl Abort, alloc: Global, version: &Version) -> Result<(), KvError> {
    let filter = Filter::parse(alloc, "b")?;
    let filters = Filters::one(alloc, &filter)?;
    cursor_hands_out(rt, alloc, version, &filters)?;
    is_given(rt, alloc, version.get(&Key::parse(alloc, "a")?)?, &filters)
}

// The sum of the last revisions of the keys that were shown.
#[derive(Drop)]
struct Sum {
    revisions: u64,
}

impl Visit<Key, KeyHistory> for Sum {
    ghost shows = { λ old key value result new. new ≡ new };

    fn pair(&mut self, _key: &Key, kept: &KeyHistory) -> Result<(), KvError> {
        self.revisions = self.revisions.saturating_add(kept.last().revision());
        Ok(())
    }
}

fn sum_of_last(by_key: &Trie<Key, KeyHistory>) -> u64 {
    let mut sum = Sum { revisions: 0 };
    let _ = by_key.each(&mut sum);
    sum.revisions
}

fn has_places(rt: &impl Abort, alloc: Global) -> Result<(), KvError> {
    equal(rt, fnv32(b"a"), 0xe40c292c);
    equal(rt, Key::parse(alloc, "a")?.place(), 0xe40c292c);
    equal(rt, Short(Key::parse(alloc, "ab")?).place(), 2);
    equal(rt, Rev::new(7).number(), 7);
    Ok(())
}

fn is_stopped(stopped: Stopped, seen: &Seen) -> bool {
    stopped.handed == seen.size
}

fn stops(rt: &impl Abort, alloc: Global) -> Result<(), KvError> {
    let seen = Seen {
        key: Key::parse(alloc, "a")?,
        op: Op::Put,
        revision: 1,
        size: 3,
        value: None,
    };
    assert!(rt; is_stopped(Stopped { handed: 3 }, &seen));
    Ok(())
}

// The bucket is opened by the configuration of `kv_store`.
fn all_are_had(rt: &impl Abort, alloc: Global) -> Result<(), KvError> {
    let mut bucket = Bucket::open(alloc, &Config::named(alloc, "kv")?)?;
    equal(rt, put(alloc, &mut bucket, "a", b"1")?, 1);
    equal(rt, put(alloc, &mut bucket, "b", b"2")?, 2);
    equal(rt, bucket.version().status(), TWO);
    is_watched(rt, alloc, bucket.version())?;
    equal(rt, sum_of_last(bucket.version().by_key()), 3);
    has_places(rt, alloc)?;
    stops(rt, alloc)
}

#[test]
fn kv_single_has_the_names_of_the_crates_below(rt: HostRuntime) -> Result<(), Fail> {
    once_more!(all_are_had(&rt, rt.alloc()))?;
    Ok(())
}

#[test]
fn kv_watch_has_the_laws_of_what_is_given() {
    revisions_rise();
    given_goes_on();
    one_kept_is_latest();
}
