//! What README.md shows first: a put, a watch, a change that is asked to find the key as it was.

use super::*;
use kv_single::{Bucket, Config, Filters, Key, KvError, Request, Taken};
use kv_test_tools::LATEST;

// Sets a value where nobody has written the key since this revision of it; 0: where nobody ever has.
fn set(
    alloc: Global,
    bucket: &mut Bucket,
    key: &str,
    value: &str,
    last: u64,
) -> Result<u64, KvError> {
    bucket.write(&Request::Update {
        key: Key::parse(alloc, key)?,
        value: Vec::from_slice(alloc, value.as_bytes())?,
        last,
    })
}

// Whether a watch hands out this value next.
fn hands_out(bucket: &mut Bucket, watch: u64, value: &str) -> Result<bool, KvError> {
    match bucket.take(watch)? {
        Taken::Entry(entry) => Ok(entry.value() == Some(value.as_bytes())),
        _ => Ok(false),
    }
}

fn watched(rt: &impl Abort, alloc: Global) -> Result<(), KvError> {
    let mut bucket = Bucket::open(alloc, &Config::named(alloc, "settings")?)?;
    let last = set(alloc, &mut bucket, "app.port", "80", 0)?;

    let watch = bucket.watch(&Filters::parse(alloc, "app.>")?, LATEST)?;
    assert!(rt; hands_out(&mut bucket, watch, "80")?);
    assert!(rt; matches!(bucket.take(watch)?, Taken::Marker));

    assert_eq!(rt; set(alloc, &mut bucket, "app.port", "8080", last)?, 2);
    assert!(rt; hands_out(&mut bucket, watch, "8080")?);
    assert!(rt; matches!(bucket.take(watch)?, Taken::Empty));
    Ok(())
}

#[test]
fn a_watch_hands_out_each_change(rt: HostRuntime) -> Result<(), Fail> {
    Ok(once_more!(watched(&rt, rt.alloc()))?)
}
