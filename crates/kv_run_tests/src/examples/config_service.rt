//! A service that hands out configuration.

use super::*;
use kv_single::{Bucket, Config, Filters, Key, KvError, Options, Request, Start, Taken};

const LATEST: Options = Options {
    start: Start::Latest,
    ignore_deletes: false,
    headers_only: false,
};

fn put(alloc: Global, bucket: &mut Bucket, key: &str, value: &str) -> Result<u64, KvError> {
    bucket.write(&Request::Put {
        key: Key::parse(alloc, key)?,
        value: Vec::from_slice(alloc, value.as_bytes())?,
    })
}

// Whether a watch hands out this entry next.
fn hands_out(bucket: &mut Bucket, watch: u64, key: &str, value: &str) -> Result<bool, KvError> {
    match bucket.take(watch)? {
        Taken::Entry(entry) => {
            Ok(entry.key().as_str() == key && entry.value() == Some(value.as_bytes()))
        }
        _ => Ok(false),
    }
}

// A key, a value of it, and the revision of its put.
const PUTS: [(&str, &str, u64); 3] = [
    ("app.port", "80", 1),
    ("app.host", "kv", 2),
    ("db.port", "5432", 3),
];

fn put_three(rt: &impl Abort, alloc: Global, bucket: &mut Bucket) -> Result<(), KvError> {
    for (key, value, revision) in PUTS {
        assert_eq!(rt; put(alloc, bucket, key, value)?, revision);
    }
    Ok(())
}

fn watch_them(rt: &impl Abort, alloc: Global, bucket: &mut Bucket) -> Result<(), KvError> {
    let watch = bucket.watch(&Filters::parse(alloc, "app.>")?, LATEST)?;
    assert!(rt; hands_out(bucket, watch, "app.port", "80")?);
    assert!(rt; hands_out(bucket, watch, "app.host", "kv")?);
    assert!(rt; matches!(bucket.take(watch)?, Taken::Marker));

    put(alloc, bucket, "app.port", "8080")?;
    assert!(rt; hands_out(bucket, watch, "app.port", "8080")?);
    assert!(rt; matches!(bucket.take(watch)?, Taken::Empty));
    assert_eq!(rt; bucket.stop(watch)?.handed, 4);
    Ok(())
}

fn open(alloc: Global) -> Result<Bucket, KvError> {
    Bucket::open(alloc, &Config::named(alloc, "settings")?)
}

fn config_service(rt: &impl Abort, alloc: Global) -> Result<(), KvError> {
    let mut bucket = open(alloc)?;
    put_three(rt, alloc, &mut bucket)?;
    watch_them(rt, alloc, &mut bucket)
}

#[test]
fn a_config_service_is_told_of_each_change(rt: HostRuntime) -> Result<(), Fail> {
    Ok(once_more!(config_service(&rt, rt.alloc()))?)
}
