//! Compare-and-set.

use super::*;
use kv_single::{Bucket, Config, Key, KvError, Request};

// Sets a value where nobody has written the key since this revision of it; 0: where nobody ever has.
fn set(
    alloc: Global,
    bucket: &mut Bucket,
    key: &Key,
    value: &str,
    last: u64,
) -> Result<u64, KvError> {
    bucket.write(&Request::Update {
        key: key.copy(alloc)?,
        value: Vec::from_slice(alloc, value.as_bytes())?,
        last,
    })
}

fn two_writers(rt: &impl Abort, alloc: Global) -> Result<(), KvError> {
    let mut bucket = Bucket::open(alloc, &Config::named(alloc, "settings")?)?;
    let port = Key::parse(alloc, "app.port")?;
    let read = set(alloc, &mut bucket, &port, "80", 0)?;

    assert_eq!(rt; set(alloc, &mut bucket, &port, "8080", read)?, 2);
    match set(alloc, &mut bucket, &port, "8081", read) {
        Err(KvError::OutOfMemory) => return Err(KvError::OutOfMemory),
        late => assert_eq!(rt; late, Err(KvError::WrongLastRevision { last: 2 })),
    }
    assert_eq!(rt; bucket.version().get(&port)?.value(), "8080".as_bytes());
    Ok(())
}

#[test]
fn a_late_writer_is_refused(rt: HostRuntime) -> Result<(), Fail> {
    Ok(once_more!(two_writers(&rt, rt.alloc()))?)
}
