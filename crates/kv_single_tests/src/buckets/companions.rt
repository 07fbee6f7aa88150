//! What happens together with a write: both do, or neither.

use super::*;
use kv_trie::Companion;
use std::alloc::AllocError;

// It counts how often it happened, where it may.
#[derive(Drop)]
struct Tally {
    count: u64,
    may: bool,
}

impl Companion for Tally {
    ghost ready = { λ tally. Unit {0} };

    ghost done = { λ old new. Unit {0} };

    ghost kept = { λ old new. Unit {0} };

    fn commit(&mut self) -> Result<(), AllocError> {
        if !self.may {
            return Err(AllocError);
        }
        self.count = self.count.wrapping_add(1);
        Ok(())
    }
}

// A bucket that has a value of `a`.
fn begun(alloc: Global) -> Result<Bucket, KvError> {
    let mut bucket = open(alloc, keeping(1))?;
    let request = once_more!(put(alloc, "a", "1"))?;
    once_more!(bucket.write(&request))?;
    Ok(bucket)
}

// A write that was refused for want of memory, and is made once more, lets the companion happen once.
#[test]
fn a_companion_happens_once_with_a_write(rt: HostRuntime) -> Result<(), Fail> {
    let mut bucket = begun(rt.alloc())?;
    let request = once_more!(put(rt.alloc(), "b", "2"))?;
    let mut tally = Tally {
        count: 0,
        may: true,
    };
    let answer = once_more!(
        bucket.write_with(&request, &mut tally),
        equal(&rt, (tally.count, bucket.version().revision()), (0, 1))
    );
    equal(&rt, answer, Ok(2));
    equal(&rt, tally.count, 1);
    Ok(())
}

#[test]
fn a_companion_does_not_happen_with_a_refused_write(rt: HostRuntime) -> Result<(), Fail> {
    let mut bucket = begun(rt.alloc())?;
    let mut tally = Tally {
        count: 0,
        may: true,
    };
    let key = once_more!(Key::parse(rt.alloc(), "a"))?;
    let value = Vec::new(rt.alloc());
    let request = Request::Create { key, value };
    equal(
        &rt,
        bucket.write_with(&request, &mut tally),
        Err(KvError::KeyExists),
    );
    equal(&rt, tally.count, 0);
    look_alike(&rt, &bucket, &begun(rt.alloc())?);
    Ok(())
}

#[test]
fn a_write_is_not_made_where_its_companion_is_refused(rt: HostRuntime) -> Result<(), Fail> {
    let mut bucket = begun(rt.alloc())?;
    let mut tally = Tally {
        count: 0,
        may: false,
    };
    for key in ["a", "b"] {
        let request = once_more!(put(rt.alloc(), key, "2"))?;
        equal(
            &rt,
            bucket.write_with(&request, &mut tally),
            Err(KvError::OutOfMemory),
        );
        look_alike(&rt, &bucket, &begun(rt.alloc())?);
    }
    equal(&rt, tally.count, 0);
    Ok(())
}
