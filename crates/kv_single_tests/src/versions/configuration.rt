//! Which configurations are refused: by `check`, by a version and by a bucket.

use super::*;
use kv_single::Bucket;

// The bucket's name, its limits, and what `Config::check`, `Version::empty` and `Bucket::open` answer.
type Asked = (&'static str, Limits, Result<(), KvError>);

// A version that is made has the name.
fn answer(rt: &impl Abort, alloc: Global, name: &str, limits: Limits) -> Result<(), KvError> {
    let config = limited(alloc, name, limits)?;
    let answer = match Version::empty(alloc, &config) {
        Ok(version) => {
            equal(rt, version.bucket(), name);
            Ok(())
        }
        Err(error) => Err(error),
    };
    if answer != Err(KvError::OutOfMemory) {
        equal(rt, config.check(), answer);
    }
    answer
}

fn opened(alloc: Global, name: &str, limits: Limits) -> Result<(), KvError> {
    let config = limited(alloc, name, limits)?;
    Bucket::open(alloc, &config)?;
    Ok(())
}

fn answers(rt: &impl Abort, alloc: Global, rows: &[Asked]) {
    for (name, limits, wanted) in rows {
        equal(rt, once_more!(answer(rt, alloc, name, *limits)), *wanted);
        equal(rt, once_more!(opened(alloc, name, *limits)), *wanted);
    }
}

const LONGEST: &str = "0123456789-abcdefghijklmnopqrstuvwxyz_ABCDEFGHIJKLMNOPQRSTUVWXYZ";

const LONGER: &str = "0123456789-abcdefghijklmnopqrstuvwxyz_ABCDEFGHIJKLMNOPQRSTUVWXYZ0";

const SMALLEST: Limits = Limits {
    history: 1,
    value_limit: 0,
    write_limit: 1,
    revision_limit: 1,
};

const LARGEST: Limits = Limits {
    history: 64,
    ..DEFAULTS
};

const NO_HISTORY: Limits = Limits {
    history: 0,
    ..SMALLEST
};

const NAMES: &[Asked] = &[
    (LONGEST, SMALLEST, Ok(())),
    (LONGER, SMALLEST, Err(KvError::BadBucket)),
    ("my.bucket", SMALLEST, Err(KvError::BadBucket)),
    ("", SMALLEST, Err(KvError::BadBucket)),
    // the name comes before the numbers
    ("my.bucket", NO_HISTORY, Err(KvError::BadBucket)),
];

#[test]
fn a_bucket_has_a_name_of_at_most_64_characters(rt: HostRuntime) {
    equal(&rt, LONGEST.len(), 64);
    answers(&rt, rt.alloc(), NAMES);
}

const BAD_CONFIG: Result<(), KvError> = Err(KvError::BadConfig);

const NUMBERS: &[Asked] = &[
    ("kv", SMALLEST, Ok(())),
    ("kv", LARGEST, Ok(())),
    ("kv", NO_HISTORY, BAD_CONFIG),
    (
        "kv",
        Limits {
            write_limit: 0,
            ..SMALLEST
        },
        BAD_CONFIG,
    ),
    (
        "kv",
        Limits {
            revision_limit: 0,
            ..SMALLEST
        },
        BAD_CONFIG,
    ),
    (
        "kv",
        Limits {
            history: 65,
            ..SMALLEST
        },
        BAD_CONFIG,
    ),
    (
        "kv",
        Limits {
            value_limit: 1_048_577,
            ..SMALLEST
        },
        BAD_CONFIG,
    ),
    (
        "kv",
        Limits {
            write_limit: 1_000_001,
            ..SMALLEST
        },
        BAD_CONFIG,
    ),
    (
        "kv",
        Limits {
            revision_limit: 4_294_967_296,
            ..SMALLEST
        },
        BAD_CONFIG,
    ),
];

#[test]
fn numbers_beyond_their_limits_are_refused(rt: HostRuntime) {
    answers(&rt, rt.alloc(), NUMBERS);
}
