//! The limits of a bucket, its configuration by them, and its first version.

use kv_keys::KvError;
use kv_model::Config;
use kv_store::Version;
use kv_test_tools::once_more;
use std::alloc::Global;

#[derive(Clone, Copy)]
pub struct Limits {
    pub history: u64,
    pub value_limit: u64,
    pub write_limit: u64,
    pub revision_limit: u64,
}

// Those of a configuration in which only the bucket is named.
pub const DEFAULTS: Limits = Limits {
    history: 1,
    value_limit: 1_048_576,
    write_limit: 1_000_000,
    revision_limit: 4_294_967_295,
};

// The limits of a bucket that keeps so many entries of each key.
pub fn keeping(history: u64) -> Limits {
    Limits {
        history,
        ..DEFAULTS
    }
}

fn limit(config: &mut Config, limits: Limits) {
    config.history = limits.history;
    config.value_limit = limits.value_limit;
    config.write_limit = limits.write_limit;
    config.revision_limit = limits.revision_limit;
}

pub fn limited(alloc: Global, bucket: &str, limits: Limits) -> Result<Config, KvError> {
    let mut config = Config::named(alloc, bucket)?;
    limit(&mut config, limits);
    Ok(config)
}

fn empty_once(alloc: Global, limits: Limits) -> Result<Version, KvError> {
    let config = limited(alloc, "kv", limits)?;
    Version::empty(alloc, &config)
}

// A version with no writes.
pub fn empty(alloc: Global, limits: Limits) -> Result<Version, KvError> {
    once_more!(empty_once(alloc, limits))
}
