//! What C asks for: the limits of a bucket, how a watch begins, and writes.

ghost use Rattle.std.specs.Prelude.{◌≡◌, Err, false, nat_lt, true, IfOk, IfErr, IfSome, IfNone};
ghost use Rattle.kv_c.specs.Calling.{IsAsked, configured, if_given, options_asked};
ghost use Rattle.kv_keys.specs.declared.error.KvError.TheVariants.{OutOfMemory};
ghost use Rattle.kv_model.specs.Configuration.{configure};
ghost use Rattle.kv_model.specs.Requests.{create, delete, purge, put, update};

use crate::parse::{key_of, text_of};
use kv_single::{Config, KvError, Options, Request, Start};
use std::alloc::Global;

/// The limits of a bucket.
#[repr(C)]
#[derive(Drop)]
pub struct Limits {
    /// How many entries of each key are kept: 1 to 64.
    pub history: u64,
    /// How many bytes a value may have: 0 to 1,048,576.
    pub value_limit: u64,
    /// How many writes may be stored: 1 to 1,000,000.
    pub write_limit: u64,
    /// The last revision that may be given: 1 to 4,294,967,295.
    pub revision_limit: u64,
}

/// What a watch begins with, and how it shows writes.
#[repr(C)]
#[derive(Drop)]
pub struct Wanted {
    /// 0: the latest entry of each matching key, 1: all retained ones, 2: none, 3: those from `from` on.
    pub start: u32,
    pub from: u64,
    /// Leaves out the markers of deletes and purges.
    pub ignore_deletes: bool,
    /// Shows no values.
    pub headers_only: bool,
}

/// The configuration of a bucket of this name.
#[tactic(auto, using(crate::proofs::Ascii::no_name))]
pub(crate) fn config_of(alloc: Global, name: &[u8], limits: &Limits) -> Result<Config, KvError>
    ensures ok { IfOk result (λ config. config ≡ configured name.now limits.now) }
    ensures err { IfErr result (λ e. ¬ (e ≡ OutOfMemory) → configure (configured name.now limits.now) ≡ Err e) }
{
    Ok(Config {
        bucket: String::from_str(alloc, text_of(name, KvError::BadBucket)?)?,
        history: limits.history,
        value_limit: limits.value_limit,
        write_limit: limits.write_limit,
        revision_limit: limits.revision_limit,
    })
}

/// The options of a watch; none where the start is none of the four.
pub(crate) fn options_of(wanted: &Wanted) -> Option<Options>
    ensures some { IfSome result
        (λ options. (options ≡ options_asked wanted.now) × (nat_lt 3 wanted.now.start ≡ false)) }
    ensures none { IfNone result (nat_lt 3 wanted.now.start ≡ true) }
{
    let start = match wanted.start {
        0 => Start::Latest,
        1 => Start::History,
        2 => Start::Updates,
        3 => Start::From(wanted.from),
        _ => return None,
    };
    Some(Options {
        start,
        ignore_deletes: wanted.ignore_deletes,
        headers_only: wanted.headers_only,
    })
}

fn given(has_last: bool, last: u64) -> Option<u64>
    ensures { result ≡ if_given has_last last }
{
    if has_last { Some(last) } else { None }
}

/// That a key be given a value.
pub(crate) fn put(alloc: Global, key: &[u8], value: &[u8]) -> Result<Request, KvError>
    ensures { IsAsked (put key.now value.now) result }
{
    Ok(Request::Put {
        key: key_of(alloc, key)?,
        value: Vec::from_slice(alloc, value)?,
    })
}

/// The same, where the key has no value.
pub(crate) fn create(alloc: Global, key: &[u8], value: &[u8]) -> Result<Request, KvError>
    ensures { IsAsked (create key.now value.now) result }
{
    Ok(Request::Create {
        key: key_of(alloc, key)?,
        value: Vec::from_slice(alloc, value)?,
    })
}

/// The same, where `last` is the key's last revision.
pub(crate) fn update(alloc: Global, key: &[u8], value: &[u8], last: u64) -> Result<Request, KvError>
    ensures { IsAsked (update key.now value.now last) result }
{
    Ok(Request::Update {
        key: key_of(alloc, key)?,
        value: Vec::from_slice(alloc, value)?,
        last,
    })
}

/// That a key have no value.
pub(crate) fn delete(
    alloc: Global,
    key: &[u8],
    has_last: bool,
    last: u64,
) -> Result<Request, KvError>
    ensures { IsAsked (delete key.now (if_given has_last last)) result }
{
    Ok(Request::Delete {
        key: key_of(alloc, key)?,
        last: given(has_last, last),
    })
}

/// The same, and that its earlier entries go.
pub(crate) fn purge(
    alloc: Global,
    key: &[u8],
    has_last: bool,
    last: u64,
) -> Result<Request, KvError>
    ensures { IsAsked (purge key.now (if_given has_last last)) result }
{
    Ok(Request::Purge {
        key: key_of(alloc, key)?,
        last: given(has_last, last),
    })
}
