//! Each public call once, with its answer.

use super::*;
use kv_keys::{Filter, Filters, Place};
use kv_store::{Rev, Wanted};

const SMALL: &[Row] = &[
    ("a", Ask::Create("one"), Ok(1)),
    ("a", Ask::Update("two", 1), Ok(2)),
    ("b", Ask::Put(""), Ok(3)),
    ("a", Ask::Delete(Some(2)), Ok(4)),
];

const TOLD: &[Fact] = &[
    Fact::Numbers(
        Status {
            history: 2,
            last: 4,
            sealed: false,
            stored: 4,
            values: 3,
        },
        0,
    ),
    Fact::Write(0, None),
    Fact::Write(1, Some(("a", Op::Put, b"one"))),
    Fact::Write(3, Some(("b", Op::Put, b""))),
    Fact::Write(4, Some(("a", Op::Delete, b""))),
    Fact::Write(5, None),
    Fact::Write(u32::MAX, None),
    Fact::Kept("a", Some(&[2, 4])),
    Fact::Kept("n", None),
];

#[test]
fn a_version_tells_its_writes_and_what_is_kept(rt: HostRuntime) -> Result<(), Fail> {
    holds(&rt, rt.alloc(), keeping(2), SMALL, TOLD)?;
    Ok(())
}

#[test]
fn a_named_configuration_has_the_defaults(rt: HostRuntime) -> Result<(), Fail> {
    let config = once_more!(Config::named(rt.alloc(), "my.bucket"))?;
    equal(&rt, config.bucket.as_str(), "my.bucket");
    equal(&rt, config.history, 1);
    equal(&rt, config.value_limit, 1_048_576);
    equal(&rt, config.write_limit, 1_000_000);
    equal(&rt, config.revision_limit, 4_294_967_295);
    Ok(())
}

fn asks(
    rt: &impl Abort,
    alloc: Global,
    text: &str,
    ask: Ask,
    op: Op,
    value: &[u8],
) -> Result<(), KvError> {
    let request = request(alloc, text, ask)?;
    equal(rt, request.key().as_str(), text);
    equal(rt, request.op(), op);
    equal(rt, request.value(), value);
    Ok(())
}

// A request's key, what is asked of it, and the op and the value that are told.
const ASKED: &[(&str, Ask, Op, &[u8])] = &[
    ("a", Ask::Create("one"), Op::Put, b"one"),
    ("b", Ask::Purge(None), Op::Purge, b""),
];

#[test]
fn a_request_tells_its_key_its_op_and_its_value(rt: HostRuntime) -> Result<(), Fail> {
    for (text, ask, op, value) in ASKED {
        once_more!(asks(&rt, rt.alloc(), text, *ask, *op, value))?;
    }
    Ok(())
}

#[test]
fn a_put_is_no_purge_and_a_delete_is_neither(rt: HostRuntime) {
    for op in [Op::Put, Op::Delete, Op::Purge] {
        equal(&rt, op.is_put(), op == Op::Put);
        equal(&rt, op.is_purge(), op == Op::Purge);
    }
}

// The places of some revisions: the digits of five bits, the five lowest of them turned.
const PLACES: &[(u32, u32)] = &[
    (0, 0),
    (1, 1 << 20),
    (7, 7 << 20),
    (31, 31 << 20),
    (32, 1 << 15),
    (1_024, 1 << 10),
    (32_768, 1 << 5),
    (1_048_576, 1),
    (33_554_431, 33_554_431),
    (33_554_432, 33_554_432),
    (4_294_967_295, 4_294_967_295),
];

#[test]
fn a_revision_has_its_place(rt: HostRuntime) {
    for (number, place) in PLACES {
        let rev = Rev::new(*number);
        equal(&rt, rev.number(), *number);
        equal(&rt, rev.place(), *place);
    }
    assert!(rt; Rev::new(7) == Rev::new(7));
    assert!(rt; Rev::new(7) < Rev::new(4_294_967_295));
}

fn asked<W: Wanted>(alloc: Global, wanted: &W) -> Result<Option<u64>, KvError> {
    match wanted.literals(alloc)? {
        Some(keys) => Ok(Some(keys.len() as u64)),
        None => Ok(None),
    }
}

// So many keys are asked for by their names, where each is, and `a` is wanted or not.
fn wants<W: Wanted>(
    rt: &impl Abort,
    alloc: Global,
    wanted: &W,
    named: Option<u64>,
    wants_a: bool,
) -> Result<(), KvError> {
    equal(rt, asked(alloc, wanted)?, named);
    let a = Key::parse(alloc, "a")?;
    equal(rt, wanted.wants(&a), wants_a);
    Ok(())
}

fn filter_wants(
    rt: &impl Abort,
    alloc: Global,
    text: &str,
    named: Option<u64>,
) -> Result<(), KvError> {
    let filter = Filter::parse(alloc, text)?;
    wants(rt, alloc, &filter, named, true)
}

fn filters_want_others(
    rt: &impl Abort,
    alloc: Global,
    text: &str,
    named: Option<u64>,
) -> Result<(), KvError> {
    let filters = Filters::parse(alloc, text)?;
    wants(rt, alloc, &filters, named, false)
}

fn all_want(rt: &impl Abort, alloc: Global) -> Result<(), KvError> {
    filter_wants(rt, alloc, "*", None)?;
    filter_wants(rt, alloc, "a", Some(1))?;
    filters_want_others(rt, alloc, "b,a.>", None)?;
    filters_want_others(rt, alloc, "b,a.b,b", Some(2))
}

#[test]
fn filters_name_the_keys_that_they_want(rt: HostRuntime) -> Result<(), Fail> {
    once_more!(all_want(&rt, rt.alloc()))?;
    Ok(())
}
