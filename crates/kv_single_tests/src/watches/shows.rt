//! How a watch shows a write, and which revision a watch says that it looks at next.

use super::*;
use kv_watch::Shown;

const HEADERS: Options = Options {
    headers_only: true,
    ..LATEST
};

// The parts of an entry.
#[derive(Clone, Copy)]
struct Parts<'a> {
    key: &'a str,
    op: Op,
    revision: u64,
    size: u64,
    value: Option<&'a [u8]>,
}

fn has_parts(rt: &impl Abort, entry: &Shown<'_>, parts: Parts<'_>) {
    equal(rt, entry.key().as_str(), parts.key);
    equal(rt, entry.op(), parts.op);
    equal(rt, entry.revision(), parts.revision);
    equal(rt, entry.size(), parts.size);
    equal(rt, entry.value(), parts.value);
}

fn shows(rt: &impl Abort, taken: &Taken<'_>, parts: Parts<'_>) {
    match taken {
        Taken::Entry(entry) => has_parts(rt, entry, parts),
        _ => assert!(rt; false, "no entry"),
    }
}

const DELETED: Parts<'static> = Parts {
    key: "a",
    op: Op::Delete,
    revision: 2,
    size: 0,
    value: None,
};

// A watch from the first put of "abc" to "a" shows the put, the marker, and the delete after it.
fn shows_each(
    rt: &impl Abort,
    alloc: Global,
    options: Options,
    value: Option<&[u8]>,
) -> Result<(), KvError> {
    let base = written(alloc, &[Action::Put("a", "abc")])?;
    let now = write(alloc, &base, Action::Delete("a"))?;
    let mut cursor = open_on(rt, alloc, &base, ">", options)?;
    let first = Parts {
        key: "a",
        op: Op::Put,
        revision: 1,
        size: 3,
        value,
    };
    shows(rt, &cursor.peek(Some(&base), &now), first);
    shows(rt, &cursor.take(Some(&base), &now), first);
    equal(rt, step(rt, &mut cursor, &base, &now), Some(MARKER));
    shows(rt, &cursor.take(Some(&base), &now), DELETED);
    Ok(())
}

#[test]
fn an_entry_is_shown_with_its_value(rt: HostRuntime) -> Result<(), Fail> {
    shows_each(&rt, rt.alloc(), LATEST, Some(b"abc"))?;
    Ok(())
}

#[test]
fn an_entry_is_shown_without_its_value(rt: HostRuntime) -> Result<(), Fail> {
    shows_each(&rt, rt.alloc(), HEADERS, None)?;
    Ok(())
}

#[test]
fn a_write_is_shown_by_itself(rt: HostRuntime) -> Result<(), Fail> {
    let version = written(rt.alloc(), &[Action::Put("b", "")])?;
    let parts = Parts {
        key: "b",
        op: Op::Put,
        revision: 1,
        size: 0,
        value: Some(b""),
    };
    match version.write_at(1) {
        Some(write) => has_parts(&rt, &Shown::new(write, false), parts),
        None => assert!(rt; false, "no write"),
    }
    Ok(())
}

// A watch looks next behind its beginning, whatever initial entries it hands out and whatever it settles. First comes what it
// does not want, and then what it wants, behind which it looks next.
#[test]
fn a_watch_looks_next_behind_what_it_passed(rt: HostRuntime) -> Result<(), Fail> {
    let alloc = rt.alloc();
    let base = written(alloc, &[Action::Put("k", "1")])?;
    let mut cursor = open_on(&rt, alloc, &base, "k", LATEST)?;
    let passed = write(alloc, &base, Action::Put("x", "2"))?;
    for item in [1, MARKER] {
        equal(&rt, step(&rt, &mut cursor, &base, &passed), Some(item));
        equal(&rt, cursor.next(), 2);
    }
    cursor.settle(&passed);
    equal(&rt, cursor.next(), 2);
    let now = write(alloc, &passed, Action::Put("k", "3"))?;
    equal(&rt, step(&rt, &mut cursor, &base, &now), Some(3));
    equal(&rt, cursor.next(), 4);
    equal(&rt, cursor.handed(), 3);
    Ok(())
}
