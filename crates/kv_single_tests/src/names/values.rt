//! Keys and filters as values: their order, and copies of them.

use super::*;

fn are_ordered<K: Ord>(rt: &impl Abort, low: &K, high: &K) {
    assert!(rt; low < high && low != high);
    assert!(rt; high.cmp(low).is_gt() && low.cmp(low).is_eq());
}

const ORDERED: &[(&str, &str)] = &[
    ("a", "b"),
    ("a", "aa"),
    ("B", "a"),
    ("a-b", "a.b"),
    ("a.z", "aa"),
    ("services.billing.port.v1", "services.billing.port.v12"),
    ("services.billing.port.v11", "services.billing.port.v2"),
    ("services.billing.port.v11", "services.billing.port.v12"),
];

// As keys, and as short keys.
#[test]
fn keys_are_ordered_by_bytes(rt: HostRuntime) -> Result<(), Fail> {
    for (low, high) in ORDERED {
        let low: Key = made(rt.alloc(), low)?;
        let high: Key = made(rt.alloc(), high)?;
        are_ordered(&rt, &low, &high);
        are_ordered(&rt, &Short(low), &Short(high));
    }
    Ok(())
}

// A refusal leaves the text.
fn is_copied<T: Parsed>(rt: &impl Abort, alloc: Global, text: &str) -> Result<(), KvError> {
    let from: T = made(alloc, text)?;
    let copy = once_more!(from.copied(alloc), equal(rt, from.text(), text))?;
    equal(rt, copy.text(), text);
    equal(rt, copy.filters(), from.filters());
    Ok(())
}

#[test]
fn a_copy_has_the_same_text(rt: HostRuntime) -> Result<(), Fail> {
    is_copied::<Key>(&rt, rt.alloc(), "a.b")?;
    is_copied::<Key>(&rt, rt.alloc(), "services.billing.port.v1")?;
    is_copied::<Key>(&rt, rt.alloc(), "services.billing.port.v12")?;
    is_copied::<Filter>(&rt, rt.alloc(), "a.*")?;
    is_copied::<Filters>(&rt, rt.alloc(), "a.*,b")?;
    Ok(())
}

// A refusal leaves the filter.
#[test]
fn a_list_of_one_filter_has_its_text(rt: HostRuntime) -> Result<(), Fail> {
    let pattern: Filter = made(rt.alloc(), "a.*")?;
    let one = once_more!(
        Filters::one(rt.alloc(), &pattern),
        equal(&rt, pattern.as_str(), "a.*")
    )?;
    equal(&rt, one.as_str(), "a.*");
    equal(&rt, one.count(), 1);
    Ok(())
}
