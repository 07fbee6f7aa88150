//! Keys and filters.

use super::*;
use kv_keys::{Filter, Filters, Key, KvError};

fn names(rt: &impl Abort, alloc: Global) -> Result<(), KvError> {
    let key = Key::parse(alloc, "app.port")?;
    assert_eq!(rt; key.as_str(), "app.port");

    let filter = Filter::parse(alloc, "app.>")?;
    assert!(rt; filter.matches(&key));

    let filters = Filters::parse(alloc, "db.>,*.port")?;
    assert_eq!(rt; filters.count(), 2);
    assert!(rt; filters.matches(&key));
    Ok(())
}

// Texts that are none.
fn refused(rt: &impl Abort, alloc: Global) {
    let no_key = Key::parse(alloc, "app..port");
    assert_eq!(rt; no_key.err(), Some(KvError::BadKey));
    let no_filter = Filter::parse(alloc, "app.>.port");
    assert_eq!(rt; no_filter.err(), Some(KvError::BadFilter));
}

#[test]
fn texts_are_keys_and_filters(rt: HostRuntime) -> Result<(), Fail> {
    refused(&rt, rt.alloc());
    Ok(once_more!(names(&rt, rt.alloc()))?)
}
