//! Watches over versions that were compacted.

use super::*;

fn reaches(rt: &impl Abort, cursor: &Cursor, now: &Version, reach: u64) {
    equal(rt, cursor.reach(now), reach);
    assert!(rt; !cursor.behind(now, reach));
}

const BEHIND: &[Action] = &[
    Action::Put("x", "2"),
    Action::Put("x", "3"),
    Action::Put("x", "4"),
    Action::Put("k", "5"),
];

// Of an opening that was compacted since every entry is handed out, and a hole in the revisions hides no entry behind.
#[test]
fn what_was_compacted_hides_nothing(rt: HostRuntime) -> Result<(), Fail> {
    let alloc = rt.alloc();
    let base = written(alloc, &[Action::Put("k", "1")])?;
    let filters = one(alloc, "k")?;
    let mut cursor = open(&rt, alloc, &base, &filters, LATEST)?;
    let now = write_all(alloc, base.snapshot()?, BEHIND)?;
    reaches(&rt, &cursor, &now, 4);
    assert!(rt; cursor.behind(&now, 5));
    let compacted = once_more!(now.compact(alloc, 4))?;
    for item in [Some(1), Some(MARKER), Some(5), None] {
        equal(&rt, step(&rt, &mut cursor, &base, &compacted), item);
    }
    reaches(&rt, &cursor, &compacted, 5);
    Ok(())
}
