//! What tests compare versions by: all that they tell.

use crate::equal::equal;
use kv_single::Version;
use kv_test_tools::is_same_at;
use std::process::Abort;

// Ends the test where one of them tells what the other doesn't.
pub fn tell_the_same(rt: &impl Abort, first: &Version, second: &Version) {
    equal(rt, first.bucket(), second.bucket());
    equal(rt, first.status(), second.status());
    equal(rt, first.floor(), second.floor());
    equal(rt, first.by_key().len(), second.by_key().len());
    for revision in 1..=first.revision() {
        assert!(rt; is_same_at(first, second, revision));
    }
}
