//! What two versions tell alike.

use kv_store::{Version, Write};

fn is_same_write(first: &Write, second: &Write) -> bool {
    first.key() == second.key()
        && first.op() == second.op()
        && first.revision() == second.revision()
        && first.value() == second.value()
}

/// Whether both versions have the same write at the revision, and the same kept revisions of its key.
pub fn is_same_at(first: &Version, second: &Version, revision: u64) -> bool {
    match (first.write_at(revision), second.write_at(revision)) {
        (Some(one), Some(other)) => {
            is_same_write(one, other) && first.kept_at(one.key()) == second.kept_at(one.key())
        }
        (None, None) => true,
        _ => false,
    }
}
