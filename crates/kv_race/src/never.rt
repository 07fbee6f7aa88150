//! What never comes, and no clause excludes.

use std::sync::Wait;

/// Waits for ever, as a call that waits may. It stands where a race does not come, so that no refusal has to name that.
pub(crate) fn never<T, R: Wait>(rt: &R) -> T
    ensures { ⊥ }
{
    for _ in rt.forever() {}
    unreachable!()
}
