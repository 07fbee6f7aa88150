//! How often a device failed.

ghost use Rattle.std.specs.Prelude.{◌≤◌};
ghost use Rattle.kv_replay.specs.Failures.{HasRisen};

/// One failure more, as long as there is a larger number.
pub fn one_more(failures: u64) -> u64
    ensures risen { HasRisen failures result }
    ensures kept { failures ≤ result }
{
    if failures == u64::MAX {
        return failures;
    }
    failures + 1
}
