//! Times, and figures of them. A figure is counted in tenths of its unit.

use crate::fault::Fault;
use std::rt::Clock;
use std::time::{Duration, Instant};

/// The nanoseconds of a time.
pub fn nanos(time: Duration) -> u64 {
    u64::try_from(time.as_nanos()).unwrap_or(u64::MAX)
}

/// The nanoseconds since a moment.
pub fn since<R: Clock>(rt: &R, start: &Instant) -> Result<u64, Fault> {
    let time = start.elapsed(rt)?;
    Ok(nanos(time))
}

/// Tenths of a nanosecond that each of so many took.
pub fn each(nanos: u64, count: usize) -> u64 {
    if count == 0 {
        return 0;
    }
    nanos.saturating_mul(10) / count as u64
}

/// Tenths of so many a second.
pub fn a_second(count: u64, nanos: u64) -> u64 {
    if nanos == 0 {
        return 0;
    }
    count.saturating_mul(10_000_000_000) / nanos
}
