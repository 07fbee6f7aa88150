//! Tests of calls that wait, and of followers that sleep.

mod closing;
pub mod rounds;
pub mod sleepers;
mod waits;
