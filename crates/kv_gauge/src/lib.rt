//! Measures a bucket of one thread: its calls, compactions and memory; with the keys, the clock and the lines of
//! figures of whoever measures more.
#![tactic(auto)]

pub mod calls;
pub mod clock;
pub mod colliding;
pub mod compacting;
pub mod fault;
pub mod keys;
pub mod long;
pub mod memory;
pub mod plan;
pub mod reading;
pub mod series;
pub mod subject;
pub mod watching;
