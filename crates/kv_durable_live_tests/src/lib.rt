//! Tests of durable buckets that threads share, over a file in memory.
//!
//! A test is made once more where it could not end: one of its requests for memory may be refused, and no second one.
#![tactic(auto)]

#[cfg(test)]
mod acts;
#[cfg(test)]
mod checkpointed;
#[cfg(test)]
mod equal;
#[cfg(test)]
mod faults;
#[cfg(test)]
mod opened;
#[cfg(test)]
mod readers;
#[cfg(test)]
mod reopened;
#[cfg(test)]
mod sharing;
#[cfg(test)]
mod shrinking;
#[cfg(test)]
mod writers;
