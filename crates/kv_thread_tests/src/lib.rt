//! Tests of a bucket that threads share, beside other threads: who follows, waits, sleeps, or is told of a write. They use
//! public calls alone.
#![tactic(auto)]

#[cfg(test)]
mod beside;
#[cfg(test)]
mod equal;
#[cfg(test)]
mod feeds;
#[cfg(test)]
mod following;
#[cfg(test)]
mod pairs;
#[cfg(test)]
mod threaded;
#[cfg(test)]
mod told;
#[cfg(test)]
mod waiting;
