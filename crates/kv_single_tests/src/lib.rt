//! Tests of the bucket of one thread and of what it stands on: names, versions, watches and buckets, each by worked rows,
//! and nothing else. They use public calls alone.
#![tactic(auto)]

#[cfg(test)]
mod buckets;
#[cfg(test)]
mod equal;
#[cfg(test)]
mod handed_on;
#[cfg(test)]
mod limits;
#[cfg(test)]
mod names;
#[cfg(test)]
mod same;
#[cfg(test)]
mod versions;
#[cfg(test)]
mod watches;
