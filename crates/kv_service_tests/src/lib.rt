//! Tests of a bucket for as long as a service runs, and the examples of docs/library.md with threads. They use public calls
//! alone.
#![tactic(auto)]

#[cfg(test)]
mod equal;
#[cfg(test)]
mod examples;
#[cfg(test)]
mod serving;
