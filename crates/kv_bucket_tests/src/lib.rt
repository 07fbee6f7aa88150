//! Tests of a bucket that threads share, by what one thread sees of it. They use public calls alone.
#![tactic(auto)]

#[cfg(test)]
mod equal;
#[cfg(test)]
mod threads;
