//! Tests of races of many workers and watchers. They use public calls alone.
#![tactic(auto)]

#[cfg(test)]
mod equal;
#[cfg(test)]
mod races;
