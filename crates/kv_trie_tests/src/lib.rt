//! Tests of the persistent trie by worked rows: its forms, its steps beside snapshots, its walks. They use public calls
//! alone.
#![tactic(auto)]

#[cfg(test)]
mod equal;
#[cfg(test)]
mod tries;
