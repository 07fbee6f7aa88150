//! Tests of journal files: their checksum by published vectors, their frames, their entries, and the version that a file
//! stands for. The sample file was made by a program in another language, from the page on the format alone.
//!
//! A test is made once more where it could not end: one of its requests for memory may be refused, and no second one.
#![tactic(auto)]

#[cfg(test)]
mod acts;
#[cfg(test)]
mod batches;
#[cfg(test)]
mod beginnings;
#[cfg(test)]
mod checkpointed;
#[cfg(test)]
mod checkpoints;
#[cfg(test)]
mod courses;
#[cfg(test)]
mod entries;
#[cfg(test)]
mod equal;
#[cfg(test)]
mod faults;
#[cfg(test)]
mod files;
#[cfg(test)]
mod frames;
#[cfg(test)]
mod reopened;
#[cfg(test)]
mod replaced;
#[cfg(test)]
mod sample;
#[cfg(test)]
mod shrinking;
#[cfg(test)]
mod steps;
#[cfg(test)]
mod system;
#[cfg(test)]
mod unreachable;
