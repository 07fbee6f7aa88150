//! A bucket for C: what `kv_single` does, under functions that C can call.
//!
//! C keeps a `Handle`; all of its bytes 0, it is closed. Each call gives it back as its clauses say.
#![tactic(auto)]

mod batch;
mod codes;
mod content;
mod exports;
mod feed;
mod filed;
mod handle;
mod item;
pub mod laws;
mod made;
mod more;
mod outbox;
mod parse;
mod parts;
mod read;
mod ready;
mod request;
mod ringed;
mod slot;
mod status;
