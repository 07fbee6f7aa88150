//! The functions that C calls.

mod batch;
mod checkpoint;
mod code_name;
mod compact;
mod feed;
mod file;
mod open;
mod read;
mod watch;
mod write;
mod write_behind;
