//! The journal of a bucket: what its file begins with, the entries that stand in it, and the version that they stand for.
#![tactic(auto)]

mod checkpoint;
mod contents;
mod course;
mod damage;
mod decode;
mod encode;
mod entry;
mod header;
mod kind;
pub mod laws;
mod loose;
mod numbers;
mod replays;
mod restoration;

pub use checkpoint::push_checkpoint;
pub use damage::shows_damage;
pub use decode::Record;
pub use encode::{encode_batch, encode_closed, encode_compaction, encode_request, encode_seal};
pub use entry::{batch_of, part_of};
pub use header::{BeginningError, Begun, begin, push_beginning};
pub use kind::begins_checkpoint;
pub use loose::loose_of;
pub use replays::{ReplayError, Replayed, replay};
pub use restoration::restore;
