//! What tests of a bucket that threads share have in common: how one is opened for a test, what is done with it line by
//! line, with what each line has to answer, and what of it can be seen. Nothing here ends a test: it answers what it found,
//! and the test compares.
#![tactic(auto)]

mod answers;
mod batch;
mod calling;
mod moving;
mod observed;
mod opened;
mod readers;

pub use answers::{Answer, Differs, on};
pub use batch::batched;
pub use calling::{Ask, Call, Step, calls, put_request, requests, steps};
pub use moving::{Move, ObservedFeed, feed_of, feed_of_last, look_at, moves, stop};
pub use observed::{Observed, look, look_through};
pub use opened::{ClosingTest, OPENING, Opening, Test, open_bucket, run, run_closing, run_on};
pub use readers::{both, last, reader_and_feed, shown_to, version};
