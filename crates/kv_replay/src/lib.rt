//! Scripts: each line is a command to a bucket, and each answer a line of JSON.
#![tactic(auto)]

mod answer;
mod batch;
mod batches;
mod bounded_input;
mod engine;
mod failures;
mod input;
mod interpreter;
mod lines;
mod output;
mod pouring;
mod reads;
mod refusals;
mod streams;
mod takes;
mod target;
mod watches;
mod writes;

pub use answer::{answer_line, answer_line_in};
pub use bounded_input::{Bounded, BoundedInput};
pub use engine::{BUFFER_BYTES, Ended, new_buffer, run_on, run_script};
pub use input::{CountedReader, Input};
pub use kv_script::Form;
pub use kv_single::{
    Bucket, Config, Filter, Filters, Key, KvError, Options, Reply, Request, Seen, Start, Version,
    Write,
};
pub use lines::KEPT_BYTES;
pub use output::{CountedWriter, Output};
pub use pouring::pour_many;
pub use streams::{READ_CALLS, replay, replay_bounded, replay_bounded_in, replay_in};
pub use target::Target;
