//! The program: it runs a script, or races threads over it.
#![tactic(auto)]

mod arguments;
mod clashes;
mod files;
mod help;
pub mod laws;
mod races;
mod running;
mod telling;

pub use kv_race::{Gate, NoGate, Report, Who, race};
pub use kv_replay::{
    Bounded, BoundedInput, CountedReader, CountedWriter, Form, Input, Output, answer_line,
    answer_line_in, replay, replay_bounded, replay_bounded_in, replay_in, run_script,
};
pub use kv_single::{
    Bucket, Config, Filter, Filters, Key, KvError, Options, Reply, Request, Seen, Start, Version,
    Write,
};
pub use races::over_scripts::{race_script, replay_race};
pub use running::program;
