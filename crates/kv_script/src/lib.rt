//! The lines of a script: what each asks for, and the text of each answer.
#![tactic(auto)]

mod answering;
mod form;
pub mod laws;
mod parsing;

pub use answering::answers::{
    append_compacted, append_empty, append_marker, append_revision, append_sealed, append_stopped,
    append_told, append_watch,
};
pub use answering::batches::append_revisions;
pub use answering::entries::append_entry;
pub use answering::history::append_history;
pub use answering::keys::append_keys;
pub use answering::refusals::{append_batch_refusal, append_refusal, append_worker_refusal};
pub use answering::status::{append_place, append_status};
pub use answering::taken::append_taken_entry;
pub use form::Form;
pub use parsing::command::Command;
pub use parsing::grammar::{is_skipped, parse, parse_write, without_return};
