//! The text of each answer, and of each refusal.

pub(crate) mod answers;
pub(crate) mod batches;
pub(crate) mod entries;
pub(crate) mod field;
pub(crate) mod history;
pub(crate) mod json_line;
pub(crate) mod keys;
pub(crate) mod refusals;
pub(crate) mod shown;
pub(crate) mod status;
pub(crate) mod taken;
pub(crate) mod unsent;
