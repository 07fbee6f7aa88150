//! Lines of a script: what each asks for.

pub(crate) mod choices;
pub(crate) mod command;
pub(crate) mod grammar;
pub(crate) mod in_text;
pub(crate) mod numbers;
pub(crate) mod reads;
pub(crate) mod values;
pub(crate) mod watches;
pub(crate) mod words;
pub(crate) mod writes;
