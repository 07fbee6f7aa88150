//! Names of a key-value bucket: keys, filters, places in a hash trie, and the refusals of every call.
#![tactic(auto)]

mod error;
mod filter;
mod filters;
mod grammar;
mod key;
mod matching;
mod place;
mod short;
mod text;

pub use error::KvError;
pub use filter::Filter;
pub use filters::Filters;
pub use grammar::is_name;
pub use key::Key;
pub use place::{Place, fnv32};
pub use short::Short;
