//! What the crates of tests have in common: a call that is made again where it was refused for want of memory, the requests
//! of writes, the options of a plain watch, and whether two versions have the same writes.
#![tactic(auto)]

mod calling;
mod requests;
mod versions;

pub use calling::{Answered, is_refused, lacks_memory};
pub use requests::{LATEST, delete, purge, put};
pub use versions::is_same_at;
