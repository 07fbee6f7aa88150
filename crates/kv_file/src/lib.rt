//! Files that only grow: what is asked of one, one of the system, one in memory that can fail, and what adds to one and
//! brings it onto the disk.
#![tactic(auto)]

mod appender;
mod file;
mod memory;
mod replace;
mod system;

pub use appender::{Appender, Sync};
pub use file::{FileFault, JournalFile, ReadFault};
pub use memory::{MemoryFile, Torn};
pub use replace::{ReplaceFault, ReplaceableFile};
pub use system::{OpenFault, SystemFile, SystemLocation};
