//! What a watch is given, and cursors that go through it.
#![tactic(auto)]

mod audit;
mod cursor;
mod item;
pub mod laws;
mod opening;
mod watch;

pub use audit::given;
pub use cursor::Cursor;
pub use item::{Shown, Taken};
pub use kv_model::{Event, Options, Start};
pub use watch::Watch;
