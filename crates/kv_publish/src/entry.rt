//! What the log has.

use crate::ghost_act::GhostAct;

/// An entry of a history: an act, whether a step ends with it, by which right it was added, and which one is the right to
/// add the next entry. No value of it is made.
#[derive(Drop)]
pub struct Entry {
    pub ghost_act: GhostAct,
    pub ends: bool,
    pub right: u64,
    pub next: u64,
}
