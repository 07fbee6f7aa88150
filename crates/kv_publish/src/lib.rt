//! What a bucket of threads publishes: the journal of its acts, which exists in proofs alone, the two copies of
//! the last version, in which readers enter without a lock, and the notifier on which they sleep. It knows versions, and no
//! bucket and no reader: those stand above it, in `kv_bucket`.
#![tactic(auto)]

mod adaptive_spin;
mod chosen_acts;
mod double_buffer;
mod entry;
mod ghost_act;
mod journal;
mod last_published;
mod notifier;
mod prefix;
mod protocol;
mod publication;
mod raw_journal;
mod rule;
mod side;
mod step;
mod witness;

pub use chosen_acts::ChosenActs;
pub use double_buffer::DoubleBuffer;
pub use ghost_act::GhostAct;
pub use journal::{FreshJournal, Journal};
pub use last_published::LastPublished;
pub use notifier::{Notifier, Woken};
pub use prefix::{Prefix, RawPrefix};
pub use protocol::{Began, Known, LiveName};
pub use publication::Publication;
pub use rule::{Gets, PublishRule};
pub use side::{Right, Side};
pub use step::Step;
pub use witness::Witness;
