//! Laws over the definitions alone: functions with empty bodies, whose clauses are what is proved. They know no version
//! and no cursor.

pub mod batches;
pub mod compaction;
pub mod runs;
pub mod watches;
