//! A race: many threads write to one bucket while others watch it, and what each of them saw is told.
#![tactic(auto)]

mod agreeing;
mod desk;
mod ending;
mod feeding;
mod gate;
pub mod laws;
mod never;
mod numbers;
mod opening;
mod racing;
mod replies;
mod report;
mod threads;
mod watcher;
mod worker;

pub use gate::{Gate, NoGate, Who};
pub use racing::race;
pub use report::Report;
