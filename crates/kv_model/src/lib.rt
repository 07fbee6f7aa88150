//! The plain words of a bucket (what is asked of it, its configuration, how a watch shows writes), and with them the
//! definitions of all that a bucket of one thread is proved to do, over one list of accepted acts.
#![tactic(auto)]

mod batch;
mod call;
mod config;
mod event;
pub mod laws;
mod options;
mod request;
mod status;
mod stopped;
mod write;

pub use batch::BatchRefused;
pub use call::Call;
pub use config::Config;
pub use event::Event;
pub use options::{Options, Start};
pub use request::Request;
pub use status::Status;
pub use stopped::Stopped;
pub use write::{Op, Write};
