//! Examples of docs/library.md, which quotes them word for word. Each test runs its example, and runs it again where a
//! request for memory was refused.

use kv_test_tools::{LATEST, once_more};
use std::alloc::Global;
use std::process::Abort;
use std::test::Fail;

mod clients;
mod compacting;
mod service;
mod threads;
