//! The examples of README.md and docs/library.md, which quote them word for word. Each test runs its example, and runs it again
//! where a request for memory was refused.

use kv_test_tools::once_more;
use std::alloc::Global;
use std::process::Abort;
use std::test::Fail;

mod compare_and_set;
mod config_service;
mod first_look;
mod maps;
mod names;
mod scripts;
