//! Lines that are refused, and by what, in both forms of values.

use crate::texts::lines::{holds, parsed};
use kv_keys::KvError;
use kv_script::Form;
use std::alloc::Global;
use std::process::Abort;

const NO_COMMANDS: &[&str] = &[
    "put a MQ=",
    "put a =",
    "get  a",
    " get a",
    "compact 1 1",
    "PUT a MQ==",
    "put a",
    "put a MQ",
    "put  a MQ==",
    "take 1 0",
    "take 1 1000001",
    "get a 99999999999999999999",
    "get a 18446744073709551616",
    "get a 000000000000000000001",
    "get a +1",
    "get a 1 2",
    "put .a MQ",
    "place",
    "place a b",
    "seal x",
    "compact",
    "compact x",
    "compact 1 2",
    "compact -1",
    "compact 18446744073709551616",
    "batch",
    "batch x",
    "batch -1",
    "batch 1 1",
    "batch 18446744073709551616",
    "status x",
    "get\ta",
    "put a M===",
    "put a MR==",
    "put a MQ==MQ==",
    "put a ",
    " put a -",
    "get a ",
    "get",
    "history",
    "keys",
    "watch",
    "take 1",
    "stop",
    "stop x",
    "delete a x",
    "purge a 1 2",
    "update a -",
    "update a x -",
    "watch > latest",
    "watch > meta meta",
    "watch > from=",
    "watch > from=x",
    "watch > from=1 from=1",
    "watch > from=1 from=2",
    "watch > history history",
    "\u{e9}",
    " ",
];

const BAD_KEYS: &[&str] = &[
    "put .a MQ==",
    "get a\0",
    "get a,b",
    "history a..b",
    "place *",
    "delete a* 1",
];

const BAD_FILTERS: &[&str] = &[
    "keys a..b",
    "keys a,,b",
    "keys ,a",
    "keys a,b..c",
    "watch a,,b",
    "watch a,",
    "watch a> history updates",
];

const CLASHES: &[&str] = &[
    "watch > history updates",
    "watch > from=1 history",
    "watch > updates from=1",
    "watch > history from=2 updates",
];

const NO_COMMANDS_IN_TEXT: &[&str] = &[
    "put",
    "put ",
    "put k",
    "put  k v",
    "put  ",
    " put k v",
    "create",
    "create k",
    "update",
    "update k",
    "update k 7",
    "update k x v",
    "update k  v",
    "update  7 v",
    "update .k x v",
    "Put k v",
    "puts k v",
    "get  k",
    "get k ",
    "delete k ",
    "status ",
    "",
    " ",
];

const BAD_KEYS_IN_TEXT: &[&str] = &[
    "put .k v",
    "put k..l v w",
    "create k, ",
    "update .k 7 v",
    "get .k",
];

fn refusal(alloc: Global, form: Form, line: &[u8]) -> Option<KvError> {
    match parsed(alloc, form, line) {
        Ok(_) => None,
        Err(error) => Some(error),
    }
}

// Each of these lines is refused by this.
fn refuse<R: Abort>(rt: &R, alloc: Global, form: Form, lines: &[&str], error: KvError) {
    for line in lines {
        holds(
            rt,
            line,
            refusal(alloc, form, line.as_bytes()) == Some(error),
        );
    }
}

#[test]
fn lines_are_refused_by_these_faults(rt: HostRuntime) {
    refuse(
        &rt,
        rt.alloc(),
        Form::Base64,
        NO_COMMANDS,
        KvError::BadCommand,
    );
    refuse(&rt, rt.alloc(), Form::Base64, BAD_KEYS, KvError::BadKey);
    refuse(
        &rt,
        rt.alloc(),
        Form::Base64,
        BAD_FILTERS,
        KvError::BadFilter,
    );
    refuse(
        &rt,
        rt.alloc(),
        Form::Base64,
        CLASHES,
        KvError::OptionsClash,
    );
    refuse(
        &rt,
        rt.alloc(),
        Form::Text,
        NO_COMMANDS_IN_TEXT,
        KvError::BadCommand,
    );
    refuse(
        &rt,
        rt.alloc(),
        Form::Text,
        BAD_KEYS_IN_TEXT,
        KvError::BadKey,
    );
}

#[test]
fn a_line_that_is_no_text_is_no_command(rt: HostRuntime) {
    let alloc = rt.alloc();
    assert!(rt; refusal(alloc, Form::Base64, b"get \xff") == Some(KvError::BadCommand));
    assert!(rt; refusal(alloc, Form::Text, b"put k \xff") == Some(KvError::BadCommand));
}
