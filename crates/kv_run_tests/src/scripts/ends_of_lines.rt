//! Where lines end, and how long they may be. Each script is alone in a new bucket.

use super::first::{By, gives};
use super::*;

const WRITTEN: &str = "{\"revision\":1}\n";

const BAD_COMMAND: &str = "{\"code\":16,\"error\":\"BadCommand\"}\n";

const BAD_KEY: &str = "{\"code\":4,\"error\":\"BadKey\"}\n";

// A script of its beginning, so many letters `a`, and its end; and its text.
#[derive(Clone, Copy)]
struct Script {
    begin: &'static [u8],
    letters: usize,
    end: &'static [u8],
    text: &'static str,
}

// So many bytes a line has at most.
const LONGEST_LINE: usize = 1_400_000;

// Behind `get `.
const LONGEST_KEY: usize = LONGEST_LINE - 4;

const SCRIPTS: &[Script] = &[
    Script {
        begin: b"",
        letters: 0,
        end: b"",
        text: "",
    },
    Script {
        begin: b"\r\n",
        letters: 0,
        end: b"",
        text: "",
    },
    Script {
        begin: b"put ",
        letters: 1,
        end: b" -",
        text: WRITTEN,
    },
    Script {
        begin: b"put ",
        letters: 1,
        end: b" -\r",
        text: WRITTEN,
    },
    Script {
        begin: b"put ",
        letters: 1,
        end: b" -\r\n",
        text: WRITTEN,
    },
    Script {
        begin: b"put ",
        letters: 1,
        end: b" MQ==\r\r\n",
        text: BAD_COMMAND,
    },
    Script {
        begin: b"get ",
        letters: 1,
        end: b"\0\n",
        text: BAD_KEY,
    },
    Script {
        begin: b"get ",
        letters: LONGEST_KEY,
        end: b"\n",
        text: BAD_KEY,
    },
    Script {
        begin: b"get ",
        letters: LONGEST_KEY,
        end: b"\r\n",
        text: BAD_KEY,
    },
    Script {
        begin: b"get ",
        letters: LONGEST_KEY + 1,
        end: b"\n",
        text: BAD_COMMAND,
    },
    Script {
        begin: b"get ",
        letters: LONGEST_KEY + 1,
        end: b"\r\n",
        text: BAD_COMMAND,
    },
    // A comment has no limit.
    Script {
        begin: b"#",
        letters: 2_000_000,
        end: b"\nput a -\n",
        text: WRITTEN,
    },
];

// More than any of these scripts has.
const ROOM: usize = 2_100_000;

fn whole(alloc: Global, script: Script) -> Result<Vec<u8>, AllocError> {
    let mut whole = Vec::with_capacity(alloc, ROOM)?;
    whole.extend_from_slice(script.begin)?;
    for _ in 0..script.letters {
        whole.push(b'a')?;
    }
    whole.extend_from_slice(script.end)?;
    Ok(whole)
}

#[test]
fn a_line_ends_by_lf_or_at_the_end_of_input(rt: HostRuntime) -> Result<(), Fail> {
    for script in SCRIPTS {
        let whole = once_more!(whole(rt.alloc(), *script))?;
        let text = script.text.as_bytes();
        let given = once_more!(gives(rt.alloc(), By::Replay, &whole, text));
        equal(&rt, given, Ok(true));
    }
    Ok(())
}
