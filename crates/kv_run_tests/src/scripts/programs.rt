//! The program: its arguments, its status and what it tells of faults. What it answers to scripts stands in tests/scripts.

use super::*;
use std::fs::{File, Files};
use std::random::RandomSource;
use std::sync::Wait;
use std::thread::Threads;

fn words(alloc: Global, arguments: &[&str]) -> Result<Vec<String>, AllocError> {
    let mut words = Vec::new(alloc);
    words.push(String::from_str(alloc, "kvbucket")?)?;
    for argument in arguments {
        words.push(String::from_str(alloc, argument)?)?;
    }
    Ok(words)
}

// What the program came to.
#[derive(Drop)]
struct Done {
    status: u8,
    written: Vec<u8>,
    faults: Vec<u8>,
}

fn run_once<T: Threads + Wait + Sync + Files<File = File> + RandomSource>(
    rt: &T,
    alloc: Global,
    words: &[String],
    script: &[u8],
) -> Result<Done, AllocError> {
    let mut reader = script;
    let mut written = sheet(alloc)?;
    let mut faults = sheet(alloc)?;
    let status = program(
        rt,
        alloc,
        words,
        &mut CountedReader::new(&mut reader),
        &mut CountedWriter::new(&mut written),
        &mut CountedWriter::new(&mut faults),
    );
    Ok(Done {
        status,
        written,
        faults,
    })
}

// Whether the program ended for want of memory, and wrote whole lines of the text.
fn lacks_memory(done: &Done, text: &str) -> bool {
    done.status == 1
        && done.faults.as_slice() == b"kvbucket: OutOfMemory\n".as_slice()
        && is_front(&done.written, text.as_bytes())
}

// Whether a write of a race was refused alone for want of memory.
fn has_lack(done: &Done) -> bool {
    match std::str::from_utf8(&done.written) {
        Ok(text) => text.contains("\"error\":\"OutOfMemory\""),
        Err(_) => false,
    }
}

// Runs the program, and runs it again where it lacked memory.
fn run<T: Threads + Wait + Sync + Files<File = File> + RandomSource>(
    rt: &T,
    alloc: Global,
    arguments: &[&str],
    script: &str,
    text: &str,
) -> Result<Done, AllocError> {
    let words = once_more!(words(alloc, arguments))?;
    let first = run_once(rt, alloc, &words, script.as_bytes())?;
    if lacks_memory(&first, text) || has_lack(&first) {
        return run_once(rt, alloc, &words, script.as_bytes());
    }
    Ok(first)
}

// A script whose last line has no line feed, which the files of tests/scripts can't say, and its text.
struct Unended {
    arguments: &'static [&'static str],
    script: &'static str,
    text: &'static str,
}

const UNENDED: &[Unended] = &[
    Unended {
        arguments: &["--text"],
        script: "put a x y\nget a",
        text: "{\"revision\":1}\n\
            {\"key\":\"a\",\"op\":\"PUT\",\"revision\":1,\"size\":3,\"value\":\"x y\"}\n",
    },
    Unended {
        arguments: &["--race", "1"],
        script: "put a -\nget a",
        text: "{\"code\":16,\"error\":\"BadCommand\"}\n\
            {\"revision\":1,\"worker\":1}\n",
    },
    Unended {
        arguments: &["--race", "3"],
        script: "watch a..\nwatch a",
        text: "{\"code\":5,\"error\":\"BadFilter\"}\n\
            {\"marker\":true,\"watch\":1}\n",
    },
];

#[test]
fn a_last_line_without_a_line_feed_is_answered(rt: HostRuntime) -> Result<(), Fail> {
    for it in UNENDED {
        let done = run(&rt, rt.alloc(), it.arguments, it.script, it.text)?;
        assert!(rt; done.status == DONE && done.faults.is_empty());
        assert!(rt; done.written.as_slice() == it.text.as_bytes());
    }
    Ok(())
}

// Arguments under which no script runs, the status, and the beginnings of what is written and of what is told of faults.
struct Alone {
    arguments: &'static [&'static str],
    status: u8,
    written: &'static str,
    fault: &'static str,
}

const DONE: u8 = 0;

const BAD_ARGUMENTS: u8 = 2;

const REFUSED: Alone = Alone {
    arguments: &[],
    status: BAD_ARGUMENTS,
    written: "",
    fault: "",
};

const ALONE: &[Alone] = &[
    Alone {
        arguments: &["--help"],
        status: DONE,
        written: "Runs a script of commands",
        fault: "",
    },
    Alone {
        arguments: &["-V"],
        status: DONE,
        written: "kvbucket 0.1.0, proved with ",
        fault: "",
    },
    Alone {
        arguments: &["--bucket", "my.bucket"],
        fault: "kvbucket: BadBucket\n",
        ..REFUSED
    },
    Alone {
        arguments: &["--bucket", "", "--history", "0"],
        fault: "kvbucket: BadBucket\n",
        ..REFUSED
    },
    Alone {
        arguments: &["--history", "65"],
        fault: "kvbucket: BadConfig\n",
        ..REFUSED
    },
    Alone {
        arguments: &["--race", "2", "--history", "0"],
        fault: "kvbucket: BadConfig\n",
        ..REFUSED
    },
    Alone {
        arguments: &["--race=17"],
        fault: "error: invalid value '17' for '--race <N>'",
        ..REFUSED
    },
    Alone {
        arguments: &["--text", "--text"],
        fault: "error: ",
        ..REFUSED
    },
    Alone {
        arguments: &["--colour"],
        fault: "error: unexpected argument '--colour' found",
        ..REFUSED
    },
];

// Whether a text is empty, or has this beginning where there is one.
fn begins(text: &[u8], begin: &str) -> bool {
    text.starts_with(begin.as_bytes()) && text.is_empty() == begin.is_empty()
}

#[test]
fn these_arguments_run_nothing(rt: HostRuntime) -> Result<(), Fail> {
    for alone in ALONE {
        let done = run(&rt, rt.alloc(), alone.arguments, "put a -\n", "")?;
        equal(&rt, done.status, alone.status);
        assert!(rt; begins(&done.written, alone.written) && begins(&done.faults, alone.fault));
    }
    Ok(())
}
