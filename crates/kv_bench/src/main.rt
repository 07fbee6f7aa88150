//! Measures the bucket, and what a user would take in its place: kv_bench GROUP KEYS ROUNDS
#![tactic(auto)]

mod beside;
mod groups;
mod jobs;
mod live_memory;
mod live_rounds;
mod lives;
mod map_rounds;
mod maps;
mod round;
mod sides;
mod told;

use groups::{Group, of_word};
use kv_gauge::plan::Plan;
use std::alloc::Global;
use std::io;
use std::process::ExitCode;
use std::rt::{Clock, Files};
use std::sync::Wait;
use std::thread::Threads;
use std::time::CpuClock;

// The program's name and its arguments.
fn words(rt: &HostRuntime, alloc: Global) -> io::Result<Vec<String>> {
    let words = std::env::args(rt)?.collect(alloc)?;
    Ok(words)
}

// A number of the arguments; none where it is no number.
fn number(words: &Vec<String>, index: usize) -> Option<usize> {
    words.get(index)?.as_str().parse::<usize>().ok()
}

// What is asked for: a group, and how much of it. The group `check` tells no figures.
fn asked(words: &Vec<String>) -> Option<(Group, Plan)> {
    let word = words.get(1)?.as_str();
    let group = of_word(word)?;
    let plan = Plan {
        keys: number(words, 2)?,
        rounds: number(words, 3)?,
        quiet: word == "check",
    };
    Some((group, plan))
}

fn measured<R: Clock + CpuClock + Print + Eprint + Wait + Threads + Sync + Files + AllocGlobal>(
    rt: &R,
    group: Group,
    plan: Plan,
) -> u8 {
    match groups::run(rt, plan, group) {
        Ok(()) => 0,
        Err(fault) => {
            let _ = eprintln!(rt; "kv_bench: {fault}");
            1
        }
    }
}

fn main(rt: HostRuntime) -> ExitCode {
    let asked = match words(&rt, rt.alloc()) {
        Ok(words) => asked(&words),
        Err(_) => None,
    };
    let status = match asked {
        Some((group, plan)) => measured(&rt, group, plan),
        None => {
            let _ = eprintln!(rt; "kv_bench GROUP KEYS ROUNDS");
            2
        }
    };
    ExitCode::from(status)
}
