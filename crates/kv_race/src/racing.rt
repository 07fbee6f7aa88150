//! Races.

ghost use Rattle.std.specs.Prelude.{◌≡◌, Ok, All, IfOk, IfErr, length, map};
ghost use Rattle.kv_keys.specs.Outcome.{Refuses};
ghost use Rattle.kv_keys.specs.declared.error.KvError.TheVariants.{OutOfMemory};
ghost use Rattle.kv_model.specs.Requests.{asked};
ghost use Rattle.kv_single.specs.Replies.{answer_of};
ghost use Rattle.kv_bucket.specs.ReaderState.{IsUnread};
ghost use Rattle.kv_race.specs.Openings.{may_race, RefusesRace};
ghost use Rattle.std.specs.List.{AllZip};
ghost use Rattle.kv_race.specs.Racing.{AreNumbered, IsRaced};
ghost use Rattle.kv_race.specs.Telling.{HasLast, IsEnded, IsShown, reply_of};

use crate::agreeing::last_of;
use crate::ending::{Answers, Ended, end_watch};
use crate::gate::Gate;
use crate::numbers::check_numbers;
use crate::opening::open_feeds;
use crate::replies::all_replies;
use crate::report::Report;
use crate::threads::{Watched, Worked, run_all};
use kv_bucket::{Live, LiveName, Opened, Reader, Reply};
use kv_keys::{Filters, KvError};
use kv_model::{Config, Options, Request};
use std::alloc::Global;
use std::marker::Brand;
use std::sync::Wait;
use std::thread::Threads;

/// The most workers of a race.
const MOST_WORKERS: usize = 16;

// Opens a bucket for a race.
fn open_for(
    alloc: Global,
    config: &Config,
    workers: usize,
    watches: usize,
) -> Result<Opened, KvError>
    ensures ok { IfOk result
        (λ opened. (may_race config.now workers watches ≡ Ok config.now) × (opened.opening.config ≡ config.now)) }
    ensures refused { IfErr result (λ e. Refuses e (may_race config.now workers watches)) }
{
    config.check()?;
    if workers == 0 || workers > MOST_WORKERS {
        return Err(KvError::BadConfig);
    }
    Live::open(alloc, config, watches.max(1))
}

// The answers of all workers, unless memory ran out in one of them.
fn all_answers<N: LiveName>(
    alloc: Global,
    worked: Vec<Worked<N>>,
) -> Result<Vec<Answers<N>>, KvError>
    ensures ok { IfOk result (λ answers. worked.items ≡ map Ok answers.items) }
    ensures err { IfErr result (λ e. e ≡ OutOfMemory) }
{
    let mut all = Vec::new(alloc);
    for one in worked {
        let Ok(answers) = one else {
            return Err(KvError::OutOfMemory);
        };
        all.push(answers)?;
    }
    Ok(all)
}

// Ends all watches.
fn end_watches<N: LiveName, R: Wait>(
    rt: &R,
    alloc: Global,
    watched: Vec<Watched<N>>,
    answers: &[Answers<N>],
) -> Result<Vec<Ended<N>>, KvError>
    ensures ok { IfOk result
        (λ ended. AllZip
        (λ one end. IsEnded N.opening.config (map
        (λ some. some.items) answers.now) one.feed one.seen.items end.reader.seen end.last end.seen.items)
        watched.items ended.items) }
    ensures err { IfErr result IsUnread }
{
    let mut all = Vec::new(alloc);
    for one in watched {
        all.push(end_watch(rt, alloc, one, answers)?)?;
    }
    Ok(all)
}

// What the watches saw.
fn all_seen<N: LiveName>(alloc: Global, ended: Vec<Ended<N>>) -> Result<Vec<Vec<Reply>>, KvError>
    ensures ok { IfOk result
        (λ all. map (λ seen. seen.items) all.items ≡ map (λ end. end.seen.items) ended.items) }
    ensures err { IfErr result (λ e. e ≡ OutOfMemory) }
{
    let mut all = Vec::new(alloc);
    for end in ended {
        all.push(end.seen)?;
    }
    Ok(all)
}

// What a race comes to. What can be compared is compared: the numbers of the replies, and what the watches saw.
fn report_of<N: LiveName, R: Wait>(
    rt: &R,
    alloc: Global,
    answers: &[Answers<N>],
    ended: Vec<Ended<N>>,
    spare: Option<Reader<N>>,
) -> Result<Report, KvError>
    requires { All (λ end. IsShown N.opening.config (map (λ some. some.items) answers.now) end.reader.seen end.last)
        ended.items }
    ensures last { IfOk result
        (λ report. HasLast N.opening.config (map
        (λ some. some.items) answers.now) (map (λ end. end.reader.seen) ended.items) report.last) }
    ensures numbered { IfOk result
        (λ report. AreNumbered (map (λ some. some.items) report.replies.items) report.last.last) }
    ensures replies { IfOk result
        (λ report. map (λ some. some.items) report.replies.items ≡ map (λ some. map reply_of some.items) answers.now) }
    ensures seen { IfOk result
        (λ report. map (λ seen. seen.items) report.seen.items ≡ map (λ end. end.seen.items) ended.items) }
    ensures err { IfErr result IsUnread }
{
    let last = last_of(rt, alloc, &ended, spare, answers)?;
    let replies = all_replies(alloc, answers)?;
    check_numbers(rt, alloc, &replies, last.revision())?;
    let seen = all_seen(alloc, ended)?;
    Ok(Report {
        replies,
        seen,
        last,
    })
}

// Runs a race on a bucket that was opened for it.
fn run<N: LiveName + Send + Sync, R: Threads + Wait + Sync, G: Gate>(
    rt: &R,
    alloc: Global,
    live: &Live<N>,
    readers: Vec<Reader<N>>,
    scripts: &[Vec<Request>],
    watches: &[(Filters, Options)],
    gate: &G,
) -> Result<Report, KvError>
    ensures ok { IfOk result
        (λ report. IsRaced N.opening.config (map (λ script. map asked script.items) scripts.now) watches.now
        (map (λ some. some.items) report.replies.items) (map
        (λ seen. map answer_of seen.items) report.seen.items) report.last) }
    ensures err { IfErr result IsUnread }
{
    let (feeds, spare) = open_feeds(rt, alloc, readers, watches)?;
    let (worked, watched) = run_all(rt, alloc, live, scripts, feeds, gate)?;
    let answers = all_answers(alloc, worked)?;
    let ended = end_watches(rt, alloc, watched, &answers)?;
    let report = report_of(rt, alloc, &answers, ended, spare)?;
    Ok(report)
}

// Names the opening, and ends the bucket whatever comes of the race.
fn race_on<N: LiveName + Send + Sync, R: Threads + Wait + Sync, G: Gate>(
    rt: &R,
    alloc: Global,
    opened: Opened,
    scripts: &[Vec<Request>],
    watches: &[(Filters, Options)],
    gate: &G,
) -> Result<Report, KvError>
    requires { opened.opening ≡ N.opening }
    ensures ok { IfOk result
        (λ report. IsRaced N.opening.config (map (λ script. map asked script.items) scripts.now) watches.now
        (map (λ some. some.items) report.replies.items) (map
        (λ seen. map answer_of seen.items) report.seen.items) report.last) }
    ensures err { IfErr result IsUnread }
{
    let (live, readers) = opened.live::<N, R>(rt)?;
    let report = run(rt, alloc, &live, readers, scripts, watches, gate);
    live.close(rt);
    report
}

/// Runs each script on a thread of its own, and follows each watch on one more, from before the first write on; then
/// tells what each of them was answered or handed, and the version that is left. All threads have ended when it
/// answers.
///
/// The gate stands before and after each write and each of the 64 rounds in which a watcher looks for what is new. Where
/// the gate lets it, a watcher sleeps before each round until something is published, or all scripts have ended.
///
/// There are 1 to 16 scripts and at most 32 watches. The configuration is refused first, then the number of scripts
/// (BadConfig), then that of the watches (NoReader). Want of memory, for a thread too, refuses the race; a write that
/// is refused is a reply.
pub fn race<R: Threads + Wait + Sync, G: Gate>(
    rt: &R,
    alloc: Global,
    config: &Config,
    scripts: &[Vec<Request>],
    watches: &[(Filters, Options)],
    gate: &G,
) -> Result<Report, KvError>
    ensures ok { IfOk result
        (λ report. IsRaced config.now (map (λ script. map asked script.items) scripts.now) watches.now
        (map (λ some. some.items) report.replies.items) (map
        (λ seen. map answer_of seen.items) report.seen.items) report.last) }
    ensures refused { IfErr result
        (λ e. RefusesRace e (may_race config.now (length scripts.now) (length watches.now))) }
{
    let opened = open_for(alloc, config, scripts.len(), watches.len())?;
    race_on::<Brand, R, G>(rt, alloc, opened, scripts, watches, gate)
}
