//! What is done with a live bucket and through a guard of its lock, line by line. A call that is refused changes
//! nothing there: neither its version, nor its watches, nor what each of them is given next.

use crate::answers::{Answer, Differs, done, first, in_turn, number, stopped, taken};
use crate::observed::{look, look_through};
use kv_bucket::{Filters, Keeper, Key, KvError, Live, LiveName, Request};
use kv_test_tools::{LATEST, delete, once_more};
use std::alloc::Global;
use std::sync::Wait;

/// What is asked in a batch.
#[derive(Clone, Copy)]
pub enum Ask {
    /// The put of a value under this key.
    Put(&'static str),
    /// The same, where nothing is there.
    Create(&'static str),
    /// With the last revision of the key that it asks for.
    Delete(&'static str, u64),
}

/// What is done with a live bucket.
#[derive(Clone, Copy)]
pub enum Call {
    /// The put of a value under this key.
    Put(&'static str),
    /// A batch.
    WriteAll(&'static [Ask]),
    /// A seal.
    Seal,
    /// A compaction up to this floor.
    Compact(u64),
    /// On a guard of its own.
    Guarded(Step),
}

/// What is done through a guard.
#[derive(Clone, Copy)]
pub enum Step {
    /// The put of a value under this key.
    Put(&'static str),
    /// A batch.
    WriteAll(&'static [Ask]),
    /// The delete of this key.
    Delete(&'static str),
    /// A seal.
    Seal,
    /// Opens a watch of all keys.
    Watch,
    /// Takes from the watch of this number.
    Take(u64),
    /// Stops the watch of this number.
    Stop(u64),
    /// A compaction up to this floor.
    Compact(u64),
}

/// The request of a put under this key. BadKey; OutOfMemory.
pub fn put_request(alloc: Global, key: &str) -> Result<Request, KvError> {
    kv_test_tools::put(alloc, key, "1")
}

fn request(alloc: Global, ask: Ask) -> Result<Request, KvError> {
    match ask {
        Ask::Put(key) => put_request(alloc, key),
        Ask::Create(key) => Ok(Request::Create {
            key: Key::parse(alloc, key)?,
            value: Vec::new(alloc),
        }),
        Ask::Delete(key, last) => delete(alloc, key, Some(last)),
    }
}

/// The requests of a batch. BadKey; OutOfMemory.
pub fn requests(alloc: Global, asks: &[Ask]) -> Result<Vec<Request>, KvError> {
    let mut requests = Vec::new(alloc);
    for ask in asks {
        requests.push(request(alloc, *ask)?)?;
    }
    Ok(requests)
}

fn write_all<N: LiveName, R: Wait>(rt: &R, alloc: Global, live: &Live<N>, asks: &[Ask]) -> Answer {
    match requests(alloc, asks) {
        Ok(requests) => first(live.write_all(rt, &requests)),
        Err(error) => Answer::Refused(error),
    }
}

fn keep_all<N: LiveName, R: Wait>(
    rt: &R,
    alloc: Global,
    keeper: &mut Keeper<N>,
    asks: &[Ask],
) -> Answer {
    match requests(alloc, asks) {
        Ok(requests) => first(keeper.write_all(rt, &requests)),
        Err(error) => Answer::Refused(error),
    }
}

fn put<N: LiveName, R: Wait>(
    rt: &R,
    alloc: Global,
    live: &Live<N>,
    key: &str,
) -> Result<u64, KvError> {
    let request = put_request(alloc, key)?;
    live.write(rt, &request)
}

fn keep<N: LiveName, R: Wait>(
    rt: &R,
    keeper: &mut Keeper<N>,
    request: Result<Request, KvError>,
) -> Result<u64, KvError> {
    keeper.write(rt, &request?)
}

fn watch<N: LiveName>(alloc: Global, keeper: &mut Keeper<N>) -> Result<u64, KvError> {
    let filters = Filters::parse(alloc, ">")?;
    keeper.watch(&filters, LATEST)
}

fn take<N: LiveName>(keeper: &mut Keeper<N>, number: u64) -> Answer {
    let next = taken(keeper.peek(number));
    in_turn(next, taken(keeper.take(number)))
}

fn step_once<N: LiveName, R: Wait>(
    rt: &R,
    alloc: Global,
    keeper: &mut Keeper<N>,
    step: Step,
) -> Answer {
    match step {
        Step::Put(key) => number(keep(rt, keeper, put_request(alloc, key))),
        Step::WriteAll(asks) => keep_all(rt, alloc, keeper, asks),
        Step::Delete(key) => number(keep(rt, keeper, delete(alloc, key, None))),
        Step::Seal => done(keeper.seal(rt)),
        Step::Watch => number(watch(alloc, keeper)),
        Step::Take(number) => take(keeper, number),
        Step::Stop(number) => stopped(keeper.stop(number)),
        Step::Compact(floor) => done(keeper.compact(rt, floor)),
    }
}

fn call_once<N: LiveName, R: Wait>(rt: &R, alloc: Global, live: &Live<N>, call: Call) -> Answer {
    match call {
        Call::Put(key) => number(put(rt, alloc, live, key)),
        Call::WriteAll(asks) => write_all(rt, alloc, live, asks),
        Call::Seal => done(live.seal(rt)),
        Call::Compact(floor) => done(live.compact(rt, floor)),
        Call::Guarded(step) => guarded_once(rt, alloc, live, step),
    }
}

fn guarded_once<N: LiveName, R: Wait>(rt: &R, alloc: Global, live: &Live<N>, step: Step) -> Answer {
    let mut keeper = live.lock(rt);
    step_once(rt, alloc, &mut *keeper, step)
}

fn step_made<N: LiveName, R: Wait>(
    rt: &R,
    alloc: Global,
    keeper: &mut Keeper<N>,
    step: Step,
) -> Answer {
    let before = look_through(keeper);
    once_more!(
        step_once(rt, alloc, keeper, step),
        if !look_through(keeper).is_as(&before) {
            return Answer::Changed;
        }
    )
}

/// Does all this through one guard, in turn, up to the first line that differs.
pub fn steps<N: LiveName, R: Wait>(
    rt: &R,
    alloc: Global,
    keeper: &mut Keeper<N>,
    lines: &[(Step, Answer)],
) -> Option<Differs> {
    for line in 0..lines.len() {
        let (step, wanted) = lines[line];
        let answer = step_made(rt, alloc, keeper, step);
        if answer != wanted {
            return Some(Differs { line, answer });
        }
    }
    None
}

fn call_made<N: LiveName, R: Wait>(rt: &R, alloc: Global, live: &Live<N>, call: Call) -> Answer {
    let before = look(rt, live);
    once_more!(
        call_once(rt, alloc, live, call),
        if !look(rt, live).is_as(&before) {
            return Answer::Changed;
        }
    )
}

/// Does all this with a live bucket, in turn, up to the first line that differs.
pub fn calls<N: LiveName, R: Wait>(
    rt: &R,
    alloc: Global,
    live: &Live<N>,
    lines: &[(Call, Answer)],
) -> Option<Differs> {
    for line in 0..lines.len() {
        let (call, wanted) = lines[line];
        let answer = call_made(rt, alloc, live, call);
        if answer != wanted {
            return Some(Differs { line, answer });
        }
    }
    None
}
