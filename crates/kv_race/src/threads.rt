//! The threads of a race.

ghost use Rattle.std.specs.Prelude.{◌≡◌, IfOk, IfErr, map};
ghost use Rattle.kv_keys.specs.declared.error.KvError.TheVariants.{OutOfMemory};
ghost use Rattle.kv_model.specs.Requests.{asked};
ghost use Rattle.std.specs.List.{AllZip};
ghost use Rattle.std.specs.Thread.{IsSend, IsSync};
ghost use Rattle.kv_race.specs.Telling.{IsTold, IsFollowed};

use crate::desk::Desk;
use crate::gate::Gate;
use crate::watcher::follow;
use crate::worker::work;
use kv_bucket::{Feed, Live, LiveName, Receipt, Reply};
use kv_keys::KvError;
use kv_model::Request;
use std::alloc::Global;
use std::marker::PhantomData;
use std::snapshot::Snapshot;
use std::sync::Wait;
use std::thread;
use std::thread::{Promise, PromisedHandle, Scope, Threads};

/// What a worker was answered, in order, unless memory ran out before it wrote anything.
pub(crate) type Worked<N> = Result<Vec<Result<(u64, Receipt<N>), KvError>>, KvError>;

/// A feed that was followed, and what it handed out.
#[derive(Drop)]
pub(crate) struct Watched<N: LiveName> {
    pub(crate) feed: Feed<N>,
    pub(crate) seen: Vec<Reply>,
}

// Each request of this script gets its answer.
#[derive(Drop)]
struct Script<N: LiveName>(Snapshot<Vec<Request>>, PhantomData<N>);

impl<N: LiveName> Promise<Worked<N>> for Script<N> {
    ghost kept_by = { λ p worked. IfOk worked (λ answers. AllZip (IsTold N.opening.config)
        (map asked p.0.value.items) answers.items) };
}

// What this feed hands out is seen.
#[derive(Drop)]
struct Followed<N: LiveName>(Snapshot<Feed<N>>);

impl<N: LiveName> Promise<Watched<N>> for Followed<N> {
    ghost kept_by = { λ p watched. IsFollowed p.0.value watched.feed watched.seen.items };
}

// Ends the sleeps of the watchers where it is dropped: no worker writes any more, or the race is given up.
struct Finish<'a, N: LiveName>(&'a Live<N>);

impl<'a, N: LiveName> Drop for Finish<'a, N> {
    fn drop(self) {
        let Self(live) = self;
        live.finish();
    }
}

#[tactic(auto, using(crate::proofs::Writing::told_each))]
fn run_worker<N: LiveName, R: Wait, G: Gate>(
    rt: &R,
    alloc: Global,
    live: &Live<N>,
    worker: usize,
    script: &Vec<Request>,
    gate: &G,
) -> Worked<N>
    ensures { IfOk result (λ answers. AllZip (IsTold N.opening.config) (map asked script.now.items) answers.items) }
{
    let mut desk = Desk::new(live, rt);
    work(alloc, &mut desk, worker, script, gate)
}

#[tactic(auto, using(crate::proofs::Ended::followed))]
fn run_watcher<N: LiveName, R: Wait, G: Gate>(
    rt: &R,
    alloc: Global,
    watcher: usize,
    feed: Feed<N>,
    gate: &G,
) -> Watched<N>
    ensures { IsFollowed feed result.feed result.seen.items }
{
    let mut feed = feed;
    let mut seen = Vec::new(alloc);
    follow(rt, alloc, &mut feed, watcher, &mut seen, gate);
    Watched { feed, seen }
}

// A worker that was started, and what it promised.
type WorkerThread<N> = PromisedHandle<Worked<N>, Script<N>>;

// A watcher that was started, and what it promised.
type WatcherThread<N> = PromisedHandle<Watched<N>, Followed<N>>;

// Starts a worker for each script.
fn start_workers<'s, N: LiveName + Send + Sync + 's, R: Wait + Sync, G: Gate, E>(
    scope: &Scope<'s, E>,
    rt: &'s R,
    alloc: Global,
    live: &'s Live<N>,
    scripts: &'s [Vec<Request>],
    gate: &'s G,
) -> Result<Vec<WorkerThread<N>>, KvError>
    requires { IsSync R.row × IsSync G.row × IsSync N.row × IsSend N.row }
    ensures ok { IfOk result (λ workers. map (λ worker. worker.promise.0.value) workers.items ≡ scripts.now) }
    ensures err { IfErr result (λ e. e ≡ OutOfMemory) }
{
    let mut workers = Vec::new(alloc);
    for worker in 0..scripts.len() {
        let script = &scripts[worker];
        let promise = Script(Snapshot::of(script), PhantomData);
        let Ok(started) = scope.spawn_with(
            promise,
            move || run_worker(rt, alloc, live, worker, script, gate),
        ) else {
            return Err(KvError::OutOfMemory);
        };
        workers.push(started)?;
    }
    Ok(workers)
}

// Starts a watcher for each feed.
fn start_watchers<'s, N: LiveName + Send + Sync + 's, R: Wait + Sync, G: Gate, E>(
    scope: &Scope<'s, E>,
    rt: &'s R,
    alloc: Global,
    feeds: Vec<Feed<N>>,
    gate: &'s G,
) -> Result<Vec<WatcherThread<N>>, KvError>
    requires { IsSync R.row × IsSync G.row × IsSync N.row × IsSend N.row }
    ensures ok { IfOk result (λ watchers. map (λ watcher. watcher.promise.0.value) watchers.items ≡ feeds.items) }
    ensures err { IfErr result (λ e. e ≡ OutOfMemory) }
{
    let mut watchers = Vec::new(alloc);
    for feed in feeds {
        let watcher = watchers.len();
        let promise = Followed(Snapshot::of(&feed));
        let Ok(started) = scope.spawn_with(
            promise,
            move || run_watcher(rt, alloc, watcher, feed, gate),
        ) else {
            return Err(KvError::OutOfMemory);
        };
        watchers.push(started)?;
    }
    Ok(watchers)
}

// Joins the workers, then ends the sleeps of the watchers, and joins these.
fn join_all<N: LiveName, R: Threads>(
    rt: &R,
    workers: Vec<WorkerThread<N>>,
    finish: Finish<'_, N>,
    watchers: Vec<WatcherThread<N>>,
) -> Result<(Vec<Worked<N>>, Vec<Watched<N>>), KvError>
    ensures workers { IfOk result
        (λ done. AllZip
        (λ script worked. IfOk worked
        (λ answers. AllZip (IsTold N.opening.config) (map asked script.items) answers.items))
        (map (λ worker. worker.promise.0.value) workers.items) done.0.items) }
    ensures watchers { IfOk result
        (λ done. AllZip
        (λ feed watched. IsFollowed feed watched.feed watched.seen.items)
        (map (λ watcher. watcher.promise.0.value) watchers.items) done.1.items) }
    ensures err { IfErr result (λ e. e ≡ OutOfMemory) }
{
    let worked = thread::join_promised(rt, workers)?;
    drop(finish);
    let watched = thread::join_promised(rt, watchers)?;
    Ok((worked, watched))
}

/// Runs each script and follows each feed on a thread of its own, and joins them all, also where one could not be
/// started.
pub(crate) fn run_all<N: LiveName + Send + Sync, R: Threads + Wait + Sync, G: Gate>(
    rt: &R,
    alloc: Global,
    live: &Live<N>,
    scripts: &[Vec<Request>],
    feeds: Vec<Feed<N>>,
    gate: &G,
) -> Result<(Vec<Worked<N>>, Vec<Watched<N>>), KvError>
    ensures workers { IfOk result
        (λ done. AllZip
        (λ script worked. IfOk worked
        (λ answers. AllZip (IsTold N.opening.config) (map asked script.items) answers.items)) scripts.now
        done.0.items) }
    ensures watchers { IfOk result
        (λ done. AllZip
        (λ feed watched. IsFollowed feed watched.feed watched.seen.items) feeds.items
        done.1.items) }
    ensures err { IfErr result (λ e. e ≡ OutOfMemory) }
{
    thread::scope(
        thread::scope_env(),
        rt,
        move |scope| -> Result<(Vec<Worked<N>>, Vec<Watched<N>>), KvError>
            requires { IsSync R.row × IsSync G.row × IsSync N.row × IsSend N.row }
            ensures workers { IfOk result
                (λ done. AllZip
                (λ script worked. IfOk worked
                (λ answers. AllZip (IsTold N.opening.config) (map asked script.items) answers.items))
                scripts.entry.now done.0.items) }
            ensures watchers { IfOk result
                (λ done. AllZip
                (λ feed watched. IsFollowed feed watched.feed watched.seen.items)
                feeds.items done.1.items) }
            ensures err { IfErr result (λ e. e ≡ OutOfMemory) }
        {
            let finish = Finish(live);
            let workers = start_workers(scope, rt, alloc, live, scripts, gate)?;
            let watchers = start_watchers(scope, rt, alloc, feeds, gate)?;
            join_all(rt, workers, finish, watchers)
        },
    )
}
