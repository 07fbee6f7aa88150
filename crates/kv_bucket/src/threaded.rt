//! A service with threads: a leader, and a follower for each reader.

ghost use Rattle.std.specs.Prelude.{◌≡◌, ℕ, ◌⊎◌, [], Ok, IfErr, IfOk, OnOk, All, length};
ghost use Rattle.kv_keys.specs.declared.error.KvError.TheVariants.{NoReader, OutOfMemory};
ghost use Rattle.kv_keys.specs.Outcome.{Refuses};
ghost use Rattle.kv_model.specs.Configuration.{Configuration};
ghost use Rattle.kv_bucket.specs.Keeping.{may_open};
ghost use Rattle.kv_bucket.specs.ReaderState.{IsUnread};
ghost use Rattle.kv_bucket.specs.Serving.{AnswersEach, AreNumbered};

use crate::live::{Live, Opened};
use crate::reader::Reader;
use kv_keys::KvError;
use kv_model::Config;
use kv_publish::LiveName;
use std::alloc::{AllocError, Global};
use std::marker::Brand;
use std::sync::Wait;
use std::thread::{Threads, join, map_vec};

/// What runs on a bucket of its own, on threads, by `Live::serve_threaded`: a leader, and for each reader a follower.
/// `R` is the runtime, bounded by what they do with it: `Wait` where they write or sleep. The threads are started by
/// `serve_threaded`, since a method of an impl can't send a bucket of any name to a thread.
pub trait ThreadedService<R>: Sync {
    /// What the leader answers.
    type Answer: Send + Drop;

    /// What each follower answers.
    type Followed: Send + Drop;

    /// On a bucket of this configuration the leader answers this. Without a word of its own, a service promises nothing.
    ghost leads: { Self → Configuration → Self.Answer → Type 0 } = { λ service config answer. Unit {0} };

    /// The follower of this number answers this.
    ghost follows: { Self → Configuration → ℕ → Self.Followed → Type 0 } = { λ service config number answer. Unit {0} };

    /// What the leader does: it writes, say. Once it returns, it is told that no write comes any more (`Live::finish`).
    fn lead<N: LiveName>(&self, rt: &R, live: &Live<N>) -> Self::Answer
        ensures { leads self.now N.opening.config result };

    /// What the follower of this number, from 0, does: it reads to the end, say. Its reader has seen nothing.
    fn follow<N: LiveName>(
        &self,
        rt: &R,
        number: usize,
        live: &Live<N>,
        reader: Reader<N>,
    ) -> Self::Followed
        requires { (reader.seen ≡ []) × (reader.told ≡ []) }
        ensures { follows self.now N.opening.config number result };
}

// A follower's reader, and its number.
struct Seat<N: LiveName> {
    number: usize,
    reader: Reader<N>,
    ghost fresh: { (reader.seen ≡ []) × (reader.told ≡ []) },
}

// Field by field: a derived drop makes each proof longer that owns one.
impl<N: LiveName> Drop for Seat<N> {
    fn drop(self) {
        let Self {
            number: _,
            reader: _,
        } = self;
    }
}

impl<N: LiveName> Seat<N> {
    fn follow<R, S: ThreadedService<R>>(self, rt: &R, service: &S, live: &Live<N>) -> S::Followed
        ensures { S.follows service.now N.opening.config self.number result }
    {
        let Seat { number, reader } = self;
        service.follow(rt, number, live, reader)
    }
}

// The readers, numbered.
fn seats<N: LiveName>(alloc: Global, readers: Vec<Reader<N>>) -> Result<Vec<Seat<N>>, AllocError>
    requires { All (λ reader. (reader.seen ≡ []) × (reader.told ≡ [])) readers.items }
    ensures len { IfOk result (λ seats. length seats.items ≡ length readers.items) }
    ensures numbers { IfOk result (λ seats. AreNumbered (λ seat. seat.number) seats.items) }
{
    let mut seats = Vec::new(alloc);
    for reader in readers {
        let number = seats.len();
        seats.push(Seat { number, reader })?;
    }
    Ok(seats)
}

fn lead<N: LiveName, R, S: ThreadedService<R>>(rt: &R, service: &S, live: &Live<N>) -> S::Answer
    ensures { S.leads service.now N.opening.config result }
{
    let answer = service.lead(rt, live);
    live.finish();
    answer
}

// Each follower, in a thread of its own.
fn follow<N: LiveName + Send + Sync, R: Threads + Wait + Sync, S: ThreadedService<R>>(
    rt: &R,
    service: &S,
    live: &Live<N>,
    seats: Vec<Seat<N>>,
) -> Result<Vec<S::Followed>, AllocError>
    requires { AreNumbered (λ seat. seat.number) seats.items }
    ensures { IfOk result (λ answers. AnswersEach (S.follows service.now N.opening.config) (length seats.items) answers.items) }
{
    map_vec(
        rt,
        seats,
        &|seat: Seat<N>| -> S::Followed
            ensures { S.follows service.entry.now N.opening.config seat.number result }
        { seat.follow::<R, S>(rt, service, live) },
    )
}

// The leader, and beside it the followers. What `join` is handed first runs last where no thread can be made: so the leader,
// whose end lets the followers end, is the second.
fn run_seated<N: LiveName + Send + Sync, R: Threads + Wait + Sync, S: ThreadedService<R>>(
    rt: &R,
    service: &S,
    live: &Live<N>,
    seats: Vec<Seat<N>>,
) -> Result<(S::Answer, Vec<S::Followed>), KvError>
    requires { AreNumbered (λ seat. seat.number) seats.items }
    ensures led { IfOk result (λ r. S.leads service.now N.opening.config r.0) }
    ensures followed { IfOk result
        (λ r. AnswersEach (S.follows service.now N.opening.config) (length seats.items) r.1.items) }
    ensures err { IfErr result (λ e. e ≡ OutOfMemory) }
{
    let (followed, led) = join(
        rt,
        || -> Result<Vec<S::Followed>, AllocError>
            requires { AreNumbered (λ seat. seat.number) seats.items }
            ensures { IfOk result
                (λ answers. AnswersEach (S.follows service.entry.now N.opening.config) (length seats.items) answers.items) }
        { follow::<N, R, S>(rt, service, live, seats) },
        || -> S::Answer
            ensures { S.leads service.entry.now N.opening.config result }
        { lead::<N, R, S>(rt, service, live) },
    );
    Ok((led, followed?))
}

// The leader, and beside it a follower for each reader.
fn run<N: LiveName + Send + Sync, R: Threads + Wait + Sync, S: ThreadedService<R>>(
    rt: &R,
    alloc: Global,
    service: &S,
    live: &Live<N>,
    readers: Vec<Reader<N>>,
) -> Result<(S::Answer, Vec<S::Followed>), KvError>
    requires { All (λ reader. (reader.seen ≡ []) × (reader.told ≡ [])) readers.items }
    ensures led { IfOk result (λ r. S.leads service.now N.opening.config r.0) }
    ensures followed { IfOk result
        (λ r. AnswersEach (S.follows service.now N.opening.config) (length readers.items) r.1.items) }
    ensures err { IfErr result (λ e. e ≡ OutOfMemory) }
{
    let seats = seats(alloc, readers)?;
    run_seated(rt, service, live, seats)
}

// Runs the service on the opening, under its name.
fn serve_on<N: LiveName + Send + Sync, R: Threads + Wait + Sync, S: ThreadedService<R>>(
    rt: &R,
    alloc: Global,
    opened: Opened,
    service: &S,
) -> Result<(S::Answer, Vec<S::Followed>), KvError>
    requires name { opened.opening ≡ N.opening }
    requires new { N.opening.book.began ≡ [] }
    ensures led { IfOk result (λ r. S.leads service.now opened.opening.config r.0) }
    ensures followed { IfOk result
        (λ r. AnswersEach (S.follows service.now opened.opening.config) opened.readers r.1.items) }
    ensures err { IfErr result IsUnread }
{
    let (live, readers) = opened.new_live::<N, R>(rt)?;
    let done = run(rt, alloc, service, &live, readers);
    live.close(rt);
    done
}

impl Live<Brand> {
    /// Opens an empty bucket for 1 to 32 readers, runs the service on it, and closes it: the leader and each reader's
    /// follower on threads of their own. Where no thread can be made, parts run one after another, the leader first. It
    /// answers what the leader answered, and the followers in their order. It is refused as `Live::open` is, or with
    /// `NoReader` where the store gives a reader no place, before the service runs; with `OutOfMemory` also behind that.
    /// Its close waits for readers that are reading, and for nothing else.
    pub fn serve_threaded<R: Threads + Wait + Sync, S: ThreadedService<R>>(
        rt: &R,
        alloc: Global,
        config: &Config,
        readers: usize,
        service: &S,
    ) -> Result<(S::Answer, Vec<S::Followed>), KvError>
        ensures open { OnOk result (may_open config.now readers ≡ Ok config.now) }
        ensures led { IfOk result (λ r. S.leads service.now config.now r.0) }
        ensures followed { IfOk result (λ r. AnswersEach (S.follows service.now config.now) readers r.1.items) }
        ensures refused { IfErr result (λ e. Refuses e (may_open config.now readers) ⊎ (e ≡ NoReader)) }
    {
        let opened = Live::open(alloc, config, readers)?;
        serve_on::<Brand, R, S>(rt, alloc, opened, service)
    }
}
