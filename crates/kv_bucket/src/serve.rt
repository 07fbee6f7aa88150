//! A bucket for as long as a service runs: opened before it, closed behind it.

ghost use Rattle.std.specs.Prelude.{◌≡◌, ℕ, ◌<◌, ◌≤◌, ◌⊎◌, [], Ok, IfErr, IfOk, All, length};
ghost use Rattle.kv_keys.specs.declared.error.KvError.TheVariants.{NoReader};
ghost use Rattle.kv_keys.specs.Outcome.{Refuses};
ghost use Rattle.kv_model.specs.Configuration.{Configuration};
ghost use Rattle.kv_bucket.specs.Keeping.{may_open};
ghost use Rattle.kv_bucket.specs.ReaderState.{IsUnread};

use crate::live::{Live, Opened};
use crate::reader::Reader;
use kv_keys::KvError;
use kv_model::Config;
use kv_publish::LiveName;
use std::alloc::Global;
use std::marker::Brand;
use std::sync::Wait;

/// What runs on a bucket of its own, by `Live::serve`, on the thread that calls: it may write, read and watch. Of threads
/// of its own see `ThreadedService`. `R` is the runtime, bounded by what the service does with it: `Wait` where it writes
/// or sleeps.
pub trait Service<R>: Drop {
    /// What it answers in the end.
    type Answer;

    /// On a bucket of this configuration, with so many readers, it answers this. Without a word of its own, a service
    /// promises nothing.
    ghost answers: { Self → Configuration → ℕ → Self.Answer → Type 0 } = { λ service config readers answer. Unit {0} };

    /// Runs on a bucket that was just opened, under a name that nothing else has: neither the bucket nor a reader, a
    /// feed or a receipt of it can get out. The readers, 1 to 32, have seen nothing, and there is nothing to see.
    fn run<N: LiveName>(self, rt: &R, live: &Live<N>, readers: Vec<Reader<N>>) -> Self::Answer
        requires count { (0 < length readers.items) × (length readers.items ≤ 32) }
        requires fresh { All (λ reader. (reader.seen ≡ []) × (reader.told ≡ [])) readers.items }
        ensures { answers self N.opening.config (length readers.items) result };
}

// Runs the service on the opening, under its name.
fn serve_on<N: LiveName, R: Wait, S: Service<R>>(
    rt: &R,
    opened: Opened,
    service: S,
) -> Result<S::Answer, KvError>
    requires name { opened.opening ≡ N.opening }
    requires new { N.opening.book.began ≡ [] }
    ensures ok { IfOk result (λ answer. S.answers service opened.opening.config opened.readers answer) }
    ensures err { IfErr result IsUnread }
{
    let (live, readers) = opened.new_live::<N, R>(rt)?;
    let answer = service.run(rt, &live, readers);
    live.close(rt);
    Ok(answer)
}

impl Live<Brand> {
    /// Opens an empty bucket for 1 to 32 readers, runs the service on it, closes it, and answers what the service
    /// answered. It is refused as `Live::open` is, or with `NoReader` where the store gives a reader no place, before the
    /// service runs, which is dropped then. Its close waits for readers that are reading, and for nothing else.
    pub fn serve<R: Wait, S: Service<R>>(
        rt: &R,
        alloc: Global,
        config: &Config,
        readers: usize,
        service: S,
    ) -> Result<S::Answer, KvError>
        ensures ok { IfOk result
            (λ answer. (may_open config.now readers ≡ Ok config.now) × S.answers service config.now readers answer) }
        ensures refused { IfErr result (λ e. Refuses e (may_open config.now readers) ⊎ (e ≡ NoReader)) }
    {
        let opened = Live::open(alloc, config, readers)?;
        serve_on::<Brand, R, S>(rt, opened, service)
    }
}
