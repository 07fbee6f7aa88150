//! The replies of a race.

ghost use Rattle.std.specs.Prelude.{◌≡◌, IfOk, IfErr, map};
ghost use Rattle.kv_keys.specs.declared.error.KvError.TheVariants.{OutOfMemory};
ghost use Rattle.kv_race.specs.Telling.{reply_of};

use crate::ending::Answers;
use kv_bucket::{LiveName, Receipt};
use kv_keys::KvError;
use std::alloc::Global;

// An answer without its receipt.
fn reply_of<N: LiveName>(answer: &Result<(u64, Receipt<N>), KvError>) -> Result<u64, KvError>
    ensures { result ≡ reply_of answer.now }
{
    match answer {
        Ok((revision, _)) => Ok(*revision),
        Err(error) => Err(*error),
    }
}

// The replies of a worker.
fn replies_of<N: LiveName>(
    alloc: Global,
    answers: &Answers<N>,
) -> Result<Vec<Result<u64, KvError>>, KvError>
    ensures ok { IfOk result (λ replies. replies.items ≡ map reply_of answers.now.items) }
    ensures err { IfErr result (λ e. e ≡ OutOfMemory) }
{
    let mut replies = Vec::new(alloc);
    for n in 0..answers.len() {
        replies.push(reply_of(&answers[n]))?;
    }
    Ok(replies)
}

/// The replies of all workers, without their receipts.
pub(crate) fn all_replies<N: LiveName>(
    alloc: Global,
    answers: &[Answers<N>],
) -> Result<Vec<Vec<Result<u64, KvError>>>, KvError>
    ensures ok { IfOk result
        (λ replies. map (λ some. some.items) replies.items ≡ map (λ some. map reply_of some.items) answers.now) }
    ensures err { IfErr result (λ e. e ≡ OutOfMemory) }
{
    let mut replies = Vec::new(alloc);
    for n in 0..answers.len() {
        replies.push(replies_of(alloc, &answers[n])?)?;
    }
    Ok(replies)
}
