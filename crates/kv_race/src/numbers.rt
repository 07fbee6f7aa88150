//! Whether the replies of a race have the revisions of its writes, each once.

ghost use Rattle.std.specs.Prelude.{◌≡◌, ◌++◌, ◌∷◌, [], true, IfOk, IfErr, OnOk, length, map};
ghost use Rattle.std.specs.List.{filter_map, range_with_len};
ghost use Rattle.std.specs.Result.{result_ok};
ghost use Rattle.kv_keys.specs.declared.error.KvError.TheVariants.{OutOfMemory};
ghost use Rattle.kv_race.specs.Racing.{AreNumbered, revisions_in};

use crate::never::never;
use kv_keys::KvError;
use std::alloc::Global;
use std::sync::Wait;

// Adds the revision that was answered, if one was.
fn push_revision(revisions: &mut Vec<u64>, reply: &Result<u64, KvError>) -> Result<(), KvError>
    ensures ok { OnOk result (revisions.new.items ≡ revisions.old.items ++ filter_map result_ok (reply.now ∷ [])) }
    ensures err { IfErr result (λ e. e ≡ OutOfMemory) }
{
    if let Ok(revision) = reply {
        revisions.push(*revision)?;
    }
    Ok(())
}

// Adds the revisions that a worker was answered.
fn push_revisions(
    revisions: &mut Vec<u64>,
    replies: &Vec<Result<u64, KvError>>,
) -> Result<(), KvError>
    ensures ok { OnOk result (revisions.new.items ≡ revisions.old.items ++ filter_map result_ok replies.now.items) }
    ensures err { IfErr result (λ e. e ≡ OutOfMemory) }
{
    for n in 0..replies.len() {
        push_revision(revisions, &replies[n])?;
    }
    Ok(())
}

// The revisions that all workers were answered.
#[tactic(auto, using(crate::proofs::Numbering::all_workers))]
fn revisions_of(alloc: Global, replies: &[Vec<Result<u64, KvError>>]) -> Result<Vec<u64>, KvError>
    ensures ok { IfOk result (λ revisions. revisions.items ≡ revisions_in (map (λ some. some.items) replies.now)) }
    ensures err { IfErr result (λ e. e ≡ OutOfMemory) }
{
    let mut revisions = Vec::new(alloc);
    for n in 0..replies.len() {
        push_revisions(&mut revisions, &replies[n])?;
    }
    Ok(revisions)
}

// Whether these are the numbers from 1 on.
fn count_up(numbers: &[u64]) -> bool
    ensures { result ≡ true → numbers.now ≡ range_with_len 1 (length numbers.now) }
{
    for n in 0..numbers.len() {
        if numbers[n] != n as u64 + 1 {
            return false;
        }
    }
    true
}

/// Looks whether the revisions that were answered are those of so many writes, each once. They always are; where they were
/// not, this would wait for ever.
pub(crate) fn check_numbers<R: Wait>(
    rt: &R,
    alloc: Global,
    replies: &[Vec<Result<u64, KvError>>],
    writes: u64,
) -> Result<(), KvError>
    ensures ok { OnOk result (AreNumbered (map (λ some. some.items) replies.now) writes) }
    ensures err { IfErr result (λ e. e ≡ OutOfMemory) }
{
    let mut revisions = revisions_of(alloc, replies)?;
    revisions.sort_unstable();
    if revisions.len() as u64 == writes && count_up(&revisions) {
        Ok(())
    } else {
        never(rt)
    }
}
