//! Workers: threads that write.

ghost use Rattle.std.specs.Prelude.{◌≡◌, ℕ, ◌<◌, ◌^◌, Result, IfOk, IfErr, map, length};
ghost use Rattle.kv_keys.specs.declared.error.KvError.{KvError};
ghost use Rattle.kv_keys.specs.declared.error.KvError.TheVariants.{OutOfMemory};
ghost use Rattle.kv_model.specs.Requests.{Asked, asked};
ghost use Rattle.kv_race.specs.Working.{Works};

use crate::gate::{Gate, Who};
use kv_keys::KvError;
use kv_model::Request;
use std::alloc::Global;

/// What a worker writes to.
pub(crate) trait Writes {
    /// What tells of a write.
    type Receipt: Drop;

    /// To a request it may give this answer, and is this then.
    ghost may_answer: { Self → Asked → Result (ℕ × Self.Receipt) KvError → Self → Type 0 };

    /// Does what is asked, and answers the revision of the write and what tells of it.
    fn write_told(&mut self, request: &Request) -> Result<(u64, Self::Receipt), KvError>
        ensures { may_answer self.old (asked request.now) result self.new };
}

#[tactic(auto, using(crate::proofs::Writing::works_next))]
/// Writes all that is asked for, in order, each request once, with the gate before and after each. A refused write is
/// an answer as others are. Only want of memory for the list of the answers is refused, before anything is written.
pub(crate) fn work<W: Writes, G: Gate>(
    alloc: Global,
    desk: &mut W,
    worker: usize,
    requests: &[Request],
    gate: &G,
) -> Result<Vec<Result<(u64, W::Receipt), KvError>>, KvError>
    ensures ok { IfOk result (λ answers. Works W.may_answer desk.old (map asked requests.now) answers.items desk.new) }
    ensures err { IfErr result (λ e. (e ≡ OutOfMemory) × (desk.new ≡ desk.old)) }
{
    let mut answers = Vec::new(alloc);
    answers.reserve(requests.len())?;
    for n in 0..requests.len() {
        gate.before(Who::Worker(worker), n as u64);
        answers.push_reserved(desk.write_told(&requests[n]));
        gate.after(Who::Worker(worker), n as u64);
    }
    Ok(answers)
}
