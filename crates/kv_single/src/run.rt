//! Runs of calls.

ghost use Rattle.std.specs.Prelude.{◌≡◌, ◌<◌, ℕ, IfErr, IfOk, OnErr, OnOk, drop, length, map, take};
ghost use Rattle.kv_keys.specs.declared.error.KvError.TheVariants.{OutOfMemory};
ghost use Rattle.kv_model.specs.declared.call.Call.TheVariants.{Write, Seal, Watch, Take, Stop};
ghost use Rattle.kv_single.specs.Replies.{answer_of};
ghost use Rattle.kv_single.specs.Held.{Represents};
ghost use Rattle.kv_model.specs.Runs.{exchanges};
ghost use Rattle.kv_model.specs.State.{State, after};
ghost use Rattle.kv_single.specs.Stepping.{IsRun, IsStep};
ghost use Rattle.kv_model.specs.Told.{TellsEachWatch};

use crate::bucket::Bucket;
use crate::reply::{Reply, refusal};
use kv_keys::{Filters, KvError};
use kv_model::{Call, Options, Request};
use std::alloc::AllocError;

impl Bucket {
    /// Does all that is asked, in order, and adds one reply for each call; a refused call has its refusal as the reply.
    ///
    /// For want of memory it stops before one of the calls, and has then done those before it and added their replies:
    /// the memory of a reply is taken before its call changes anything.
    pub fn run(&mut self, calls: &[Call], replies: &mut Vec<Reply>) -> Result<(), KvError>
        ensures ok { OnOk result (IsRun self.old calls.now replies.old.items replies.new.items self.new) }
        ensures err { IfErr result (λ e. e ≡ OutOfMemory) }
        // Each watch that the calls opened was handed, in order, the first items of what it is given, and where a take
        // of it is answered Empty, all of them.
        ensures told { OnOk result ((state : State) → Represents state self.old →
            TellsEachWatch state
            (exchanges calls.now (map answer_of (drop (length replies.old.items) replies.new.items)))) }
        // Where memory ran out it did the first k calls and no other, and each watch that these opened was told the
        // same.
        ensures told_early { OnErr result ((k : ℕ) × (k < length calls.now) ×
            IsRun self.old (take k calls.now) replies.old.items replies.new.items self.new ×
            ((state : State) → Represents state self.old →
            TellsEachWatch state (exchanges (take k calls.now) (map answer_of
            (drop (length replies.old.items) replies.new.items))))) }
    {
        for call in calls {
            replies.reserve(1)?;
            replies.push_reserved(self.answer(call)?);
        }
        Ok(())
    }

    /// Does one call, and answers it. Only want of memory is no reply, and then nothing has changed.
    fn answer(&mut self, call: &Call) -> Result<Reply, AllocError>
        ensures ok { IfOk result (λ reply. IsStep self.old call.now (answer_of reply) self.new) }
        ensures unchanged { OnErr result (self.new ≡ self.old) }
    {
        match call {
            Call::Write(request) => self.write_reply(request),
            Call::Seal => self.seal_reply(),
            Call::Get(key) => self.get_reply(key),
            Call::GetAt(key, revision) => self.get_at_reply(key, *revision),
            Call::History(key) => self.history_reply(key),
            Call::Keys(filters) => self.keys_reply(filters),
            Call::Status => Ok(self.status_reply()),
            Call::Watch(filters, options) => self.watch_reply(filters, *options),
            Call::Take(number) => self.take_reply(*number),
            Call::Stop(number) => self.stop_reply(*number),
            Call::Compact(floor) => self.compact_reply(*floor),
        }
    }

    fn write_reply(&mut self, request: &Request) -> Result<Reply, AllocError>
        ensures ok { IfOk result (λ reply. IsStep self.old (Write request.now) (answer_of reply) self.new) }
        ensures unchanged { OnErr result (self.new ≡ self.old) }
    {
        match self.write(request) {
            Ok(revision) => Ok(Reply::Revision(revision)),
            Err(error) => refusal(error),
        }
    }

    fn seal_reply(&mut self) -> Result<Reply, AllocError>
        ensures ok { IfOk result (λ reply. IsStep self.old Seal (answer_of reply) self.new) }
        ensures unchanged { OnErr result (self.new ≡ self.old) }
    {
        self.seal().map_err(|_| AllocError)?;
        Ok(Reply::Sealed)
    }

    fn watch_reply(&mut self, filters: &Filters, options: Options) -> Result<Reply, AllocError>
        ensures ok { IfOk result (λ reply. IsStep self.old (Watch filters.now options) (answer_of reply) self.new) }
        ensures unchanged { OnErr result (self.new ≡ self.old) }
    {
        match self.watch(filters, options) {
            Ok(number) => Ok(Reply::Watch(number)),
            Err(error) => refusal(error),
        }
    }

    fn take_reply(&mut self, number: u64) -> Result<Reply, AllocError>
        ensures ok { IfOk result (λ reply. IsStep self.old (Take number) (answer_of reply) self.new) }
        ensures unchanged { OnErr result (self.new ≡ self.old) }
    {
        let reply = self.peek_reply(number)?;
        self.pass(number);
        Ok(reply)
    }

    fn stop_reply(&mut self, number: u64) -> Result<Reply, AllocError>
        ensures ok { IfOk result (λ reply. IsStep self.old (Stop number) (answer_of reply) self.new) }
        ensures unchanged { OnErr result (self.new ≡ self.old) }
    {
        match self.stop(number) {
            Ok(stopped) => Ok(Reply::Stopped(stopped)),
            Err(error) => refusal(error),
        }
    }
}
