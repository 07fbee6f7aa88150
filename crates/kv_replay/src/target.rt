//! What a script runs on.

ghost use Rattle.std.specs.Prelude.{◌≡◌, ◌≢◌, ◌⊎◌, IfErr, IfOk, OnErr, OnOk, ⊤, map};
ghost use Rattle.kv_keys.specs.Outcome.{Refuses};
ghost use Rattle.kv_keys.specs.declared.error.KvError.TheVariants.{NoSuchWatch, OutOfMemory};
ghost use Rattle.kv_model.specs.Acceptance.{accept};
ghost use Rattle.kv_model.specs.Answers.{Compacted, Ended, Refused, Revision, Sealed, Watching};
ghost use Rattle.kv_model.specs.Batches.{IsRefusedAt};
ghost use Rattle.kv_model.specs.Requests.{asked};
ghost use Rattle.kv_model.specs.State.{State, after, may_compact, next_number};
ghost use Rattle.kv_model.specs.declared.call.Call.TheVariants.{Compact, Seal, Stop, Take, Watch, Write};
ghost use Rattle.kv_single.specs.Batches.{IsBatch};
ghost use Rattle.kv_single.specs.Held.{Bucketed, Represents};
ghost use Rattle.kv_single.specs.Stepping.{IsStep};

use kv_keys::{Filters, KvError};
use kv_model::{BatchRefused, Options, Request, Stopped};
use kv_single::Bucket;

/// What a script runs on: a bucket, or one that is kept elsewhere too, as in a file.
///
/// Where what keeps it fails, the call is answered OutOfMemory, as one that could not be made: the script ends there, with
/// the lines before it answered. What keeps it tells which of the two it was.
pub trait Target {
    /// The bucket.
    ghost bucket: { Self → Bucketed };

    /// The second is the first, later, and what it was asked to keep is kept.
    ghost goes_on: { Self → Self → Type 0 };

    /// The bucket, for reads.
    fn as_bucket(&self) -> &Bucket
        ensures { result.now ≡ bucket self.now };

    /// Does what is asked, as `Bucket::write`.
    fn write(&mut self, request: &Request) -> Result<u64, KvError>
        ensures same { goes_on self.old self.new }
        ensures ok { IfOk result
            (λ revision. IsStep (bucket self.old) (Write request.now) (Revision revision) (bucket self.new)) }
        ensures refused { IfErr result (λ e. e ≢ OutOfMemory → (state : State) → Represents state (bucket self.old) →
            Refuses e (accept state.config (asked request.now) state.acts)) }
        ensures unchanged { OnErr result (bucket self.new ≡ bucket self.old) };

    /// Does all that is asked in one step, or nothing, as `Bucket::write_all`.
    fn write_all(&mut self, requests: &[Request]) -> Result<u64, BatchRefused>
        ensures same { goes_on self.old self.new }
        ensures ok { IfOk result (λ first. IsBatch (bucket self.old) requests.now first (bucket self.new)) }
        ensures refused { IfErr result (λ refused. refused.error ≢ OutOfMemory → (state : State) →
            Represents state (bucket self.old) →
            IsRefusedAt state.config (map asked requests.now) state.acts refused) }
        ensures unchanged { OnErr result (bucket self.new ≡ bucket self.old) };

    /// Ends writes, as `Bucket::seal`.
    fn seal(&mut self) -> Result<(), KvError>
        ensures same { goes_on self.old self.new }
        ensures ok { OnOk result (IsStep (bucket self.old) Seal Sealed (bucket self.new)) }
        ensures err { IfErr result (λ e. e ≡ OutOfMemory) }
        ensures unchanged { OnErr result (bucket self.new ≡ bucket self.old) };

    /// Compacts to the floor, as `Bucket::compact`.
    fn compact(&mut self, floor: u64) -> Result<(), KvError>
        ensures same { goes_on self.old self.new }
        ensures ok { OnOk result (IsStep (bucket self.old) (Compact floor) (Compacted floor) (bucket self.new)) }
        ensures refused { IfErr result (λ e. e ≢ OutOfMemory → (state : State) → Represents state (bucket self.old) →
            Refuses e (may_compact floor state)) }
        ensures unchanged { OnErr result (bucket self.new ≡ bucket self.old) };

    /// Opens a watch, as `Bucket::watch`.
    fn watch(&mut self, filters: &Filters, options: Options) -> Result<u64, KvError>
        ensures same { goes_on self.old self.new }
        ensures ok { IfOk result
            (λ number. IsStep (bucket self.old) (Watch filters.now options) (Watching number) (bucket self.new)) }
        ensures refused { IfErr result
            (λ e. (state : State) → Represents state (bucket self.old) → Refuses e (next_number state)) }
        ensures unchanged { OnErr result (bucket self.new ≡ bucket self.old) };

    /// Moves a watch on behind its next item, as `Bucket::pass`.
    fn pass(&mut self, number: u64)
        ensures same { goes_on self.old self.new }
        ensures step { (state : State) → Represents state (bucket self.old) →
            Represents (after state (Take number)) (bucket self.new) };

    /// Stops a watch, as `Bucket::stop`.
    fn stop(&mut self, number: u64) -> Result<Stopped, KvError>
        ensures same { goes_on self.old self.new }
        ensures ok { IfOk result
            (λ stopped. IsStep (bucket self.old) (Stop number) (Ended stopped.handed) (bucket self.new)) }
        ensures refused { IfErr result (λ e. (e ≡ NoSuchWatch) ×
            IsStep (bucket self.old) (Stop number) (Refused e) (bucket self.new)) }
        ensures unchanged { OnErr result (bucket self.new ≡ bucket self.old) };

    ghost goes_on_itself: { (a : Self) → goes_on a a };

    ghost goes_on_later: { (a b c : Self) → goes_on a b → goes_on b c → goes_on a c };
}

impl Target for Bucket {
    ghost bucket = { λ b. b };

    ghost goes_on = { λ a b. ⊤ };

    fn as_bucket(&self) -> &Bucket {
        self
    }

    fn write(&mut self, request: &Request) -> Result<u64, KvError> {
        Bucket::write(self, request)
    }

    fn write_all(&mut self, requests: &[Request]) -> Result<u64, BatchRefused> {
        Bucket::write_all(self, requests)
    }

    fn seal(&mut self) -> Result<(), KvError> {
        Bucket::seal(self)
    }

    fn compact(&mut self, floor: u64) -> Result<(), KvError> {
        Bucket::compact(self, floor)
    }

    fn watch(&mut self, filters: &Filters, options: Options) -> Result<u64, KvError> {
        Bucket::watch(self, filters, options)
    }

    fn pass(&mut self, number: u64) {
        Bucket::pass(self, number);
    }

    fn stop(&mut self, number: u64) -> Result<Stopped, KvError> {
        Bucket::stop(self, number)
    }

    ghost goes_on_itself = { λ a. tt };

    ghost goes_on_later = { λ a b c ab bc. tt };
}
