//! A bucket with the ring that makes the version behind a write apart from its own.

ghost use Rattle.std.specs.Prelude.{◌≡◌, IfErr, IfOk, IfSome, List, OnErr, OnOk, map};
ghost use Rattle.kv_durable.specs.Durables.{Accepts};
ghost use Rattle.kv_keys.specs.Outcome.{Refuses};
ghost use Rattle.kv_keys.specs.declared.error.KvError.TheVariants.{NoSuchWatch, OutOfMemory};
ghost use Rattle.kv_model.specs.Acceptance.{accept};
ghost use Rattle.kv_model.specs.Answers.{Compacted, Ended, Refused, Revision, Sealed, Watching};
ghost use Rattle.kv_model.specs.Batches.{IsRefusedAt};
ghost use Rattle.kv_model.specs.Requests.{asked};
ghost use Rattle.kv_model.specs.State.{State, after, may_compact, next_number};
ghost use Rattle.kv_model.specs.declared.call.Call.{Call as ACall};
ghost use Rattle.kv_model.specs.declared.call.Call.TheVariants as calls;
ghost use Rattle.kv_single.specs.Batches.{IsBatch, LeadThere};
ghost use Rattle.kv_single.specs.Held.{Represents};
ghost use Rattle.kv_single.specs.Stepping.{IsStep};
ghost use Rattle.kv_store.specs.Rings.{StandsAlike};

use kv_single::{BatchRefused, Bucket, Filters, KvError, Options, Request, Stopped, Version};
use kv_store::Ring;
use std::marker::Model;

/// A version that is made, and not put in place yet. Contracts see what it stores.
pub struct NextVersion {
    version: Version,
    // It makes the version behind that one.
    ring: Option<Ring>,
}

// Field by field: a derived drop makes each proof longer that owns one.
impl Drop for NextVersion {
    fn drop(self) {
        let Self {
            version: _,
            ring: _,
        } = self;
    }
}

impl Model for NextVersion {
    ghost use Rattle.std.specs.Prelude.{IfSome};
    ghost use Rattle.kv_store.specs.Rings.{StandsAlike};
    ghost use Rattle.kv_store.specs.Stored.{Stored};

    ghost Value = { Stored };

    ghost view = { λ n. n.version };

    ghost invariant = { λ n. IfSome n.ring (StandsAlike n.version) };
}

impl NextVersion {
    /// A version that was made without a ring.
    pub(crate) fn apart(version: Version) -> NextVersion
        ensures { result ≡ version }
    {
        NextVersion {
            version,
            ring: None,
        }
    }

    // The version of a ring.
    fn of(ring: Ring) -> Result<NextVersion, KvError>
        ensures ok { IfOk result (λ next. next ≡ ring) }
        ensures err { IfErr result (λ e. e ≡ OutOfMemory) }
    {
        Ok(NextVersion {
            version: ring.version().snapshot()?,
            ring: Some(ring),
        })
    }

    // The version, and what makes the next one.
    fn into_parts(self) -> (Version, Option<Ring>)
        ensures version { result.0 ≡ self }
        ensures ring { IfSome result.1 (StandsAlike self) }
    {
        let NextVersion { version, ring } = self;
        (version, ring)
    }

    /// The version.
    pub(crate) fn version(&self) -> &Version
        ensures { result.now ≡ self.now }
    {
        &self.version
    }
}

/// A bucket, and, where it has a file, the ring that makes the version behind its next write. Contracts see the bucket.
pub struct Ringed {
    bucket: Bucket,
    ring: Option<Ring>,
}

// Field by field: a derived drop makes each proof longer that owns one.
impl Drop for Ringed {
    fn drop(self) {
        let Self { bucket: _, ring: _ } = self;
    }
}

impl Model for Ringed {
    ghost use Rattle.std.specs.Prelude.{IfSome};
    ghost use Rattle.kv_store.specs.Rings.{StandsAlike};
    ghost use Rattle.kv_single.specs.Held.{Bucketed};

    ghost Value = { Bucketed };

    ghost view = { λ r. r.bucket };

    ghost invariant = { λ r. IfSome r.ring (StandsAlike r.bucket.version) };
}

impl Ringed {
    /// A bucket that no version was made of yet.
    pub(crate) fn new(bucket: Bucket) -> Ringed
        ensures { result ≡ bucket }
    {
        Ringed { bucket, ring: None }
    }

    /// The bucket.
    pub(crate) fn single(&self) -> &Bucket
        ensures { result.now ≡ self.now }
    {
        &self.bucket
    }

    /// The version with one write more, made apart. Where none before it was made so, nodes are copied; else only where somebody
    /// else has the version before.
    pub(crate) fn next(&mut self, request: &Request) -> Result<NextVersion, KvError>
        ensures config { IfOk result (λ next. next.config ≡ self.old.version.config) }
        ensures ok { IfOk result (λ next. Accepts self.old request.now next) }
        ensures refused { IfErr result (λ e. (state : State) → Represents state self.old →
            Refuses e (accept state.config (asked request.now) state.acts)) }
        ensures same { self.new ≡ self.old }
    {
        let alloc = self.bucket.alloc();
        let Some(mut ring) = self.ring.take() else {
            let version = self.bucket.version().apply(alloc, request)?;
            return NextVersion::of(Ring::pair(version));
        };
        match ring.write(alloc, request) {
            Ok(()) => NextVersion::of(ring),
            Err(refusal) => {
                self.ring = Some(ring);
                Err(refusal)
            }
        }
    }

    /// Puts a version in place that some calls in a row lead to.
    pub(crate) fn go_on_through(&mut self, next: NextVersion)
        requires steps { (calls : List ACall) × LeadThere calls self.old (record self.old { version = next }) }
        ensures { self.new ≡ record self.old { version = next } }
    {
        let (version, ring) = next.into_parts();
        self.bucket.go_on_through(version);
        self.ring = ring;
    }

    /// As `Bucket::write`.
    pub(crate) fn write(&mut self, request: &Request) -> Result<u64, KvError>
        ensures ok { IfOk result (λ revision. IsStep self.old (calls.Write request.now) (Revision revision) self.new) }
        ensures refused { IfErr result (λ e. (state : State) → Represents state self.old →
            Refuses e (accept state.config (asked request.now) state.acts)) }
        ensures unchanged { OnErr result (self.new ≡ self.old) }
    {
        self.ring = None;
        self.bucket.write(request)
    }

    /// As `Bucket::write_all`.
    pub(crate) fn write_all(&mut self, requests: &[Request]) -> Result<u64, BatchRefused>
        ensures ok { IfOk result (λ first. IsBatch self.old requests.now first self.new) }
        ensures refused { IfErr result (λ refused. (state : State) → Represents state self.old →
            IsRefusedAt state.config (map asked requests.now) state.acts refused) }
        ensures unchanged { OnErr result (self.new ≡ self.old) }
    {
        self.ring = None;
        self.bucket.write_all(requests)
    }

    /// As `Bucket::seal`.
    pub(crate) fn seal(&mut self) -> Result<(), KvError>
        ensures ok { OnOk result (IsStep self.old calls.Seal Sealed self.new) }
        ensures err { IfErr result (λ e. e ≡ OutOfMemory) }
        ensures unchanged { OnErr result (self.new ≡ self.old) }
    {
        self.ring = None;
        self.bucket.seal()
    }

    /// As `Bucket::compact`.
    pub(crate) fn compact(&mut self, floor: u64) -> Result<(), KvError>
        ensures ok { OnOk result (IsStep self.old (calls.Compact floor) (Compacted floor) self.new) }
        ensures refused { IfErr result
            (λ e. (state : State) → Represents state self.old → Refuses e (may_compact floor state)) }
        ensures unchanged { OnErr result (self.new ≡ self.old) }
    {
        self.ring = None;
        self.bucket.compact(floor)
    }

    /// As `Bucket::watch`.
    pub(crate) fn watch(&mut self, filters: &Filters, options: Options) -> Result<u64, KvError>
        ensures ok { IfOk result (λ number. IsStep self.old (calls.Watch filters.now options) (Watching number) self.new) }
        ensures refused { IfErr result
            (λ e. (state : State) → Represents state self.old → Refuses e (next_number state)) }
        ensures unchanged { OnErr result (self.new ≡ self.old) }
    {
        self.bucket.watch(filters, options)
    }

    /// As `Bucket::pass`.
    pub(crate) fn pass(&mut self, number: u64)
        ensures { (state : State) → Represents state self.old → Represents (after state (calls.Take number)) self.new }
    {
        self.bucket.pass(number);
    }

    /// As `Bucket::stop`.
    pub(crate) fn stop(&mut self, number: u64) -> Result<Stopped, KvError>
        ensures ok { IfOk result (λ stopped. IsStep self.old (calls.Stop number) (Ended stopped.handed) self.new) }
        ensures refused { IfErr result (λ e. (e ≡ NoSuchWatch) × IsStep self.old (calls.Stop number) (Refused e) self.new) }
        ensures unchanged { OnErr result (self.new ≡ self.old) }
    {
        self.bucket.stop(number)
    }
}
