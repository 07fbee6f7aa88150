//! What is made and not published yet: all that can be refused is done.

ghost use Rattle.std.specs.Prelude.{◌≡◌, IfErr, IfOk};
ghost use Rattle.kv_keys.specs.declared.error.KvError.TheVariants.{OutOfMemory};

use kv_keys::KvError;
use kv_publish::GhostAct;
use kv_store::{Ring, Version};
use std::marker::Model;

// A version that is made and not in place yet: that for the bucket, the same for the readers, and the ring that makes those
// behind it. Contracts see it as that version.
#[derive(Drop)]
pub(crate) struct NextVersion {
    own: Version,
    shown: Version,
    ring: Ring,
}

impl Model for NextVersion {
    ghost use Rattle.std.specs.Prelude.{◌≡◌};
    ghost use Rattle.kv_store.specs.Stored.{Stored};

    ghost Value = { Stored };

    ghost view = { λ v. v.own };

    ghost invariant = { λ v. (v.shown ≡ v.own) × (v.ring ≡ v.own) };
}

impl NextVersion {
    // The version of the ring.
    fn new(ring: Ring) -> Result<NextVersion, KvError>
        ensures ok { IfOk result (λ v. v ≡ ring) }
        ensures err { IfErr result (λ e. e ≡ OutOfMemory) }
    {
        let own = ring.version().snapshot()?;
        let shown = ring.version().snapshot()?;
        Ok(NextVersion { own, shown, ring })
    }

    /// Its parts: the version for the bucket, the same for the readers, and the ring of it.
    pub(crate) fn into_parts(self) -> (Version, Version, Ring)
        ensures { (result.0 ≡ self) × (result.1 ≡ self) × (result.2 ≡ self) }
    {
        let NextVersion { own, shown, ring } = self;
        (own, shown, ring)
    }
}

/// An act that is made and not published yet, by `Keeper::next`, `next_seal` or `next_compaction`. All that can be refused
/// is done: `Keeper::publish` refuses nothing. Let go, it leaves no trace but that the next write copies some nodes more.
/// Contracts see the act, and the version after it.
#[derive(Drop)]
pub struct Prepared {
    ghost_act: GhostAct,
    next: NextVersion,
}

impl Model for Prepared {
    ghost use Rattle.kv_bucket.specs.Keeping.{Ready};

    ghost Value = { Ready };

    ghost view = { λ p. record { act = p.ghost_act; version = p.next } };
}

impl Prepared {
    /// The act that leads to the version of the ring.
    pub(crate) fn new(ghost_act: GhostAct, ring: Ring) -> Result<Prepared, KvError>
        ensures ok { IfOk result (λ p. p ≡ record { act = ghost_act; version = ring }) }
        ensures err { IfErr result (λ e. e ≡ OutOfMemory) }
    {
        let next = NextVersion::new(ring)?;
        Ok(Prepared { ghost_act, next })
    }

    /// The version after the act.
    pub fn version(&self) -> &Version
        ensures { result.now ≡ self.now.version }
    {
        &self.next.own
    }

    /// The act, and what is put in place after it.
    pub(crate) fn into_parts(self) -> (GhostAct, NextVersion)
        ensures { (result.0 ≡ self.act) × (result.1 ≡ self.version) }
    {
        let Prepared { ghost_act, next } = self;
        (ghost_act, next)
    }
}

/// The writes of a batch, made and not published yet, by `Keeper::next_all`. `Keeper::publish_all` refuses nothing.
/// Contracts see the revision of the first, and the version after them.
#[derive(Drop)]
pub struct PreparedBatch {
    first: u64,
    next: NextVersion,
}

impl Model for PreparedBatch {
    ghost use Rattle.kv_bucket.specs.Batches.{ReadyBatch};

    ghost Value = { ReadyBatch };

    ghost view = { λ p. record { first = p.first; version = p.next } };
}

impl PreparedBatch {
    /// The writes that lead to the version, of which the first has this revision.
    pub(crate) fn new(first: u64, version: Version) -> Result<PreparedBatch, KvError>
        ensures ok { IfOk result (λ p. p ≡ record { first = first; version = version }) }
        ensures err { IfErr result (λ e. e ≡ OutOfMemory) }
    {
        let next = NextVersion::new(Ring::new(version))?;
        Ok(PreparedBatch { first, next })
    }

    /// The revision of the first write.
    pub fn first(&self) -> u64
        ensures { result ≡ self.now.first }
    {
        self.first
    }

    /// The version after all of them.
    pub fn version(&self) -> &Version
        ensures { result.now ≡ self.now.version }
    {
        &self.next.own
    }

    /// The first revision, and what is put in place after the writes.
    pub(crate) fn into_parts(self) -> (u64, NextVersion)
        ensures { (result.0 ≡ self.first) × (result.1 ≡ self.version) }
    {
        let PreparedBatch { first, next } = self;
        (first, next)
    }
}
