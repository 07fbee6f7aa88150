//! A version and those before it, of which the oldest becomes the next by the writes that it lacks.

ghost use Rattle.std.specs.Prelude.{◌≡◌, ◌∷◌, ◌++◌, ◌⊎◌, if◌then◌else◌, ◌<◌, ◌^◌, List, [], true, false, None, Ok, Err, IfErr, IfOk, IfSome, OnErr, OnOk};
ghost use Rattle.kv_keys.specs.Outcome.{Refuses};
ghost use Rattle.kv_keys.specs.declared.error.KvError.TheVariants.{BadFloor, OutOfMemory};
ghost use Rattle.kv_model.specs.Acceptance.{accept};
ghost use Rattle.kv_model.specs.Acts.{Act, Wrote, Seal, Compact, Write as AWrite};
ghost use Rattle.kv_model.specs.Compaction.{is_bad_floor};
ghost use Rattle.kv_model.specs.Requests.{asked};
ghost use Rattle.kv_store.specs.Rings.{StandsAlike};
ghost use Rattle.kv_store.specs.Standing.{StandsFor};
ghost use Rattle.kv_store.specs.inside.Following.{IsAlike, IsMadeOf, LeadsTo};
ghost use Rattle.kv_store.specs.inside.Next.{HasOneMore};

use crate::key_history::KeyHistory;
use crate::rev::Rev;
use crate::version::Version;
use crate::write::Accepted;
use kv_keys::{Key, KvError};
use kv_model::{Request, Write};
use kv_trie::{Alone, NewPair};
use std::alloc::{AllocError, Global};
use std::marker::Model;
use std::mem;
use std::sync::Arc;

/// The next version of a ring, made apart, and the write that leads to it.
#[derive(Drop)]
pub struct Next {
    pub(crate) version: Version,
    pub(crate) made: Made,
}

impl Next {
    /// The version.
    pub fn version(&self) -> &Version
        ensures { result.now ≡ self.now.version }
    {
        &self.version
    }
}

// An older version, and the write that it lacks to be the next one.
#[derive(Drop)]
struct Older {
    version: Version,
    made: Made,
}

impl Older {
    // The version, with the write that it lacks.
    fn follow(self, alloc: Global) -> Result<Version, AllocError>
        requires { IsMadeOf self.made self.version }
        ensures { IfOk result (λ version. HasOneMore self.made.write self.version version) }
    {
        let Older { mut version, made } = self;
        version.follow(alloc, made)?;
        Ok(version)
    }
}

/// A version that is followed by others, each with one write more. It keeps the two before it, or one. Where nobody else
/// has a snapshot of the oldest any more, the next version is made of that: it takes in the writes that it lacks, whose
/// pairs it shares with the versions that have them, and then the new one, and no node of it is copied. Each of them so has
/// nodes of its own wherever something was written.
///
/// Contracts see what its version stores.
pub struct Ring {
    version: Version,
    // It keeps one version before its own, and no oldest.
    keeps_one: bool,
    // The version before it.
    before: Option<Older>,
    // And the one before that.
    oldest: Option<Older>,
    // An older one that somebody else had when it was to become the next. It is let go once nobody else has it, so no
    // reader is held up by freeing its nodes, on a version that is to become the next meanwhile.
    held: Option<Version>,
}

// Field by field: a derived drop makes each proof longer that owns one.
impl Drop for Ring {
    fn drop(self) {
        let Self {
            version: _,
            keeps_one: _,
            before: _,
            oldest: _,
            held: _,
        } = self;
    }
}

impl Model for Ring {
    ghost use Rattle.std.specs.Prelude.{IfSome};
    ghost use Rattle.kv_store.specs.Stored.{Stored};
    ghost use Rattle.kv_store.specs.inside.Following.{LeadsTo};

    ghost Value = { Stored };

    ghost view = { λ r. r.version };

    ghost invariant = { λ r. IfSome r.before (λ b. LeadsTo b.made b.version r.version)
        × IfSome r.oldest (λ o. IfSome r.before (λ b. LeadsTo o.made o.version b.version)) };
}

impl Ring {
    // The ring of this version, with none before it.
    fn of(version: Version, keeps_one: bool) -> Ring
        ensures { result ≡ version }
    {
        Ring {
            version,
            keeps_one,
            before: None,
            oldest: None,
            held: None,
        }
    }

    /// The ring of this version, which is to keep two before its own: for versions that readers have a while longer.
    pub fn new(version: Version) -> Ring
        ensures { result ≡ version }
    {
        Ring::of(version, false)
    }

    /// The same, where it is to keep one: for versions that nobody else has once there is a next one.
    pub fn pair(version: Version) -> Ring
        ensures { result ≡ version }
    {
        Ring::of(version, true)
    }

    /// Its version.
    pub fn version(&self) -> &Version
        ensures { result.now ≡ self.now }
    {
        &self.version
    }

    // Lets go of the older version that somebody else had, where nobody has it any more.
    fn let_go(&mut self)
        ensures { self.new ≡ self.old }
    {
        let is_free = match &self.held {
            Some(version) => !version.is_shared(),
            None => false,
        };
        if is_free {
            self.held = None;
        }
    }

    // The version before its own, with the write that it lacks: none where there is none, or somebody else has it too.
    fn brought_up(&mut self, alloc: Global) -> Result<Option<Version>, AllocError>
        ensures same { self.new ≡ self.old }
        ensures alike { IfOk result (λ found. IfSome found (λ version. IsAlike self.old version)) }
    {
        let Some(before) = self.before.take() else {
            return Ok(None);
        };
        if before.version.is_shared() {
            self.held = Some(before.version);
            return Ok(None);
        }
        Ok(Some(before.follow(alloc)?))
    }

    // The oldest version, with the two writes that it lacks: none where there is none, or somebody else has it too.
    fn caught_up(&mut self, alloc: Global) -> Result<Option<Version>, AllocError>
        ensures same { self.new ≡ self.old }
        ensures alike { IfOk result (λ found. IfSome found (λ version. IsAlike self.old version)) }
    {
        let Ring {
            version: _,
            keeps_one: _,
            before,
            oldest,
            held,
        } = self;
        let Some(oldest) = oldest.take() else {
            return Ok(None);
        };
        let Some(before) = before else {
            return Ok(None);
        };
        if oldest.version.is_shared() {
            *held = Some(oldest.version);
            return Ok(None);
        }
        let mut version = oldest.follow(alloc)?;
        version.follow(alloc, before.made.share()?)?;
        Ok(Some(version))
    }

    // A version that is like its own, and that nobody else has. Where the oldest can't be brought there its own is
    // copied.
    fn spare(&mut self, alloc: Global) -> Result<Version, AllocError>
        ensures same { self.new ≡ self.old }
        ensures alike { IfOk result (λ version. IsAlike self.old version) }
    {
        let found = if self.keeps_one {
            self.brought_up(alloc)
        } else {
            self.caught_up(alloc)
        };
        match found {
            Ok(Some(version)) => Ok(version),
            _ => self.version.with_own_inner(alloc),
        }
    }

    /// The next version, with the write that is asked for, or why it is refused: as `Version::apply` answers. The ring
    /// has the same version afterwards, so that who makes the next one may still let it go.
    pub fn next(&mut self, alloc: Global, request: &Request) -> Result<Next, KvError>
        ensures config { IfOk result (λ next. next.version.config ≡ self.old.config) }
        ensures ok { IfOk result (λ next. (acts : List Act) → StandsFor acts self.old →
            (w : AWrite)
            × ((accept self.old.config (asked request.now) acts ≡ Ok w) × StandsFor (acts ++ Wrote w ∷ []) next.version)) }
        ensures leads { IfOk result (λ next. LeadsTo next.made self.old next.version) }
        ensures refused { IfErr result (λ e. (acts : List Act) → StandsFor acts self.old →
            Refuses e (accept self.old.config (asked request.now) acts)) }
        ensures same { self.new ≡ self.old }
    {
        let accepted = self.version.accepted(alloc, request)?;
        let made = Made::new(alloc, accepted)?;
        let mut version = self.spare(alloc)?;
        version.follow(alloc, made.share()?)?;
        Ok(Next { version, made })
    }

    /// Goes on to the version that `next` made of its own.
    pub fn go_on_to(&mut self, next: Next)
        requires { LeadsTo next.made self.old next.version }
        ensures { self.new ≡ next.version }
    {
        let Ring {
            version,
            keeps_one: _,
            before,
            oldest,
            held: _,
        } = self;
        let made = next.made;
        let last = mem::replace(version, next.version);
        *oldest = mem::replace(
            before,
            Some(Older {
                version: last,
                made,
            }),
        );
        self.let_go();
    }

    /// Does to its version what `Version::apply` answers in a new one, or changes nothing and answers why.
    pub fn write(&mut self, alloc: Global, request: &Request) -> Result<(), KvError>
        ensures config { OnOk result (self.new.config ≡ self.old.config) }
        ensures ok { OnOk result ((acts : List Act) → StandsFor acts self.old →
            (w : AWrite)
            × ((accept self.old.config (asked request.now) acts ≡ Ok w) × StandsFor (acts ++ Wrote w ∷ []) self.new)) }
        ensures refused { IfErr result (λ e. (acts : List Act) → StandsFor acts self.old →
            Refuses e (accept self.old.config (asked request.now) acts)) }
        ensures unchanged { OnErr result (self.new ≡ self.old) }
    {
        let next = self.next(alloc, request)?;
        self.go_on_to(next);
        Ok(())
    }

    /// Makes a write behind a version, in the ring that is like it, and hands out the ring with the write. Where there is no
    /// ring, as behind a write that was made and let go, one begins with the version behind the write. Where the write is
    /// refused the ring stays.
    pub fn with_write(
        ring: &mut Option<Ring>,
        version: &Version,
        alloc: Global,
        request: &Request,
    ) -> Result<Ring, KvError>
        requires alike { IfSome ring.old (StandsAlike version.now) }
        ensures config { IfOk result (λ made. made.config ≡ version.now.config) }
        ensures ok { IfOk result (λ made. (acts : List Act) → StandsFor acts version.now →
            (w : AWrite)
            × ((accept version.now.config (asked request.now) acts ≡ Ok w) × StandsFor (acts ++ Wrote w ∷ []) made)) }
        ensures refused { IfErr result (λ e. (acts : List Act) → StandsFor acts version.now →
            Refuses e (accept version.now.config (asked request.now) acts)) }
        ensures left { (ring.new ≡ None) ⊎ (ring.new ≡ ring.old) }
    {
        let Some(mut made) = ring.take() else {
            return Ok(Ring::new(version.apply(alloc, request)?));
        };
        match made.write(alloc, request) {
            Ok(()) => Ok(made),
            Err(refusal) => {
                *ring = Some(made);
                Err(refusal)
            }
        }
    }

    /// Seals its version, as `Version::seal` does, and lets go of those before it.
    pub fn seal(&mut self, alloc: Global) -> Result<(), KvError>
        ensures ok { OnOk result (self.new ≡ record self.old { sealed = true }) }
        ensures stands { OnOk result
            ((acts : List Act) → StandsFor acts self.old → StandsFor (acts ++ Seal ∷ []) self.new) }
        ensures err { IfErr result (λ e. e ≡ OutOfMemory) }
        ensures unchanged { OnErr result (self.new ≡ self.old) }
    {
        *self = Ring::of(self.version.seal(alloc)?, self.keeps_one);
        Ok(())
    }

    /// Compacts its version, as `Version::compact` does, and lets go of those before it, which have all that goes.
    pub fn compact(&mut self, alloc: Global, floor: u64) -> Result<(), KvError>
        ensures config { OnOk result (self.new.config ≡ self.old.config) }
        ensures ok { OnOk result ((acts : List Act) → StandsFor acts self.old →
            (is_bad_floor floor acts ≡ false) × StandsFor (acts ++ Compact floor ∷ []) self.new) }
        ensures refused { IfErr result (λ e. (acts : List Act) → StandsFor acts self.old →
            Refuses e (if is_bad_floor floor acts then Err BadFloor else Ok floor)) }
        ensures unchanged { OnErr result (self.new ≡ self.old) }
    {
        *self = Ring::of(self.version.compact(alloc, floor)?, self.keeps_one);
        Ok(())
    }
}

/// A write that is made: the pairs that are put of its key and of its revision, and how many entries there are then. The
/// versions that take it in share the pairs.
pub(crate) struct Made {
    of_key: Arc<(Key, KeyHistory)>,
    of_revision: Arc<(Rev, Write)>,
    values: u64,
}

// Field by field: a derived drop makes each proof longer that owns one.
impl Drop for Made {
    fn drop(self) {
        let Self {
            of_key: _,
            of_revision: _,
            values: _,
        } = self;
    }
}

impl Model for Made {
    ghost use Rattle.std.specs.Prelude.{◌≡◌};
    ghost use Rattle.std.specs.Arc.{arc_value};
    ghost use Rattle.kv_store.specs.inside.Following.{Made};

    ghost Value = { Made };

    ghost view = { λ m. record {
      write = (arc_value m.of_revision).1;
      kept = (arc_value m.of_key).1.revisions;
      values = m.values;
    } };

    ghost invariant = { λ m. ((arc_value m.of_revision).0 ≡ (arc_value m.of_revision).1.revision)
        × (((arc_value m.of_key).0 ≡ (arc_value m.of_revision).1.key)
        × ((arc_value m.of_key).1.last ≡ (arc_value m.of_revision).1)) };
}

impl Made {
    /// What is made of an accepted write.
    pub fn new(alloc: Global, accepted: Accepted) -> Result<Made, AllocError>
        requires { accepted.write.revision < 2 ^ 32 }
        ensures { IfOk result (λ made. made ≡ record {
          write = accepted.write;
          kept = accepted.kept.items;
          values = accepted.values;
        }) }
    {
        let values = accepted.values;
        let (of_key, of_revision) = accepted.pairs(alloc)?;
        Ok(Made {
            of_key: Arc::new(alloc, of_key)?,
            of_revision,
            values,
        })
    }

    /// The same, for one version more.
    pub fn share(&self) -> Result<Made, AllocError>
        ensures { IfOk result (λ made. made ≡ self.now) }
    {
        Ok(Made {
            of_key: Arc::try_clone(&self.of_key)?,
            of_revision: Arc::try_clone(&self.of_revision)?,
            values: self.values,
        })
    }

    // Puts it into a version, or changes nothing.
    fn put_into(self, alloc: Global, version: &mut Version) -> Result<(), AllocError>
        requires { IsMadeOf self version.old }
        ensures ok { OnOk result (HasOneMore self.write version.old version.new) }
        ensures unchanged { OnErr result (version.new ≡ version.old) }
    {
        let Made {
            of_key,
            of_revision,
            values,
        } = self;
        version.put(
            alloc,
            NewPair::Shared(of_key),
            of_revision,
            values,
            &mut Alone,
        )
    }
}

impl Version {
    /// Adds a write that was made of an equal version, or changes nothing. Neither its key nor its value is copied.
    pub(crate) fn follow(&mut self, alloc: Global, made: Made) -> Result<(), AllocError>
        requires { IsMadeOf made self.old }
        ensures ok { OnOk result (HasOneMore made.write self.old self.new) }
        ensures unchanged { OnErr result (self.new ≡ self.old) }
    {
        made.put_into(alloc, self)
    }
}
