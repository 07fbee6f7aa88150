//! A bucket: its version, and the watches that are open.

ghost use Rattle.std.specs.Prelude.{◌≡◌, [], List, length, IfErr, IfOk};
ghost use Rattle.std.specs.List.{position};
ghost use Rattle.kv_keys.specs.Outcome.{Refuses};
ghost use Rattle.kv_model.specs.Acts.{Act};
ghost use Rattle.kv_model.specs.Configuration.{configure};
ghost use Rattle.kv_model.specs.Answers.{Answer};
ghost use Rattle.kv_model.specs.declared.call.Call.{Call as ACall};
ghost use Rattle.kv_model.specs.State.{State, empty, open_count};
ghost use Rattle.kv_store.specs.Standing.{StandsFor};
ghost use Rattle.kv_single.specs.Held.{Represents, has_number};
ghost use Rattle.kv_single.specs.Stepping.{IsStep};

use kv_keys::KvError;
use kv_model::Config;
use kv_store::Version;
use kv_watch::Watch;
use std::alloc::Global;
use std::marker::Model;

/// A bucket: its version, and at most 64 watches that are open. It keeps the allocator that it was opened with.
///
/// Contracts say which states of the model it represents, and that each call is one step of the model.
pub struct Bucket {
    pub(crate) version: Version,
    pub(crate) watches: Vec<Held>,
    pub(crate) opened: u64,
    pub(crate) alloc: Global,
}

// Field by field: a derived drop makes each proof longer that owns one.
impl Drop for Bucket {
    fn drop(self) {
        let Self {
            version: _,
            watches: _,
            opened: _,
            alloc: _,
        } = self;
    }
}

impl Model for Bucket {
    ghost use Rattle.kv_single.specs.Held.{Bucketed};

    ghost Value = { Bucketed };

    ghost view = { λ b. record { version = b.version; watches = b.watches.items; opened = b.opened } };
}

impl Bucket {
    /// A bucket with no writes and no watches. The name is checked before the numbers, and both before any request
    /// for memory.
    pub fn open(alloc: Global, config: &Config) -> Result<Bucket, KvError>
        ensures ok { IfOk result (λ bucket. Represents (empty config.now) bucket) }
        ensures refused { IfErr result (λ e. Refuses e (configure config.now)) }
    {
        let version = Version::empty(alloc, config)?;
        Ok(Bucket {
            version,
            watches: Vec::new(alloc),
            opened: 0,
            alloc,
        })
    }

    /// A bucket with this version, and no watches: for a layer that has made the version again from what it keeps.
    pub fn from_version(alloc: Global, version: Version) -> Bucket
        ensures { (acts : List Act) → StandsFor acts version →
            Represents (record { config = version.config; acts = acts; watches = [] }) result }
    {
        Bucket {
            version,
            watches: Vec::new(alloc),
            opened: 0,
            alloc,
        }
    }

    /// The version with all that was accepted.
    pub fn version(&self) -> &Version
        ensures value { result.now ≡ self.now.version }
        ensures acts { (state : State) → Represents state self.now →
            (result.now.config ≡ state.config) × StandsFor state.acts result.now }
    {
        &self.version
    }

    /// The allocator that it was opened with.
    pub fn alloc(&self) -> Global {
        self.alloc
    }

    /// Puts another version in place of its own, and changes nothing else: for a layer that makes the next version
    /// apart, and puts it in place once it has done with it what may be refused. It asks that this is one step of the
    /// model: what some call does, from every state that the bucket represents.
    pub fn go_on_to(&mut self, next: Version)
        requires step { (call : ACall) × ((answer : Answer) × IsStep self.old call answer (record self.old { version = next })) }
        ensures { self.new ≡ record self.old { version = next } }
    {
        self.version = next;
    }

    /// How many watches are open.
    pub fn watches(&self) -> u64
        ensures value { result ≡ length self.now.watches }
        ensures open { (state : State) → Represents state self.now → result ≡ open_count state.watches }
    {
        self.watches.len() as u64
    }
}

/// A watch that is open, and its number.
pub(crate) struct Held {
    number: u64,
    pub(crate) watch: Watch,
}

// Field by field: a derived drop makes each proof longer that owns one.
impl Drop for Held {
    fn drop(self) {
        let Self {
            number: _,
            watch: _,
        } = self;
    }
}

impl Model for Held {
    ghost use Rattle.kv_single.specs.Held.{Holding};

    ghost Value = { Holding };

    ghost view = { λ held. record { number = held.number; watch = held.watch } };
}

impl Held {
    /// A watch under this number.
    pub(crate) fn new(number: u64, watch: Watch) -> Held
        ensures { result ≡ record { number = number; watch = watch } }
    {
        Held { number, watch }
    }

    pub(crate) fn number(&self) -> u64
        ensures { result ≡ self.now.number }
    {
        self.number
    }
}

/// The index of the watch of a number.
pub(crate) fn index_of(watches: &[Held], number: u64) -> Option<usize>
    ensures { result ≡ position (has_number number) watches.now }
{
    watches.iter().position(|held| held.number() == number)
}
