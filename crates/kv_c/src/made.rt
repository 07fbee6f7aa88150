//! Calls on a bucket with a file, in two steps: they are made, and when the shell has written what that lends, settled.

ghost use Rattle.std.specs.Prelude.{◌≡◌, ◌<◌, ◌^◌, List, Some, None, Err, false, true, [], drop, length, take, IfErr, IfOk, IsErrOf, OnErr, OnOk};
ghost use Rattle.kv_single.specs.Batches.{LeadThere};
ghost use Rattle.kv_model.specs.declared.call.Call.{Call as ACall};

use crate::filed::{Filed, Syncs};
use crate::more::ready_more;
use crate::ringed::{NextVersion, Ringed};
use kv_durable::DurableError;
use kv_single::{Request, Version};
use std::alloc::{AllocError, Global};
use std::marker::Model;

// So many bytes may wait when a write is made behind them.
const MOST_WAITING: usize = 16_777_216;

/// What a call leads to, the frames that tell it, and the number that it answers.
#[derive(Drop)]
pub struct Ready {
    pub next: NextVersion,
    pub frames: Vec<u8>,
    pub told: u64,
}

/// What the shell is lent, and when it syncs.
#[repr(C)]
#[derive(Drop)]
pub struct Lent {
    /// The number of the file.
    pub number: u64,
    /// Where the bytes go.
    pub at: u64,
    /// How many there are.
    pub size: usize,
    /// How many of them are copied.
    pub count: usize,
    /// It syncs before it writes.
    pub before: bool,
    /// It syncs when it has written.
    pub behind: bool,
}

// The bytes from this one on.
fn behind(bytes: &[u8], from: usize) -> &[u8]
    ensures { result.now ≡ drop from bytes.now }
{
    if from > bytes.len() {
        return &[];
    }
    &bytes[from..]
}

// Copies the first bytes, as many as there is room for.
fn copy_front(room: &mut [u8], bytes: &[u8]) -> usize
    ensures copied { take result room.new ≡ take (length room.old) bytes.now }
    ensures count { result ≡ length (take (length room.old) bytes.now) }
{
    let count = bytes.len().min(room.len());
    let (front, _) = room.split_at_mut(count);
    front.copy_from_slice(&bytes[..count]);
    count
}

/// A call that was made on a bucket with a file, and waits for the shell. The bucket is as it was before the call.
pub struct Made {
    bucket: Ringed,
    // What the call leads to, if it leads to anything else.
    next: Option<NextVersion>,
    // The journal with the frames of the call.
    filed: Filed,
    // The file whose place that one takes, where the call is a checkpoint.
    former: Option<Filed>,
    // What the shell writes, and where.
    bytes: Vec<u8>,
    at: u64,
    syncs: Syncs,
    told: u64,
    // Whether nothing was loose before the call, and the shell syncs behind it: then writes can join it.
    joins: bool,
}

impl Drop for Made {
    fn drop(self) {
        let Self {
            bucket: _,
            next: _,
            filed: _,
            former: _,
            bytes: _,
            at: _,
            syncs: _,
            told: _,
            joins: _,
        } = self;
    }
}

impl Model for Made {
    ghost use Rattle.kv_c.specs.Waiting.{Waiting, Leads};

    ghost Value = { Waiting };

    ghost view = { λ m. record {
      bucket = m.bucket;
      next = m.next;
      filed = m.filed;
      former = m.former;
      bytes = m.bytes.items;
      at = m.at;
      syncs = m.syncs;
      told = m.told;
      joins = m.joins;
    } };

    ghost invariant = { λ m. Leads m.bucket m.next };
}

impl Made {
    ghost use Rattle.kv_c.specs.Chaining.{Joins, MakesMore, takes_more};
    ghost use Rattle.kv_c.specs.Waiting.{Leads, bucket_behind};
    ghost use Rattle.kv_durable.specs.Durables.{IsRefusal};
    ghost use Rattle.kv_durable.specs.declared.error.DurableError.TheVariants.{FileFault, Refused};
    ghost use Rattle.kv_keys.specs.Outcome.{Refuses};
    ghost use Rattle.kv_keys.specs.declared.error.KvError.{KvError as AnError};
    ghost use Rattle.kv_model.specs.Acceptance.{accept};
    ghost use Rattle.kv_model.specs.Requests.{asked};
    ghost use Rattle.kv_model.specs.State.{State};
    ghost use Rattle.kv_single.specs.Held.{Represents};
    ghost use Rattle.kv_c.specs.Making.{IsGivenUp, IsLentFrom, IsSettled, MakesEnd, MakesSync, WaitsFor};
    ghost use Rattle.kv_durable.specs.Journals.{IsFrameOf};
    ghost use Rattle.kv_journal.specs.Records.{closed};
    ghost use Rattle.kv_c.specs.Filing.{is_stopped};

    /// A call on a bucket with this file.
    pub(crate) fn of(bucket: Ringed, filed: Filed, ready: Ready) -> Made
        requires leads { (calls : List ACall) × LeadThere calls bucket (record bucket { version = ready.next }) }
        requires goes { is_stopped filed ≡ false }
        requires short { length ready.frames.items < 2 ^ 33 }
        ensures { WaitsFor ready bucket filed result }
    {
        let Ready { next, frames, told } = ready;
        let mut filed = filed;
        let at = filed.journal.offset();
        let was_clean = filed.is_clean();
        let syncs = filed.add(&frames);
        Made {
            bucket,
            next: Some(next),
            filed,
            former: None,
            bytes: frames,
            at,
            syncs,
            told,
            joins: was_clean && syncs.behind,
        }
    }

    /// The bucket as the call leaves it, with its file, and the number that the call answers: the shell has written what
    /// it was lent.
    pub(crate) fn settle(self) -> (Ringed, Filed, u64)
        ensures { IsSettled self result.0 result.1 × (result.2 ≡ self.told) }
    {
        let Made {
            bucket,
            next,
            filed,
            former: _,
            bytes: _,
            at: _,
            syncs: _,
            told,
            joins: _,
        } = self;
        let mut bucket = bucket;
        if let Some(next) = next {
            bucket.go_on_through(next);
        }
        (bucket, filed, told)
    }

    /// The bucket as it was before the call, with its file, to which nothing more is added: the shell has failed.
    pub(crate) fn give_up(self) -> (Ringed, Filed)
        ensures { IsGivenUp self result.0 result.1 }
    {
        let Made {
            bucket,
            next: _,
            filed,
            former: _,
            bytes: _,
            at: _,
            syncs: _,
            told: _,
            joins: _,
        } = self;
        let mut filed = filed;
        filed.has_failed = true;
        (bucket, filed)
    }

    /// A sync of the file.
    pub(crate) fn synced(alloc: Global, bucket: Ringed, filed: Filed) -> Made
        requires { is_stopped filed ≡ false }
        ensures { MakesSync bucket filed result }
    {
        let mut filed = filed;
        let at = filed.journal.offset();
        filed.flush();
        Made {
            bucket,
            next: None,
            filed,
            former: None,
            bytes: Vec::new(alloc),
            at,
            syncs: Syncs {
                before: false,
                behind: true,
            },
            told: 0,
            joins: false,
        }
    }

    /// A clean end of the file, which this frame tells.
    pub(crate) fn ended(bucket: Ringed, filed: Filed, frame: Vec<u8>) -> Made
        requires goes { is_stopped filed ≡ false }
        requires short { length frame.items < 2 ^ 33 }
        requires frame { IsFrameOf filed.journal.value (closed bucket.version.last) frame.items }
        ensures { MakesEnd bucket filed result }
    {
        let mut filed = filed;
        let at = filed.journal.offset();
        let syncs = filed.add(&frame);
        filed.flush();
        Made {
            bucket,
            next: None,
            filed,
            former: None,
            bytes: frame,
            at,
            syncs: Syncs {
                before: syncs.before,
                behind: true,
            },
            told: 0,
            joins: false,
        }
    }

    /// The opening of a bucket, whose new file begins with these bytes; an old one is cut off where its journal ends.
    pub(crate) fn opened(bucket: Ringed, filed: Filed, first: Vec<u8>) -> Made
        ensures parts { (result.bucket ≡ bucket) × (result.next ≡ None) × (result.filed ≡ filed) × (result.former ≡ None)
            × (result.bytes ≡ first.items) × (result.syncs.behind ≡ true) }
        ensures old { first.items ≡ [] → result.at ≡ filed.journal.value.appender.offset }
        ensures new { (first.items ≡ [] → ⊥) → result.at ≡ 0 }
    {
        let at = if first.is_empty() {
            filed.journal.offset()
        } else {
            0
        };
        Made {
            bucket,
            next: None,
            filed,
            former: None,
            bytes: first,
            at,
            syncs: Syncs {
                before: false,
                behind: true,
            },
            told: 0,
            joins: false,
        }
    }

    /// A checkpoint: this file, which has these bytes, takes the place of the former one.
    pub(crate) fn replacing(bucket: Ringed, former: Filed, filed: Filed, bytes: Vec<u8>) -> Made
        ensures parts { (result.bucket ≡ bucket) × (result.next ≡ None) × (result.filed ≡ filed) × (result.former ≡ Some former)
            × (result.bytes ≡ bytes.items) × (result.at ≡ 0) × (result.syncs.behind ≡ true) }
    {
        Made {
            bucket,
            next: None,
            filed,
            former: Some(former),
            bytes,
            at: 0,
            syncs: Syncs {
                before: false,
                behind: true,
            },
            told: 0,
            joins: false,
        }
    }

    /// The bucket with its former file, where the call is a checkpoint.
    pub(crate) fn keep(self) -> Result<(Ringed, Filed), Made>
        ensures ok { IfOk result (λ p. (p.0 ≡ self.bucket) × (self.former ≡ Some p.1)) }
        ensures err { IfErr result (λ made. (made ≡ self) × (self.former ≡ None)) }
    {
        let Made {
            bucket,
            next,
            filed,
            former,
            bytes,
            at,
            syncs,
            told,
            joins,
        } = self;
        match former {
            Some(former) => Ok((bucket, former)),
            None => Err(Made {
                bucket,
                next,
                filed,
                former: None,
                bytes,
                at,
                syncs,
                told,
                joins,
            }),
        }
    }

    /// Whether writes can be made behind what waits.
    pub(crate) fn takes_more(&self) -> bool
        ensures { result ≡ takes_more self.now }
    {
        self.joins && self.bytes.len() <= MOST_WAITING
    }

    // The version behind what waits.
    fn version_behind(&self) -> &Version
        ensures { result.now ≡ (bucket_behind self.now).version }
    {
        match &self.next {
            Some(next) => next.version(),
            None => self.bucket.single().version(),
        }
    }

    // Adds what is ready behind what waits.
    fn join(&mut self, ready: Ready) -> Result<(), AllocError>
        requires leads { Leads self.old.bucket (Some ready.next) }
        requires goes { is_stopped self.old.filed ≡ false }
        requires short { length ready.frames.items < 2 ^ 33 }
        ensures ok { OnOk result (Joins ready self.old self.new) }
        ensures err { OnErr result (self.new ≡ self.old) }
    {
        let Ready {
            next,
            frames,
            told: _,
        } = ready;
        self.bytes.extend_from_slice(&frames)?;
        self.filed.add(&frames);
        self.next = Some(next);
        self.syncs = Syncs {
            before: self.syncs.before,
            behind: true,
        };
        Ok(())
    }

    /// Makes a write behind what waits, and tells its revision. All that waits is settled or given up at once.
    pub(crate) fn make_behind(&mut self, request: &Request) -> Result<u64, DurableError>
        requires { takes_more self.old ≡ true }
        ensures ok { IfOk result (λ revision. MakesMore request.now self.old revision self.new) }
        ensures unchanged { OnErr result (self.new ≡ self.old) }
        ensures refused { IfErr result (λ e. (x : AnError) → e ≡ Refused x → (state : State) →
            Represents state (bucket_behind self.old) → Refuses x (accept state.config (asked request.now) state.acts)) }
        ensures fault { IsErrOf result FileFault → is_stopped self.old.filed ≡ true }
        ensures stopped { is_stopped self.old.filed ≡ true → result ≡ Err FileFault }
        ensures no_other { IfErr result IsRefusal }
    {
        let ready = ready_more(
            self.bucket.single(),
            self.version_behind(),
            &self.filed,
            self.bytes.len(),
            request,
        )?;
        let revision = ready.told;
        self.join(ready)?;
        Ok(revision)
    }

    /// The number of its file.
    pub(crate) fn number(&self) -> u64
        ensures { result ≡ self.now.filed.number }
    {
        self.filed.number
    }

    /// What the shell is lent: the bytes from this one on are copied, as many as there is room for.
    pub(crate) fn lent(&self, from: usize, room: &mut [u8]) -> Lent
        ensures { IsLentFrom self.now from (length room.old) result room.new }
    {
        Lent {
            number: self.filed.number,
            at: self.at,
            size: self.bytes.len(),
            count: copy_front(room, behind(&self.bytes, from)),
            before: self.syncs.before,
            behind: self.syncs.behind,
        }
    }
}
