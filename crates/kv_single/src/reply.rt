//! What a bucket answers: copies of what a version shows.

ghost use Rattle.std.specs.Prelude.{◌≡◌, IfErr, IfOk, OnErr, false, map};
ghost use Rattle.std.specs.Option.{option_copied, option_map};
ghost use Rattle.kv_keys.specs.declared.error.KvError.TheVariants.{OutOfMemory};
ghost use Rattle.kv_model.specs.further.Events.{event_answered};
ghost use Rattle.kv_model.specs.Given.{entry_of};
ghost use Rattle.kv_model.specs.declared.call.Call.TheVariants.{Get, GetAt, History, Keys, Status, Take};
ghost use Rattle.kv_model.specs.Answers.{AnsweredEntry, Entries, answer_item};
ghost use Rattle.kv_model.specs.State.{State, answer_to, read_entry};
ghost use Rattle.kv_watch.specs.Taking.{entry_shown, item_taken};
ghost use Rattle.kv_single.specs.Replies.{answer_of};
ghost use Rattle.kv_single.specs.Held.{Represents};

use crate::bucket::Bucket;
use kv_keys::{Filters, Key, KvError};
use kv_model::{Event, Op, Stopped, Write};
use kv_watch::{Shown, Taken};
use std::alloc::{AllocError, Global};
use std::marker::Model;

/// What a bucket answers.
#[derive(Drop)]
pub enum Reply {
    /// The write has this revision.
    Revision(u64),
    /// Writes have ended.
    Sealed,
    /// The entry that a read found, or that a watch handed out.
    Entry(Seen),
    /// The retained entries of a key, in the order of their revisions.
    Entries(Vec<Seen>),
    /// The keys that have a value and match.
    Keys(Vec<Key>),
    /// The numbers of the version, and how many watches are open.
    Status {
        status: kv_model::Status,
        watches: u64,
    },
    /// The new watch has this number.
    Watch(u64),
    /// The end of the initial entries.
    Marker,
    /// All that the watch is given by now was handed out.
    Empty,
    /// The watch has ended.
    Stopped(Stopped),
    /// The version was compacted to this floor.
    Compacted(u64),
    /// Never with want of memory: then there is no reply.
    Refused(KvError),
}

impl Reply {
    /// The item that a take was answered, by its revision alone; none where it was Empty or refused.
    pub fn event(&self) -> Option<Event>
        ensures { result ≡ event_answered (answer_of self.now) }
    {
        match self {
            Reply::Entry(seen) => Some(Event::Entry {
                revision: seen.revision,
            }),
            Reply::Marker => Some(Event::Marker),
            _ => None,
        }
    }
}

/// The reply to a call that was refused. Want of memory is no reply.
pub(crate) fn refusal(error: KvError) -> Result<Reply, AllocError>
    ensures ok { IfOk result (λ reply. (reply ≡ Reply.Refused error) × (error ≡ OutOfMemory → ⊥)) }
    ensures err { OnErr result (error ≡ OutOfMemory) }
{
    if error == KvError::OutOfMemory {
        return Err(AllocError);
    }
    Ok(Reply::Refused(error))
}

/// A copy of an entry, as replies keep it.
#[derive(Drop)]
pub struct Seen {
    pub key: Key,
    pub op: Op,
    pub revision: u64,
    /// The number of bytes of the value, also where it is not shown.
    pub size: u64,
    /// The value; none for a marker, and where only headers are shown.
    pub value: Option<Vec<u8>>,
}

impl Model for Seen {
    ghost use Rattle.std.specs.Option.{option_map};
    ghost use Rattle.kv_model.specs.Given.{Entry};

    ghost Value = { Entry };

    ghost view = { λ s. record {
      key = s.key;
      op = s.op;
      revision = s.revision;
      size = s.size;
      value = option_map (λ v. v.items) s.value;
    } };
}

impl Seen {
    /// A copy of an entry as a watch shows it, with two requests for memory at most.
    pub fn of_shown(alloc: Global, shown: &Shown<'_>) -> Result<Seen, KvError>
        ensures ok { IfOk result (λ seen. seen ≡ entry_shown shown.now) }
        ensures err { IfErr result (λ e. e ≡ OutOfMemory) }
    {
        Ok(Seen {
            key: shown.key().copy(alloc)?,
            op: shown.op(),
            revision: shown.revision(),
            size: shown.size(),
            value: copy_value(alloc, shown.value())?,
        })
    }

    /// A copy of an entry as a read shows it: with its value.
    pub fn of_write(alloc: Global, write: &Write) -> Result<Seen, KvError>
        ensures ok { IfOk result (λ seen. seen ≡ entry_of false write.now) }
        ensures err { IfErr result (λ e. e ≡ OutOfMemory) }
    {
        let seen = Seen::of_shown(alloc, &Shown::new(write, false))?;
        Ok(seen)
    }
}

fn copy_value(alloc: Global, value: Option<&[u8]>) -> Result<Option<Vec<u8>>, AllocError>
    ensures { IfOk result (λ copy. option_map (λ v. v.items) copy ≡ option_copied value.entry) }
{
    match value {
        Some(value) => Ok(Some(Vec::from_slice(alloc, value)?)),
        None => Ok(None),
    }
}

impl Bucket {
    pub(crate) fn get_reply(&self, key: &Key) -> Result<Reply, AllocError>
        ensures { IfOk result
            (λ reply. (state : State) → Represents state self.now → answer_of reply ≡ answer_to state (Get key.now)) }
    {
        match self.version.get(key) {
            Ok(write) => entry_reply(self.alloc, write),
            Err(error) => refusal(error),
        }
    }

    pub(crate) fn get_at_reply(&self, key: &Key, revision: u64) -> Result<Reply, AllocError>
        ensures { IfOk result
            (λ reply. (state : State) → Represents state self.now →
            answer_of reply ≡ answer_to state (GetAt key.now revision)) }
    {
        match self.version.get_at(key, revision) {
            Ok(write) => entry_reply(self.alloc, write),
            Err(error) => refusal(error),
        }
    }

    pub(crate) fn history_reply(&self, key: &Key) -> Result<Reply, AllocError>
        ensures { IfOk result
            (λ reply. (state : State) → Represents state self.now →
            answer_of reply ≡ answer_to state (History key.now)) }
    {
        match self.version.history(self.alloc, key) {
            Ok(writes) => entries_reply(self.alloc, &writes),
            Err(error) => refusal(error),
        }
    }

    pub(crate) fn keys_reply(&self, filters: &Filters) -> Result<Reply, AllocError>
        ensures { IfOk result
            (λ reply. (state : State) → Represents state self.now →
            answer_of reply ≡ answer_to state (Keys filters.now)) }
    {
        let keys = self
            .version
            .keys_where(self.alloc, filters)
            .map_err(|_| AllocError)?;
        let copies = copy_keys(self.alloc, &keys)?;
        Ok(Reply::Keys(copies))
    }

    pub(crate) fn status_reply(&self) -> Reply
        ensures { (state : State) → Represents state self.now → answer_of result ≡ answer_to state Status }
    {
        Reply::Status {
            status: self.version.status(),
            watches: self.watches(),
        }
    }

    /// What a take will be answered. Nothing moves yet.
    pub(crate) fn peek_reply(&self, number: u64) -> Result<Reply, AllocError>
        ensures { IfOk result
            (λ reply. (state : State) → Represents state self.now → answer_of reply ≡ answer_to state (Take number)) }
    {
        match self.peek(number) {
            Ok(taken) => taken_reply(self.alloc, &taken),
            Err(error) => refusal(error),
        }
    }
}

fn entry_reply(alloc: Global, write: &Write) -> Result<Reply, AllocError>
    ensures { IfOk result (λ reply. answer_of reply ≡ AnsweredEntry (read_entry write.now)) }
{
    let seen = Seen::of_write(alloc, write).map_err(|_| AllocError)?;
    Ok(Reply::Entry(seen))
}

fn entries_reply(alloc: Global, writes: &[&Write]) -> Result<Reply, AllocError>
    ensures { IfOk result (λ reply. answer_of reply ≡ Entries (map read_entry (map (λ w. w.now) writes.now))) }
{
    let copies = copy_writes(alloc, writes)?;
    Ok(Reply::Entries(copies))
}

fn copy_writes(alloc: Global, writes: &[&Write]) -> Result<Vec<Seen>, AllocError>
    ensures { IfOk result (λ copies. copies.items ≡ map read_entry (map (λ w. w.now) writes.now)) }
{
    let mut copies = Vec::new(alloc);
    for write in writes {
        copies.push(Seen::of_write(alloc, write).map_err(|_| AllocError)?)?;
    }
    Ok(copies)
}

fn copy_keys(alloc: Global, keys: &[&Key]) -> Result<Vec<Key>, AllocError>
    ensures { IfOk result (λ copies. copies.items ≡ map (λ k. k.now) keys.now) }
{
    let mut copies = Vec::new(alloc);
    for key in keys {
        copies.push(key.copy(alloc).map_err(|_| AllocError)?)?;
    }
    Ok(copies)
}

fn taken_reply(alloc: Global, taken: &Taken<'_>) -> Result<Reply, AllocError>
    ensures { IfOk result (λ reply. answer_of reply ≡ answer_item (item_taken taken.now)) }
{
    match taken {
        Taken::Entry(shown) => {
            let seen = Seen::of_shown(alloc, shown).map_err(|_| AllocError)?;
            Ok(Reply::Entry(seen))
        }
        Taken::Marker => Ok(Reply::Marker),
        Taken::Empty => Ok(Reply::Empty),
    }
}
