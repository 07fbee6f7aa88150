//! What a watch is given, computed slowly from all the writes, for audits: the function `given`. The module has the
//! name of its use, since a module and a function beside it may not share one.

ghost use Rattle.std.specs.Prelude.{◌≡◌, ◌==◌, ◌++◌, ◌≤◌, ◌&&◌, IfOk, IfErr, OnOk, [], ◌∷◌, length, map, take};
ghost use Rattle.kv_model.specs.Acts.{is_purge};
ghost use Rattle.kv_model.specs.Retained.{is_kept, is_latest, kept, last_n, last_write, revisions};
ghost use Rattle.kv_model.specs.Given.{ending, given};
ghost use Rattle.kv_model.specs.further.Events.{event_of};
ghost use Rattle.kv_watch.specs.inside.Listing.{revisions_after};
ghost use Rattle.kv_model.specs.further.Showing.{is_initial, is_shown};
ghost use Rattle.kv_watch.specs.inside.Showing.{events_where, wrote_all};
ghost use Rattle.std.specs.List.{list_any};
ghost use Rattle.std.specs.Option.{option_copied};
ghost use Rattle.kv_keys.specs.declared.error.KvError.TheVariants.{OutOfMemory};

use crate::item::is_shown;
use kv_keys::{Filters, Key, KvError};
use kv_model::{Event, Op, Options, Start, Write};
use std::alloc::{AllocError, Global};

/// What a watch is given that began behind the first `base` of the writes, once there are the first `end`: for audits.
/// It goes through all the writes before the beginning for each of them.
///
/// The caller's condition: there are so many writes. The i-th of a bucket's writes has revision i.
pub fn given(
    alloc: Global,
    writes: &[&Write],
    base: u64,
    end: u64,
    history: u64,
    filters: &Filters,
    options: Options,
) -> Result<Vec<Event>, KvError>
    requires began { base ≤ end }
    requires written { end ≤ length writes.now }
    ensures ok { IfOk result (λ events. events.items
        ≡ map event_of (given history (take base (wrote_all writes.now)) (take end (wrote_all writes.now))
        filters.now options)) }
    ensures err { IfErr result (λ e. e ≡ OutOfMemory) }
{
    let began = &writes[..base as usize];
    let live = &writes[base as usize..end as usize];
    let events = listed(alloc, began, live, history, filters, options)?;
    Ok(events)
}

fn listed(
    alloc: Global,
    began: &[&Write],
    live: &[&Write],
    history: u64,
    filters: &Filters,
    options: Options,
) -> Result<Vec<Event>, AllocError>
    ensures { IfOk result (λ events. events.items
        ≡ events_where
        (λ w. is_initial history options.start (wrote_all began.now) w && is_shown filters.now options w) (map
        (λ w. w.now) began.now)
        ++ map event_of (ending options.start)
        ++ events_where (is_shown filters.now options) (map (λ w. w.now) live.now)) }
{
    let mut events = Vec::new(alloc);
    push_initial(alloc, &mut events, began, history, filters, options)?;
    push_ending(&mut events, options.start)?;
    push_live(&mut events, live, filters, options)?;
    Ok(events)
}

fn push_ending(events: &mut Vec<Event>, start: Start) -> Result<(), AllocError>
    ensures { OnOk result (events.new.items ≡ events.old.items ++ map event_of (ending start)) }
{
    match start {
        Start::Latest | Start::History | Start::From(_) => events.push(Event::Marker)?,
        Start::Updates => {}
    }
    Ok(())
}

fn push_initial(
    alloc: Global,
    events: &mut Vec<Event>,
    began: &[&Write],
    history: u64,
    filters: &Filters,
    options: Options,
) -> Result<(), AllocError>
    ensures { OnOk result (events.new.items ≡ events.old.items
        ++ events_where
        (λ w. is_initial history options.start (wrote_all began.now) w && is_shown filters.now options w) (map
        (λ w. w.now) began.now)) }
{
    for write in began {
        push_begun(alloc, events, began, history, write, filters, options)?;
    }
    Ok(())
}

fn push_live(
    events: &mut Vec<Event>,
    writes: &[&Write],
    filters: &Filters,
    options: Options,
) -> Result<(), AllocError>
    ensures { OnOk result (events.new.items ≡ events.old.items
        ++ events_where (is_shown filters.now options) (map (λ w. w.now) writes.now)) }
{
    for write in writes {
        push_shown(events, write, filters, options)?;
    }
    Ok(())
}

fn push_begun(
    alloc: Global,
    events: &mut Vec<Event>,
    began: &[&Write],
    history: u64,
    write: &Write,
    filters: &Filters,
    options: Options,
) -> Result<(), AllocError>
    ensures { OnOk result (events.new.items ≡ events.old.items
        ++ events_where
        (λ w. is_initial history options.start (wrote_all began.now) w && is_shown filters.now options w)
        (write.now ∷ [])) }
{
    if begins(alloc, began, history, options.start, write)? {
        push_shown(events, write, filters, options)?;
    }
    Ok(())
}

fn push_shown(
    events: &mut Vec<Event>,
    write: &Write,
    filters: &Filters,
    options: Options,
) -> Result<(), AllocError>
    ensures { OnOk result (events.new.items
        ≡ events.old.items ++ events_where (is_shown filters.now options) (write.now ∷ [])) }
{
    if is_shown(filters, options, write) {
        events.push(Event::Entry {
            revision: write.revision(),
        })?;
    }
    Ok(())
}

// Whether a watch from this start begins with the write.
fn begins(
    alloc: Global,
    began: &[&Write],
    history: u64,
    start: Start,
    write: &Write,
) -> Result<bool, AllocError>
    ensures { IfOk result (λ answer. answer ≡ is_initial history start (wrote_all began.now) write.now) }
{
    match start {
        Start::Latest => Ok(is_latest(began, write)),
        Start::History => {
            let is_kept = is_kept(alloc, began, history, write)?;
            Ok(is_kept)
        }
        Start::Updates => Ok(false),
        Start::From(revision) => {
            let is_kept = is_kept(alloc, began, history, write)?;
            Ok(is_kept && revision <= write.revision())
        }
    }
}

fn is_latest(writes: &[&Write], write: &Write) -> bool
    ensures { result ≡ is_latest (wrote_all writes.now) write.now }
{
    match last_write(writes, write.key()) {
        Some(last) => last.revision() == write.revision(),
        None => false,
    }
}

// The last write of a key.
fn last_write<'a>(writes: &[&'a Write], key: &Key) -> Option<&'a Write>
    ensures { option_copied result ≡ last_write key.now (wrote_all writes.now) }
{
    let mut last = None;
    for write in writes {
        if *write.key() == *key {
            last = Some(*write);
        }
    }
    last
}

fn is_kept(
    alloc: Global,
    writes: &[&Write],
    history: u64,
    write: &Write,
) -> Result<bool, AllocError>
    ensures { IfOk result (λ answer. answer ≡ is_kept history (wrote_all writes.now) write.now) }
{
    let kept = kept_revisions(alloc, writes, write.key(), history)?;
    Ok(contains(&kept, write.revision()))
}

fn contains(revisions: &[u64], revision: u64) -> bool
    ensures { result ≡ list_any (λ r. r == revision) revisions.now }
{
    revisions.iter().any(|r| *r == revision)
}

// The revisions of the writes that are kept of a key.
fn kept_revisions(
    alloc: Global,
    writes: &[&Write],
    key: &Key,
    history: u64,
) -> Result<Vec<u64>, AllocError>
    ensures { IfOk result (λ found. found.items ≡ revisions (kept history key.now (wrote_all writes.now))) }
{
    let mut since_purge = Vec::new(alloc);
    for write in writes {
        push_revision(&mut since_purge, key, write)?;
    }
    last_n(alloc, history, &since_purge)
}

fn push_revision(since_purge: &mut Vec<u64>, key: &Key, write: &Write) -> Result<(), AllocError>
    ensures { OnOk result (since_purge.new.items ≡ revisions_after since_purge.old.items key.now write.now) }
{
    if *write.key() == *key {
        if is_purge(write.op()) {
            since_purge.clear();
        }
        since_purge.push(write.revision())?;
    }
    Ok(())
}

fn is_purge(op: Op) -> bool
    ensures { result ≡ is_purge op }
{
    match op {
        Op::Purge => true,
        Op::Put => false,
        Op::Delete => false,
    }
}

// The last `n` of the revisions.
fn last_n(alloc: Global, n: u64, revisions: &[u64]) -> Result<Vec<u64>, AllocError>
    ensures { IfOk result (λ found. found.items ≡ last_n n revisions.now) }
{
    let first = revisions.len().saturating_sub(n as usize);
    Vec::from_slice(alloc, &revisions[first..])
}
