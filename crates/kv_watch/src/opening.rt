//! What a watch owes at its beginning.

ghost use Rattle.std.specs.Prelude.{◌≡◌, false, List, filter, reverse, IfOk};
ghost use Rattle.std.specs.Option.{option_map_or};
ghost use Rattle.kv_model.specs.Acts.{Act, is_put};
ghost use Rattle.kv_model.specs.Retained.{revisions};
ghost use Rattle.kv_model.specs.Given.{all_shown, ending, item_revisions};
ghost use Rattle.kv_store.specs.Standing.{StandsFor};
ghost use Rattle.kv_watch.specs.Following.{marker_if};
ghost use Rattle.kv_watch.specs.inside.Showing.{initial_matching, is_put_at};

use kv_keys::Filters;
use kv_model::{Options, Start};
use kv_store::Version;
use std::alloc::{AllocError, Global};

/// The revisions of the entries that a watch begins with, the first one last. It looks at each key once, and where
/// deletes are ignored at each write that is found.
pub(crate) fn owed_at_opening(
    alloc: Global,
    base: &Version,
    filters: &Filters,
    options: Options,
) -> Result<Vec<u64>, AllocError>
    ensures { IfOk result (λ owed. (acts : List Act) → StandsFor acts base.now →
        reverse owed.items
        ≡ item_revisions (all_shown options (initial_matching base.now filters.now options.start acts))) }
{
    let mut owed = shown_revisions(alloc, base, filters, options)?;
    owed.reverse();
    Ok(owed)
}

/// Whether an end marker comes behind the entries that a watch begins with.
pub(crate) fn owes_marker(start: Start) -> bool
    ensures { marker_if result ≡ ending start }
{
    match start {
        Start::Latest => true,
        Start::History => true,
        Start::Updates => false,
        Start::From(_) => true,
    }
}

// The revisions of the entries that a watch begins with and shows, in order.
fn shown_revisions(
    alloc: Global,
    base: &Version,
    filters: &Filters,
    options: Options,
) -> Result<Vec<u64>, AllocError>
    ensures { IfOk result (λ found. (acts : List Act) → StandsFor acts base.now →
        found.items
        ≡ item_revisions (all_shown options (initial_matching base.now filters.now options.start acts))) }
{
    if options.ignore_deletes {
        initial_puts(alloc, base, filters, options.start)
    } else {
        initial_revisions(alloc, base, filters, options.start)
    }
}

// The revisions of the entries that a watch begins with, in order, markers among them.
fn initial_revisions(
    alloc: Global,
    base: &Version,
    filters: &Filters,
    start: Start,
) -> Result<Vec<u64>, AllocError>
    ensures { IfOk result (λ found. (acts : List Act) → StandsFor acts base.now →
        found.items ≡ revisions (initial_matching base.now filters.now start acts)) }
{
    match start {
        Start::Latest | Start::History | Start::From(_) => {
            let found = base.revisions_where(alloc, filters, start);
            found.map_err(|_| AllocError)
        }
        Start::Updates => Ok(Vec::new(alloc)),
    }
}

// The revisions of the puts among the entries that a watch begins with, in order. The latest entries are in the hand once
// the keys are; of earlier ones each is looked up.
fn initial_puts(
    alloc: Global,
    base: &Version,
    filters: &Filters,
    start: Start,
) -> Result<Vec<u64>, AllocError>
    ensures { IfOk result (λ found. (acts : List Act) → StandsFor acts base.now →
        found.items ≡ revisions (filter (λ w. is_put w.op) (initial_matching base.now filters.now start acts))) }
{
    match start {
        Start::Latest => base.puts_where(alloc, filters).map_err(|_| AllocError),
        Start::History | Start::Updates | Start::From(_) => {
            let mut found = initial_revisions(alloc, base, filters, start)?;
            drop_markers(base, &mut found);
            Ok(found)
        }
    }
}

fn is_put_at(base: &Version, revision: u64) -> bool
    ensures { result ≡ is_put_at base.now revision }
{
    match base.write_at(revision) {
        Some(write) => write.op().is_put(),
        None => false,
    }
}

fn drop_markers(base: &Version, revisions: &mut Vec<u64>)
    ensures { revisions.new.items ≡ filter (is_put_at base.now) revisions.old.items }
{
    revisions.retain(|revision| is_put_at(base, *revision));
}
