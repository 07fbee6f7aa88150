//! The functions that C calls for views and for feeds over them, which may be on other threads than their bucket.

ghost use Rattle.std.specs.Prelude.{◌≡◌, ℕ, List, None, Some, IfErr, IfNone, IfOk, IfSome, IsFalse, IsTrue, false, is_some, true};
ghost use Rattle.kv_c.specs.Calling.{Feeds, FeedsBy, Hands, IsFloor, Refreshes, comes_next, holds_feed};
ghost use Rattle.kv_c.specs.Calling.{numbered_code, opening_of, options_asked, refresh_code, refreshed_code, version_in};
ghost use Rattle.kv_c.specs.Codes.{feed_code, taken_code};
ghost use Rattle.kv_c.specs.Handing.{HasSizes, Wants};
ghost use Rattle.kv_keys.specs.Grammar.{are_filters, parts};
ghost use Rattle.kv_keys.specs.declared.error.KvError.TheVariants.{BadFilter, OutOfMemory};
ghost use Rattle.kv_model.specs.Acts.{Act};
ghost use Rattle.kv_model.specs.Answers.{answer_item};
ghost use Rattle.kv_c.specs.Feeding.{HasHanded, IsRefreshed};

use crate::codes::{CLOSED, NO_SUCH_START, OLDER_VIEW, OPEN_ALREADY, OTHER_BUCKET, refuse_refresh};
use crate::content::Content;
use crate::feed::Feed;
use crate::handle::Handle;
use crate::item::Item;
use crate::parse::filters_of;
use crate::request::{Wanted, options_of};
use kv_single::{KvError, Options, Version};
use std::alloc::Global;

// What is read of a content, with the number of its bucket's opening.
fn numbered(content: &Content) -> Option<(&Version, u64)>
    ensures some { IfSome result
        (λ p. (version_in (Some content.now) ≡ Some p.0.now) × (opening_of (Some content.now) ≡ Some p.1)) }
    ensures none { IfNone result (version_in (Some content.now) ≡ None) }
{
    match content {
        Content::Bucket(bucket, _, opening) => Some((bucket.single().version(), *opening)),
        Content::View(version, opening) => Some((version, *opening)),
        Content::Feed(..) | Content::Batch(_) | Content::Made(..) => None,
    }
}

fn view_of(alloc: Global, version: &Version, opening: u64) -> Result<Box<Content>, KvError>
    ensures ok { IfOk result (λ b. version_in (Some b.value) ≡ Some version.now) }
    ensures opening { IfOk result (λ b. opening_of (Some b.value) ≡ Some opening) }
    ensures err { IfErr result (λ e. e ≡ OutOfMemory) }
{
    let copy = version.snapshot()?;
    Ok(Box::new(alloc, Content::View(copy, opening))?)
}

fn open_view(alloc: Global, version: &Version, opening: u64, view: &mut Handle) -> u64
    ensures opened { result ≡ 0 → version_in view.new.slot.held ≡ Some version.now }
    ensures opening { result ≡ 0 → opening_of view.new.slot.held ≡ Some opening }
    ensures code { view.old.slot.held ≡ None → ¬ (result ≡ 1) → result ≡ 0 }
    ensures refused { ¬ (result ≡ 0) → view.new.slot.held ≡ view.old.slot.held }
    ensures open_already { IsTrue (is_some view.old.slot.held) → result ≡ 34 }
{
    if view.is_open() {
        return OPEN_ALREADY;
    }
    match view_of(alloc, version, opening) {
        Ok(content) => {
            view.put(content);
            0
        }
        Err(refusal) => refusal.code(),
    }
}

/// Opens a view of what a bucket has accepted by now. A view of a view is of the same moment.
#[unsafe(no_mangle)]
pub extern "C" fn kv_snapshot(alloc: Global, handle: &mut Handle, view: &mut Handle) -> u64
    ensures opened { result ≡ 0 → version_in view.new.slot.held ≡ version_in handle.old.slot.held }
    ensures opening { result ≡ 0 → opening_of view.new.slot.held ≡ opening_of handle.old.slot.held }
    ensures code { IsTrue (is_some (version_in handle.old.slot.held)) → view.old.slot.held ≡ None → ¬ (result ≡ 1) →
        result ≡ 0 }
    ensures refused { ¬ (result ≡ 0) → view.new.slot.held ≡ view.old.slot.held }
    ensures unchanged { handle.new.slot.held ≡ handle.old.slot.held }
    ensures closed { IsFalse (is_some (version_in handle.old.slot.held)) → result ≡ 32 }
    ensures open_already { IsTrue (is_some (version_in handle.old.slot.held)) → IsTrue (is_some view.old.slot.held) →
        result ≡ 34 }
{
    let Some(content) = handle.take(alloc) else {
        return CLOSED;
    };
    let done = match numbered(&content) {
        Some((version, opening)) => open_view(alloc, version, opening, view),
        None => CLOSED,
    };
    handle.put(content);
    done
}

fn feed_of(
    alloc: Global,
    version: &Version,
    filters: &[u8],
    options: Options,
    opening: u64,
) -> Result<Box<Content>, KvError>
    ensures ok { IfOk result (λ b. Feeds (Some version.now) (parts filters.now) options (Some b.value)) }
    ensures opening { IfOk result (λ b. opening_of (Some b.value) ≡ Some opening) }
    ensures filters { IfOk result (λ b. are_filters (parts filters.now) ≡ true) }
    ensures err { IfErr result
        (λ e. ¬ (e ≡ OutOfMemory) → (e ≡ BadFilter) × (are_filters (parts filters.now) ≡ false)) }
{
    let filters = filters_of(alloc, filters)?;
    let feed = Feed::open(alloc, version, &filters, options)?;
    Ok(Box::new(alloc, Content::Feed(feed, opening))?)
}

#[tactic(auto, using(crate::proofs::Refusing::code_memory))]
fn open_feed(
    alloc: Global,
    version: &Version,
    filters: &[u8],
    wanted: &Wanted,
    opening: u64,
    feed: &mut Handle,
) -> u64
    ensures opened { result ≡ 0 →
        Feeds (Some version.now) (parts filters.now) (options_asked wanted.now) feed.new.slot.held }
    ensures opening { result ≡ 0 → opening_of feed.new.slot.held ≡ Some opening }
    ensures code { feed.old.slot.held ≡ None → ¬ (result ≡ 1) → result ≡ feed_code wanted.now.start filters.now }
    ensures refused { ¬ (result ≡ 0) → feed.new.slot.held ≡ feed.old.slot.held }
    ensures open_already { IsTrue (is_some feed.old.slot.held) → result ≡ 34 }
{
    if feed.is_open() {
        return OPEN_ALREADY;
    }
    let Some(options) = options_of(wanted) else {
        return NO_SUCH_START;
    };
    match feed_of(alloc, version, filters, options, opening) {
        Ok(content) => {
            feed.put(content);
            0
        }
        Err(refusal) => refusal.code(),
    }
}

/// Opens a feed that begins with a view.
#[unsafe(no_mangle)]
pub extern "C" fn kv_feed_open(
    alloc: Global,
    view: &mut Handle,
    filters: &[u8],
    wanted: &Wanted,
    feed: &mut Handle,
) -> u64
    ensures opened { result ≡ 0 →
        Feeds (version_in view.old.slot.held) (parts filters.now) (options_asked wanted.now) feed.new.slot.held }
    ensures opening { result ≡ 0 → opening_of feed.new.slot.held ≡ opening_of view.old.slot.held }
    ensures code { IsTrue (is_some (version_in view.old.slot.held)) → feed.old.slot.held ≡ None → ¬ (result ≡ 1) →
        result ≡ feed_code wanted.now.start filters.now }
    ensures refused { ¬ (result ≡ 0) → feed.new.slot.held ≡ feed.old.slot.held }
    ensures unchanged { view.new.slot.held ≡ view.old.slot.held }
    ensures closed { IsFalse (is_some (version_in view.old.slot.held)) → result ≡ 32 }
    ensures open_already { IsTrue (is_some (version_in view.old.slot.held)) → IsTrue (is_some feed.old.slot.held) →
        result ≡ 34 }
{
    let Some(content) = view.take(alloc) else {
        return CLOSED;
    };
    let done = match numbered(&content) {
        Some((version, opening)) => open_feed(alloc, version, filters, wanted, opening, feed),
        None => CLOSED,
    };
    view.put(content);
    done
}

#[tactic(auto, using(crate::proofs::Refusing::code_memory))]
fn refresh_to(feed: &mut Feed, version: &Version, floor: &mut u64) -> u64
    ensures refreshed { result ≡ 0 → IsRefreshed version.now feed.old feed.new }
    ensures code { (began acts : List Act) (n : ℕ) → HasHanded began acts n feed.old → ¬ (result ≡ 1) →
        result ≡ refreshed_code began acts n version.now feed.old }
    ensures floor { result ≡ 21 → version.now.floor ≡ floor.new }
    ensures untold { ¬ (result ≡ 21) → floor.new ≡ floor.old }
    ensures refused { ¬ (result ≡ 0) → feed.new ≡ feed.old }
{
    if !feed.may_go_on_to(version) {
        return OLDER_VIEW;
    }
    match feed.refresh(version) {
        Ok(()) => 0,
        Err(refusal) => refuse_refresh(refusal, floor),
    }
}

fn refresh_numbered(
    feed: &mut Feed,
    own: u64,
    version: &Version,
    opening: u64,
    floor: &mut u64,
) -> u64
    ensures refreshed { result ≡ 0 → IsRefreshed version.now feed.old feed.new }
    ensures code { (began acts : List Act) (n : ℕ) → HasHanded began acts n feed.old → ¬ (result ≡ 1) →
        result ≡ numbered_code began acts n opening version.now feed.old own }
    ensures other { ¬ (opening ≡ own) → result ≡ 25 }
    ensures floor { result ≡ 21 → version.now.floor ≡ floor.new }
    ensures untold { ¬ (result ≡ 21) → floor.new ≡ floor.old }
    ensures refused { ¬ (result ≡ 0) → feed.new ≡ feed.old }
{
    if opening != own {
        return OTHER_BUCKET;
    }
    refresh_to(feed, version, floor)
}

fn refresh_in(content: &mut Content, version: &Version, opening: u64, floor: &mut u64) -> u64
    ensures refreshed { result ≡ 0 → Refreshes (Some version.now) (Some content.old) (Some content.new) }
    ensures code { (began acts : List Act) (n : ℕ) → FeedsBy began acts n (Some content.old) → ¬ (result ≡ 1) →
        result ≡ refresh_code began acts n (Some opening) (Some version.now) (Some content.old) }
    ensures other { (own : ℕ) → holds_feed (Some content.old) ≡ true → opening_of (Some content.old) ≡ Some own →
        ¬ (opening ≡ own) → result ≡ 25 }
    ensures floor { result ≡ 21 → version.now.floor ≡ floor.new }
    ensures untold { ¬ (result ≡ 21) → floor.new ≡ floor.old }
    ensures refused { ¬ (result ≡ 0) → content.new ≡ content.old }
    ensures closed { IsFalse (holds_feed (Some content.old)) → result ≡ 32 }
{
    match content {
        Content::Feed(feed, own) => refresh_numbered(feed, *own, version, opening, floor),
        Content::Bucket(..) | Content::View(..) | Content::Batch(_) | Content::Made(..) => CLOSED,
    }
}

fn refresh(
    alloc: Global,
    feed: &mut Handle,
    version: &Version,
    opening: u64,
    floor: &mut u64,
) -> u64
    ensures refreshed { result ≡ 0 → Refreshes (Some version.now) feed.old.slot.held feed.new.slot.held }
    ensures code { (began acts : List Act) (n : ℕ) → FeedsBy began acts n feed.old.slot.held → ¬ (result ≡ 1) →
        result ≡ refresh_code began acts n (Some opening) (Some version.now) feed.old.slot.held }
    ensures other { (own : ℕ) → holds_feed feed.old.slot.held ≡ true → opening_of feed.old.slot.held ≡ Some own →
        ¬ (opening ≡ own) → result ≡ 25 }
    ensures floor { result ≡ 21 → version.now.floor ≡ floor.new }
    ensures untold { ¬ (result ≡ 21) → floor.new ≡ floor.old }
    ensures refused { ¬ (result ≡ 0) → feed.new.slot.held ≡ feed.old.slot.held }
    ensures closed { IsFalse (holds_feed feed.old.slot.held) → result ≡ 32 }
{
    let Some(mut content) = feed.take(alloc) else {
        return CLOSED;
    };
    let done = refresh_in(&mut content, version, opening, floor);
    feed.put(content);
    done
}

/// Goes on to a view: a later one of the same bucket. Refused are one of another bucket, one with fewer writes than the
/// feed has gone on to, and one with a floor that the feed lags behind, which is handed out: it is above the last
/// revision that the feed has gone on to, or the feed has still to hand out an entry at or below it that came after its
/// opening.
#[unsafe(no_mangle)]
pub extern "C" fn kv_feed_refresh(
    alloc: Global,
    feed: &mut Handle,
    view: &mut Handle,
    floor: &mut u64,
) -> u64
    ensures refreshed { result ≡ 0 → Refreshes (version_in view.old.slot.held) feed.old.slot.held feed.new.slot.held }
    ensures code { (began acts : List Act) (n : ℕ) → FeedsBy began acts n feed.old.slot.held → ¬ (result ≡ 1) →
        result ≡ refresh_code began acts n (opening_of view.old.slot.held) (version_in view.old.slot.held)
        feed.old.slot.held }
    ensures other { (of own : ℕ) → IsTrue (is_some (version_in view.old.slot.held)) →
        opening_of view.old.slot.held ≡ Some of → holds_feed feed.old.slot.held ≡ true →
        opening_of feed.old.slot.held ≡ Some own → ¬ (of ≡ own) → result ≡ 25 }
    ensures floor { result ≡ 21 → IsFloor (version_in view.old.slot.held) floor.new }
    ensures untold { ¬ (result ≡ 21) → floor.new ≡ floor.old }
    ensures refused { ¬ (result ≡ 0) → feed.new.slot.held ≡ feed.old.slot.held }
    ensures unchanged { view.new.slot.held ≡ view.old.slot.held }
    ensures closed { IsFalse (holds_feed feed.old.slot.held) → result ≡ 32 }
    ensures view_closed { IsFalse (is_some (version_in view.old.slot.held)) → result ≡ 32 }
{
    let Some(content) = view.take(alloc) else {
        return CLOSED;
    };
    let done = match numbered(&content) {
        Some((version, opening)) => refresh(alloc, feed, version, opening, floor),
        None => CLOSED,
    };
    view.put(content);
    done
}

fn take_in(content: &mut Content, keys: &mut [u8], values: &mut [u8], item: &mut Item) -> u64
    ensures taken { result ≡ 0 → Hands (Some content.old) item.new keys.new values.new (Some content.new) }
    ensures code { (began acts : List Act) (n : ℕ) → FeedsBy began acts n (Some content.old) →
        result ≡ taken_code keys.old values.old (answer_item (comes_next began acts n (Some content.old))) }
    ensures sizes { result ≡ 0 → (began acts : List Act) (n : ℕ) → FeedsBy began acts n (Some content.old) →
        HasSizes item.new (answer_item (comes_next began acts n (Some content.old))) }
    ensures wants { result ≡ 33 → (began acts : List Act) (n : ℕ) → FeedsBy began acts n (Some content.old) →
        Wants item.new (answer_item (comes_next began acts n (Some content.old))) }
    ensures refused { ¬ (result ≡ 0) → content.new ≡ content.old }
    ensures room { ¬ (result ≡ 0) → (keys.new ≡ keys.old) × (values.new ≡ values.old) }
    ensures untold { ¬ (result ≡ 0) → ¬ (result ≡ 33) → item.new ≡ item.old }
    ensures closed { IsFalse (holds_feed (Some content.old)) → result ≡ 32 }
{
    match content {
        Content::Feed(feed, _) => feed.take(keys, values, item),
        Content::Bucket(..) | Content::View(..) | Content::Batch(_) | Content::Made(..) => CLOSED,
    }
}

/// Hands out the next item of a feed, as `kv_take` does of a watch.
#[unsafe(no_mangle)]
pub extern "C" fn kv_feed_take(
    alloc: Global,
    feed: &mut Handle,
    keys: &mut [u8],
    values: &mut [u8],
    item: &mut Item,
) -> u64
    ensures taken { result ≡ 0 → Hands feed.old.slot.held item.new keys.new values.new feed.new.slot.held }
    ensures code { (began acts : List Act) (n : ℕ) → FeedsBy began acts n feed.old.slot.held →
        result ≡ taken_code keys.old values.old (answer_item (comes_next began acts n feed.old.slot.held)) }
    ensures sizes { result ≡ 0 → (began acts : List Act) (n : ℕ) → FeedsBy began acts n feed.old.slot.held →
        HasSizes item.new (answer_item (comes_next began acts n feed.old.slot.held)) }
    ensures wants { result ≡ 33 → (began acts : List Act) (n : ℕ) → FeedsBy began acts n feed.old.slot.held →
        Wants item.new (answer_item (comes_next began acts n feed.old.slot.held)) }
    ensures refused { ¬ (result ≡ 0) → feed.new.slot.held ≡ feed.old.slot.held }
    ensures room { ¬ (result ≡ 0) → (keys.new ≡ keys.old) × (values.new ≡ values.old) }
    ensures untold { ¬ (result ≡ 0) → ¬ (result ≡ 33) → item.new ≡ item.old }
    ensures closed { IsFalse (holds_feed feed.old.slot.held) → result ≡ 32 }
{
    let Some(mut content) = feed.take(alloc) else {
        return CLOSED;
    };
    let done = take_in(&mut content, keys, values, item);
    feed.put(content);
    done
}
