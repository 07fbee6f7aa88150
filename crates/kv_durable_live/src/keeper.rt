//! What lies under the lock: the bucket, what publishes its acts, and its file.

ghost use Rattle.std.specs.Prelude.{◌≡◌, ◌<◌, true, false, length};
ghost use Rattle.kv_model.specs.Acts.{IsPrefix};
ghost use Rattle.kv_bucket.specs.Histories.{IsPublishedHistory};
ghost use Rattle.kv_bucket.specs.Keeping.{IsSomewhere};

use kv_bucket::{Feed, Keeper, LiveName, Reader, Receipt};
use kv_durable::{Journal, JournalFile};

/// The bucket of the opening N, what publishes its acts, and its file. Each act is added to the file, and brought onto the disk
/// where that is due, and only then published.
///
/// What the rules or memory refuse is refused before the file is touched. Where the file fails, the bucket and what is published
/// stay as they were, and nothing more is written, sealed, compacted or synced: each such call is a FileFault, and does not touch
/// the file. Reads, readers and feeds go on. The act whose call failed may be in the file, or not: an opening tells.
///
/// It is not `Drop`: `DurableLive::close` ends it.
pub struct DurableKeeper<N: LiveName, F: JournalFile> {
    pub(crate) keeper: Keeper<N>,
    pub(crate) journal: Journal<F>,
}

impl<N: LiveName, F: JournalFile> DurableKeeper<N, F> {
    /// The bucket and what is published, for reads, marks and new readers.
    pub fn keeper(&self) -> &Keeper<N>
        ensures value { result.now ≡ self.now.keeper }
        ensures state { IsSomewhere N.opening.config self.now.keeper }
        ensures history { IsPublishedHistory N.opening self.now.keeper.published }
    {
        self.keeper.bucket();
        &self.keeper
    }

    /// The journal, which tells of the file.
    pub fn journal(&self) -> &Journal<F>
        ensures { result.now ≡ self.now.journal }
    {
        &self.journal
    }

    /// Whether the reader has seen all that is published, as `Keeper::is_seen_by` tells.
    pub fn is_seen_by(&mut self, reader: &Reader<N>) -> bool
        ensures same { self.new ≡ self.old }
        ensures within { IsPrefix reader.now.seen self.old.keeper.published }
        ensures told { IsPrefix reader.now.told self.old.keeper.published }
        ensures yes { result ≡ true → reader.now.seen ≡ self.old.keeper.published }
        ensures no { result ≡ false → length reader.now.seen < length self.old.keeper.published }
    {
        self.keeper.is_seen_by(reader)
    }

    /// Whether the reader of the feed has seen all that is published, as `Keeper::is_followed_by` tells.
    pub fn is_followed_by(&mut self, feed: &Feed<N>) -> bool
        ensures same { self.new ≡ self.old }
        ensures within { IsPrefix feed.now.acts self.old.keeper.published }
        ensures seen { IsPrefix feed.now.reader.seen self.old.keeper.published }
        ensures told { IsPrefix feed.now.reader.told self.old.keeper.published }
        ensures yes { result ≡ true → feed.now.reader.seen ≡ self.old.keeper.published }
        ensures no { result ≡ false → length feed.now.reader.seen < length self.old.keeper.published }
    {
        self.keeper.is_followed_by(feed)
    }

    /// Whether the receipt tells all that is published, as `Keeper::is_told_by` tells.
    pub fn is_told_by(&mut self, receipt: &Receipt<N>) -> bool
        ensures same { self.new ≡ self.old }
        ensures within { IsPrefix receipt.now self.old.keeper.published }
        ensures yes { result ≡ true → receipt.now ≡ self.old.keeper.published }
        ensures no { result ≡ false → length receipt.now < length self.old.keeper.published }
    {
        self.keeper.is_told_by(receipt)
    }
}
