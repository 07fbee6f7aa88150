//! What a handle holds while it is open.

ghost use Rattle.std.specs.Prelude.{◌≡◌, ℕ, false, IfNone, IfSome, None, Some, map};
ghost use Rattle.std.specs.Option.{option_copied};
ghost use Rattle.kv_c.specs.Batching.{gathered};
ghost use Rattle.kv_c.specs.Calling.{version_in};
ghost use Rattle.kv_c.specs.Checkpointing.{CanReplace, MakesCheckpoint};
ghost use Rattle.kv_c.specs.Making.{CanEnd, CanMake, CanSync, IsFiled, IsMade, Makes, MakesEnd, MakesSync, is_filed};
ghost use Rattle.kv_model.specs.Requests.{asked};

use crate::batch::Batch;
use crate::feed::Feed;
use crate::filed::Filed;
use crate::made::{Made, Ready};
use crate::ringed::Ringed;
use kv_single::{Bucket, Request, Version};
use std::alloc::Global;
use std::mem;

/// What a handle holds while it is open. A bucket has the number of its opening, and a view or a feed that of its bucket.
#[derive(Drop)]
pub enum Content {
    /// A bucket of one thread, with its file if it has one.
    Bucket(Ringed, Option<Filed>, u64),
    /// What a bucket had accepted by a moment.
    View(Version, u64),
    /// A watch over views.
    Feed(Feed, u64),
    /// Requests that are gathered.
    Batch(Batch),
    /// A bucket with a file, on which a call waits for the shell.
    Made(Made, u64),
}

impl Content {
    /// What is read of it: the version of a bucket, or a view.
    pub(crate) fn version(&self) -> Option<&Version>
        ensures { option_copied result ≡ version_in (Some self.now) }
    {
        match self {
            Content::Bucket(bucket, _, _) => Some(bucket.single().version()),
            Content::View(version, _) => Some(version),
            Content::Feed(..) | Content::Batch(_) | Content::Made(..) => None,
        }
    }

    /// The requests that are gathered in it.
    pub(crate) fn requests(&self) -> Option<&[Request]>
        ensures some { IfSome result (λ requests. gathered (Some self.now) ≡ Some (map asked requests.now)) }
        ensures none { IfNone result (gathered (Some self.now) ≡ None) }
    {
        match self {
            Content::Batch(batch) => Some(batch.requests()),
            Content::Bucket(..) | Content::View(..) | Content::Feed(..) | Content::Made(..) => None,
        }
    }

    /// The bucket and its file.
    pub(crate) fn with_file(&self) -> Option<(&Bucket, &Filed)>
        ensures some { IfSome result (λ p. IsFiled self.now p.0.now p.1.now) }
        ensures none { IfNone result (is_filed self.now ≡ false) }
    {
        match self {
            Content::Bucket(bucket, Some(filed), _) => Some((bucket.single(), filed)),
            Content::Bucket(_, None, _)
            | Content::View(..)
            | Content::Feed(..)
            | Content::Batch(_)
            | Content::Made(..) => None,
        }
    }

    /// Makes a call of a bucket with a file, which then waits for the shell.
    pub(crate) fn make(&mut self, alloc: Global, ready: Ready)
        requires { CanMake self.old ready }
        ensures { IsMade self.old ready self.new }
    {
        match mem::replace(self, Content::Batch(Batch::empty(alloc))) {
            Content::Bucket(bucket, filed, opening) => match filed {
                Some(filed) => *self = Content::Made(Made::of(bucket, filed, ready), opening),
                None => *self = Content::Bucket(bucket, None, opening),
            },
            other => *self = other,
        }
    }

    /// Makes a sync of the file, which waits for the shell.
    pub(crate) fn make_sync(&mut self, alloc: Global)
        requires { CanSync self.old }
        ensures { Makes MakesSync (Some self.old) (Some self.new) }
    {
        match mem::replace(self, Content::Batch(Batch::empty(alloc))) {
            Content::Bucket(bucket, filed, opening) => match filed {
                Some(filed) => *self = Content::Made(Made::synced(alloc, bucket, filed), opening),
                None => *self = Content::Bucket(bucket, None, opening),
            },
            other => *self = other,
        }
    }

    /// Makes a clean end of the file, which this frame tells, and which waits for the shell.
    pub(crate) fn make_end(&mut self, alloc: Global, frame: Vec<u8>)
        requires { CanEnd self.old frame.items }
        ensures { Makes MakesEnd (Some self.old) (Some self.new) }
    {
        match mem::replace(self, Content::Batch(Batch::empty(alloc))) {
            Content::Bucket(bucket, filed, opening) => match filed {
                Some(filed) => *self = Content::Made(Made::ended(bucket, filed, frame), opening),
                None => *self = Content::Bucket(bucket, None, opening),
            },
            other => *self = other,
        }
    }

    /// Makes a checkpoint: a file with these bytes takes the place of the bucket's own, which waits for the shell.
    pub(crate) fn make_checkpoint(&mut self, alloc: Global, next: Filed, bytes: Vec<u8>)
        ensures { (seed : ℕ) → CanReplace seed self.old next bytes.items →
            Makes (MakesCheckpoint seed) (Some self.old) (Some self.new) }
    {
        match mem::replace(self, Content::Batch(Batch::empty(alloc))) {
            Content::Bucket(bucket, filed, opening) => match filed {
                Some(filed) => {
                    *self = Content::Made(Made::replacing(bucket, filed, next, bytes), opening);
                }
                None => *self = Content::Bucket(bucket, None, opening),
            },
            other => *self = other,
        }
    }
}
