//! What the watchers of a race follow: feeds, which take no lock.

ghost use Rattle.std.specs.Prelude.{◌≡◌, ◌≤◌, ◌-◌, IfOk, IfErr, length, take};
ghost use Rattle.kv_model.specs.Acts.{IsPrefix};
ghost use Rattle.std.specs.Option.{option_map};
ghost use Rattle.kv_keys.specs.declared.error.KvError.TheVariants.{OutOfMemory};
ghost use Rattle.kv_watch.specs.Taking.{item_taken};
ghost use Rattle.kv_single.specs.Replies.{answer_of};
ghost use Rattle.kv_bucket.specs.FeedState.{IsRefreshed, IsNotRefreshed, given_by};
ghost use Rattle.kv_bucket.specs.ReaderState.{IsUnread};
ghost use Rattle.kv_race.specs.Watching.{reply_to};

use crate::never::never;
use crate::watcher::Follows;
use kv_bucket::{Feed, LiveName, Reply, Seen, Taken};
use kv_keys::KvError;
use std::alloc::Global;
use std::sync::Wait;

// A copy of what a take hands out.
fn copy_of(alloc: Global, taken: &Taken<'_>) -> Result<Option<Reply>, KvError>
    ensures ok { IfOk result (λ reply. option_map answer_of reply ≡ option_map reply_to (item_taken taken.now)) }
    ensures err { IfErr result (λ e. e ≡ OutOfMemory) }
{
    match taken {
        Taken::Entry(shown) => {
            let seen = Seen::of_shown(alloc, shown)?;
            Ok(Some(Reply::Entry(seen)))
        }
        Taken::Marker => Ok(Some(Reply::Marker)),
        Taken::Empty => Ok(None),
    }
}

/// Goes on to what is published. No race compacts, so that no feed of one lags behind; where one did, this would wait for
/// ever.
pub(crate) fn refresh<N: LiveName, R: Wait>(rt: &R, feed: &mut Feed<N>) -> Result<(), KvError>
    ensures ok { IfOk result (λ _. IsRefreshed feed.old feed.new) }
    ensures refused { IfErr result (λ e. IsUnread e × IsNotRefreshed feed.old feed.new) }
{
    match feed.refresh() {
        Ok(()) => Ok(()),
        Err(KvError::Lagged { .. }) => never(rt),
        Err(error) => Err(error),
    }
}

impl<N: LiveName> Follows for Feed<N> {
    ghost watch = { λ feed. record { config = feed.reader.config; began = feed.began; filters = feed.filters; options = feed.options } };

    ghost place = { λ feed. record { acts = feed.acts; seen = feed.reader.seen; told = feed.reader.told } };

    ghost handed_out = { λ feed. take feed.handed (given_by feed) };

    ghost left = { λ feed. length (given_by feed) - feed.handed };

    fn rest<R: Wait>(&self, rt: &R) {
        self.wait(rt);
    }

    #[tactic(auto, using(crate::proofs::Fed::went_on, crate::proofs::Fed::stayed))]
    fn go_on(&mut self) -> Result<(), KvError> {
        self.handed();
        self.refresh()
    }

    #[tactic(auto, using(crate::proofs::Fed::handed_on))]
    fn hand_out(&mut self, alloc: Global) -> Result<Option<Reply>, KvError> {
        self.handed();
        let taken = self.peek();
        let reply = copy_of(alloc, &taken)?;
        self.pass();
        Ok(reply)
    }
}
