//! Laws of feeds, over every sequence of calls on one.

ghost use Rattle.std.specs.Prelude.{◌≡◌, List, None};
ghost use Rattle.kv_model.specs.Acceptance.{IsLawful};
ghost use Rattle.kv_model.specs.Acts.{Act, Write, IsPrefix};
ghost use Rattle.kv_bucket.specs.FeedState.{FeedState, Step, HasLearned, HasGoneOn, IsRun, next_of, last_of, items_of, HandsOut};
ghost use Rattle.kv_bucket.specs.Owed.{Owes, HasOnce};

/// Whatever calls are made on a feed that has handed out nothing, and whatever other threads do in between: the items
/// that it hands out are, in order, the first of what it is given from its beginning by the acts that it last went on
/// to.
pub fn feed_hands_out_in_order()
    ensures { (feed : FeedState) (steps : List Step) →
        IsPrefix feed.began feed.acts → feed.handed ≡ 0 → IsRun feed steps →
        HandsOut (last_of feed steps) (items_of steps) }
{}

/// What a feed learned from a receipt is among the acts that it went on to, from its next refresh that is accepted on,
/// or the next `next` that went on by an act, whatever calls are made on it before and after.
pub fn learned_is_reached()
    ensures { (receipt : List Act) (feed learned refreshed : FeedState) (between later : List Step) →
        HasLearned receipt feed learned → IsRun learned between →
        HasGoneOn (last_of learned between) refreshed → IsRun refreshed later →
        IsPrefix receipt (last_of refreshed later).acts }
{}

/// Where a feed has no next item, a write that it went on to, that is live for it, matches and is shown was handed out
/// exactly once.
pub fn told_write_is_handed_out_once()
    ensures { (feed : FeedState) (steps : List Step) (told : List Act) (w : Write) →
        IsPrefix feed.began feed.acts → feed.handed ≡ 0 → IsRun feed steps →
        IsLawful feed.reader.config (last_of feed steps).acts → next_of (last_of feed steps) ≡ None →
        Owes (last_of feed steps) told w → HasOnce (last_of feed steps) w (items_of steps) }
{}
