//! Watchers: threads that follow what is written.

ghost use Rattle.std.specs.Prelude.{◌≡◌, ℕ, ◌<◌, List, IfOk, IfErr, OnOk, OnErr};
ghost use Rattle.kv_keys.specs.declared.error.KvError.TheVariants.{OutOfMemory};
ghost use Rattle.kv_model.specs.Given.{Item};
ghost use Rattle.kv_race.specs.Watching.{Watch, Place, HandsOut, WritesDown};

use crate::gate::{Gate, Who};
use kv_keys::KvError;
use kv_single::Reply;
use std::alloc::Global;
use std::sync::Wait;

/// How often a watcher looks for what is new.
const ROUNDS: u64 = 64;

/// What a watcher follows. No call of it but `rest` is handed anything to wait with.
pub(crate) trait Follows {
    /// What it watches.
    ghost watch: { Self → Watch };

    /// Where it is: what it went on to.
    ghost place: { Self → Place };

    /// What it has handed out so far.
    ghost handed_out: { Self → List Item };

    /// How many items it has left to hand out before it goes on.
    ghost left: { Self → ℕ };

    /// Sleeps until there is something to go on to, or there will be nothing any more.
    fn rest<R: Wait>(&self, rt: &R);

    /// Goes on to what is there by now.
    fn go_on(&mut self) -> Result<(), KvError>
        ensures watch { watch self.new ≡ watch self.old }
        ensures handed_out { handed_out self.new ≡ handed_out self.old };

    /// Hands out a copy of the next item, if any is left. Refused for want of memory it keeps the item.
    fn hand_out(&mut self, alloc: Global) -> Result<Option<Reply>, KvError>
        ensures watch { watch self.new ≡ watch self.old }
        ensures place { place self.new ≡ place self.old }
        ensures ok { IfOk result
            (λ reply. HandsOut (handed_out self.old) (left self.old) reply (handed_out self.new) (left self.new)) }
        ensures err { IfErr result (λ e. e ≡ OutOfMemory) }
        ensures unchanged { OnErr result (handed_out self.new ≡ handed_out self.old) };
}

/// Writes down all that is left to be handed out.
pub(crate) fn collect<F: Follows>(
    alloc: Global,
    feed: &mut F,
    seen: &mut Vec<Reply>,
) -> Result<(), KvError>
    ensures watch { F.watch feed.new ≡ F.watch feed.old }
    ensures place { F.place feed.new ≡ F.place feed.old }
    ensures seen { WritesDown (F.handed_out feed.old) seen.old.items (F.handed_out feed.new) seen.new.items }
    ensures all { OnOk result (F.left feed.new ≡ 0) }
    ensures err { IfErr result (λ e. e ≡ OutOfMemory) }
{
    loop {
        seen.reserve(1)?;
        let Some(reply) = feed.hand_out(alloc)? else {
            return Ok(());
        };
        seen.push_reserved(reply);
    }
}

// One round: what was refused in it is left to the next one.
fn look<F: Follows>(alloc: Global, feed: &mut F, seen: &mut Vec<Reply>)
    ensures watch { F.watch feed.new ≡ F.watch feed.old }
    ensures seen { WritesDown (F.handed_out feed.old) seen.old.items (F.handed_out feed.new) seen.new.items }
{
    if feed.go_on().is_ok() {
        let _ = collect(alloc, feed, seen);
    }
}

/// Follows for 64 rounds, with the gate before and after each: goes on, and writes down all that is handed out. Where the
/// gate lets it, it sleeps before each.
pub(crate) fn follow<F: Follows, R: Wait, G: Gate>(
    rt: &R,
    alloc: Global,
    feed: &mut F,
    watcher: usize,
    seen: &mut Vec<Reply>,
    gate: &G,
)
    ensures watch { F.watch feed.new ≡ F.watch feed.old }
    ensures seen { WritesDown (F.handed_out feed.old) seen.old.items (F.handed_out feed.new) seen.new.items }
{
    for n in 0..ROUNDS {
        if gate.lets_sleep() {
            feed.rest(rt);
        }
        gate.before(Who::Watcher(watcher), n);
        look(alloc, feed, seen);
        gate.after(Who::Watcher(watcher), n);
    }
}
