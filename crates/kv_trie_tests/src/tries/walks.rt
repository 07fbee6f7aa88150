//! Walks through all pairs of a trie.

ghost use Rattle.std.specs.Prelude.{◌≡◌};

use super::*;

// How many pairs were shown, and the sum of their values; at most so many are taken in.
#[derive(Drop)]
struct Counter {
    shown: u64,
    sum: u32,
    most: u64,
}

impl<K: Named> Visit<K, u32> for Counter {
    ghost shows = { λ old key value result new. new.most ≡ old.most };

    fn pair(&mut self, _key: &K, value: &u32) -> Result<(), KvError> {
        self.shown = self.shown.saturating_add(1);
        self.sum = self.sum.saturating_add(*value);
        if self.shown > self.most {
            return Err(KvError::JournalFull);
        }
        Ok(())
    }
}

// What a walk answers that takes in at most so many, how many it was shown, and the sum of their values.
pub(super) fn counted<K: Named>(trie: &Numbers<K>, most: u64) -> (Result<(), KvError>, u64, u32) {
    let mut counter = Counter {
        shown: 0,
        sum: 0,
        most,
    };
    let result = trie.each(&mut counter);
    (result, counter.shown, counter.sum)
}

pub(super) fn sum<K: Named>(trie: &Numbers<K>) -> u32 {
    counted(trie, MANY).2
}

const FIVE: &[(&str, u32)] = &[("a", 1), ("b", 2), ("aa", 3), ("zinke", 4), ("altarage", 5)];

// A walk through five keys shows each, or ends behind the first that it does not take in.
fn shows_five<K: Named>(rt: &impl Abort, alloc: Global) -> Result<(), KvError> {
    let five: Numbers<K> = built(alloc, FIVE)?;
    equal(rt, counted(&five, 5), (Ok(()), 5, 15));
    let (answer, shown, _) = counted(&five, 3);
    equal(rt, (answer, shown), (Err(KvError::JournalFull), 4));
    Ok(())
}

#[test]
fn a_walk_shows_each_pair_once(rt: HostRuntime) -> Result<(), Fail> {
    shows_five::<Key>(&rt, rt.alloc())?;
    shows_five::<Short>(&rt, rt.alloc())?;
    Ok(())
}
