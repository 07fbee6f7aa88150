//! Keys that are put and removed, with and without snapshots that share nodes with the trie.

use super::driving::step;
use super::*;

// Two of the keys have one place. A key that is not there is removed from the full trie, and one from the empty one.
const TWELVE: &[Row] = &[
    (Step::Put("k0", 0), 1),
    (Step::Put("k1", 1), 2),
    (Step::Put("k2", 2), 3),
    (Step::Put("k3", 3), 4),
    (Step::Put("k4", 4), 5),
    (Step::Put("k5", 5), 6),
    (Step::Put("k6", 6), 7),
    (Step::Put("k7", 7), 8),
    (Step::Put("k8", 8), 9),
    (Step::Put("k9", 9), 10),
    (Step::Put("altarage", 10), 11),
    (Step::Put("zinke", 11), 12),
    (Step::Put("k0", 70), 12),
    (Step::Put("zinke", 71), 12),
    (Step::Remove("k10"), 12),
    (Step::Remove("k0"), 11),
    (Step::Remove("k1"), 10),
    (Step::Remove("k2"), 9),
    (Step::Remove("k9"), 8),
    (Step::Remove("k8"), 7),
    (Step::Remove("k7"), 6),
    (Step::Remove("altarage"), 5),
    (Step::Remove("k3"), 4),
    (Step::Remove("k4"), 3),
    (Step::Remove("k5"), 2),
    (Step::Remove("k6"), 1),
    (Step::Remove("zinke"), 0),
    (Step::Remove("zinke"), 0),
];

fn run<K: Named>(
    rt: &impl Abort,
    alloc: Global,
    trie: &mut Numbers<K>,
    beside: bool,
    rows: &[Row],
) -> Result<(), KvError> {
    let mut here = Trie::new();
    for row in rows {
        step(rt, alloc, trie, &mut here, beside, *row)?;
    }
    Ok(())
}

// In the end the trie is as new, and everything may begin again.
fn run_twice<K: Named>(rt: &impl Abort, alloc: Global, rows: &[Row]) -> Result<(), KvError> {
    let mut trie: Numbers<K> = Trie::new();
    run(rt, alloc, &mut trie, false, rows)?;
    assert!(rt; matches!(trie.root(), Node::Empty));
    run(rt, alloc, &mut trie, true, rows)
}

// Keys of places of their own, but for two.
#[test]
fn twelve_keys_come_and_go(rt: HostRuntime) -> Result<(), Fail> {
    run_twice::<Key>(&rt, rt.alloc(), TWELVE)?;
    Ok(())
}

// Keys of equal length have one place.
#[test]
fn twelve_keys_of_few_places_come_and_go(rt: HostRuntime) -> Result<(), Fail> {
    run_twice::<Short>(&rt, rt.alloc(), TWELVE)?;
    Ok(())
}

// Texts of one length.
pub(super) const HUNDRED: &[&str] = &[
    "00", "01", "02", "03", "04", "05", "06", "07", "08", "09", "10", "11", "12", "13", "14", "15",
    "16", "17", "18", "19", "20", "21", "22", "23", "24", "25", "26", "27", "28", "29", "30", "31",
    "32", "33", "34", "35", "36", "37", "38", "39", "40", "41", "42", "43", "44", "45", "46", "47",
    "48", "49", "50", "51", "52", "53", "54", "55", "56", "57", "58", "59", "60", "61", "62", "63",
    "64", "65", "66", "67", "68", "69", "70", "71", "72", "73", "74", "75", "76", "77", "78", "79",
    "80", "81", "82", "83", "84", "85", "86", "87", "88", "89", "90", "91", "92", "93", "94", "95",
    "96", "97", "98", "99",
];

fn put_each<K: Named>(
    rt: &impl Abort,
    alloc: Global,
    trie: &mut Numbers<K>,
    here: &mut Numbers<K>,
    names: &[&'static str],
) -> Result<(), KvError> {
    let mut count: u64 = 0;
    for name in names {
        count = count.saturating_add(1);
        step(rt, alloc, trie, here, false, (Step::Put(*name, 7), count))?;
    }
    Ok(())
}

fn remove_each<K: Named>(
    rt: &impl Abort,
    alloc: Global,
    trie: &mut Numbers<K>,
    here: &mut Numbers<K>,
    names: &[&'static str],
) -> Result<(), KvError> {
    let mut left = names.len() as u64;
    for name in names {
        left = left.saturating_sub(1);
        step(rt, alloc, trie, here, false, (Step::Remove(*name), left))?;
    }
    Ok(())
}

fn put_and_removed<K: Named>(
    rt: &impl Abort,
    alloc: Global,
    trie: &mut Numbers<K>,
    names: &[&'static str],
) -> Result<(), KvError> {
    let mut here = Trie::new();
    put_each(rt, alloc, trie, &mut here, names)?;
    remove_each(rt, alloc, trie, &mut here, names)
}

#[test]
fn a_hundred_keys_come_and_go(rt: HostRuntime) -> Result<(), Fail> {
    let mut trie: Numbers<Key> = Trie::new();
    put_and_removed(&rt, rt.alloc(), &mut trie, HUNDRED)?;
    Ok(())
}

#[test]
fn a_hundred_keys_of_one_place_come_and_go(rt: HostRuntime) -> Result<(), Fail> {
    let mut trie: Numbers<Short> = Trie::new();
    put_and_removed(&rt, rt.alloc(), &mut trie, HUNDRED)?;
    Ok(())
}
