//! A map with a held snapshot.

use super::*;
use kv_keys::{Key, KvError};
use kv_trie::Trie;

type Ports = Trie<Key, u16>;

// The ports with one more; 1000 at the most.
fn with_port(alloc: Global, ports: &Ports, name: &str, port: u16) -> Result<Ports, KvError> {
    if ports.len() >= 1000 {
        return Err(KvError::JournalFull);
    }
    ports.insert(alloc, Key::parse(alloc, name)?, port)
}

fn held_map(rt: &impl Abort, alloc: Global) -> Result<(), KvError> {
    let web = Key::parse(alloc, "web")?;
    let first = with_port(alloc, &Trie::new(), "web", 80)?;
    let held = first.snapshot()?;
    let second = with_port(alloc, &first, "web", 8080)?;

    assert_eq!(rt; held.get(&web), Some(&80));
    assert_eq!(rt; second.get(&web), Some(&8080));
    Ok(())
}

// The ports without one, which is gone.
fn without_port(
    rt: &impl Abort,
    alloc: Global,
    ports: &Ports,
    name: &str,
) -> Result<Ports, KvError> {
    let name = Key::parse(alloc, name)?;
    let left = ports.remove(alloc, &name)?;
    assert_eq!(rt; left.get(&name), None);
    Ok(left)
}

fn removed(rt: &impl Abort, alloc: Global) -> Result<(), KvError> {
    let one = with_port(alloc, &Trie::new(), "web", 80)?;
    let none = without_port(rt, alloc, &one, "web")?;
    assert_eq!(rt; (one.len(), none.len()), (1, 0));
    Ok(())
}

#[test]
fn a_held_snapshot_stays(rt: HostRuntime) -> Result<(), Fail> {
    Ok(once_more!(held_map(&rt, rt.alloc()))?)
}

#[test]
fn a_removed_key_is_gone(rt: HostRuntime) -> Result<(), Fail> {
    Ok(once_more!(removed(&rt, rt.alloc()))?)
}
