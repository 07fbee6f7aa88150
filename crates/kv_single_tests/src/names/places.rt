//! Places of keys, by the published values of FNV-1a.

use super::*;

// `altarage` and `zinke` are two keys of one place.
const HASHES: &[(&str, u32)] = &[
    ("a", 0xe40c292c),
    ("al", 0x3f24efc0),
    ("foobar", 0xbf9cf968),
    ("altarag", 0xbd1b8e57),
    ("zink", 0xbd1b8e57),
    ("altarage", 0xe460d8b6),
    ("zinke", 0xe460d8b6),
];

// The empty text has a hash too; it is no key.
#[test]
fn places_are_the_published_hashes(rt: HostRuntime) -> Result<(), Fail> {
    equal(&rt, fnv32(b""), 0x811c9dc5);
    for (text, hash) in HASHES {
        let key: Key = made(rt.alloc(), text)?;
        equal(&rt, fnv32(text.as_bytes()), *hash);
        equal(&rt, key.place(), *hash);
        equal(&rt, Short(key).place() as u64, text.len() as u64);
    }
    Ok(())
}
