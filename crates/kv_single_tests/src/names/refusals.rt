//! Numbers, names and texts of the refusals.

use super::*;

fn shown(alloc: Global, error: KvError) -> Result<String, AllocError> {
    Ok(error.to_string(alloc)?)
}

const REFUSALS: &[(KvError, u64, &str)] = &[
    (KvError::OutOfMemory, 1, "OutOfMemory"),
    (KvError::BadBucket, 2, "BadBucket"),
    (KvError::BadConfig, 3, "BadConfig"),
    (KvError::BadKey, 4, "BadKey"),
    (KvError::BadFilter, 5, "BadFilter"),
    (KvError::OptionsClash, 6, "OptionsClash"),
    (KvError::ValueTooLarge, 7, "ValueTooLarge"),
    (KvError::Sealed, 8, "Sealed"),
    (KvError::JournalFull, 9, "JournalFull"),
    (KvError::KeyExists, 10, "KeyExists"),
    (
        KvError::WrongLastRevision { last: 5 },
        11,
        "WrongLastRevision",
    ),
    (KvError::KeyNotFound, 12, "KeyNotFound"),
    (KvError::NoSuchWatch, 13, "NoSuchWatch"),
    (KvError::TooManyWatches, 14, "TooManyWatches"),
    (KvError::NoReader, 15, "NoReader"),
    (KvError::BadCommand, 16, "BadCommand"),
    (KvError::ReadFault, 17, "ReadFault"),
    (KvError::WriteFault, 18, "WriteFault"),
    (KvError::BadFloor, 19, "BadFloor"),
    (KvError::WatchBehind { watch: 5 }, 20, "WatchBehind"),
    (KvError::Lagged { floor: 5 }, 21, "Lagged"),
];

#[test]
fn each_refusal_has_its_code_and_name(rt: HostRuntime) -> Result<(), Fail> {
    for (error, code, name) in REFUSALS {
        equal(&rt, error.code(), *code);
        equal(&rt, error.name(), *name);
        let text = once_more!(shown(rt.alloc(), *error))?;
        equal(&rt, text.as_str(), *name);
    }
    Ok(())
}
