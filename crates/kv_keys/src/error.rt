//! Refusals: why a call did not do what it was asked.

ghost use Rattle.std.specs.Prelude.{◌≡◌};

use std::alloc::{AllocError, AllocFailed};
use thiserror::Error;

/// Why a call was refused. Its text is its name.
#[derive(Clone, Copy, Debug, PartialEq, Eq, Error)]
pub enum KvError {
    /// A request for memory, or a thread of a race, was refused.
    #[error("OutOfMemory")]
    OutOfMemory,
    /// A bucket's name is not 1 to 64 letters, digits, `_` and `-`.
    #[error("BadBucket")]
    BadBucket,
    /// A number of the configuration is outside its limits.
    #[error("BadConfig")]
    BadConfig,
    /// A text is no key.
    #[error("BadKey")]
    BadKey,
    /// A text is no filter.
    #[error("BadFilter")]
    BadFilter,
    /// Two of history, updates and a start from a revision were asked for.
    #[error("OptionsClash")]
    OptionsClash,
    /// The value has more bytes than the bucket allows.
    #[error("ValueTooLarge")]
    ValueTooLarge,
    /// The bucket is sealed.
    #[error("Sealed")]
    Sealed,
    /// The bucket stores as many writes as it may, or its revisions are used up.
    #[error("JournalFull")]
    JournalFull,
    /// The latest entry of the key to be created is a put.
    #[error("KeyExists")]
    KeyExists,
    /// The last revision of the key is `last`, and not the one that the write asks for.
    #[error("WrongLastRevision")]
    WrongLastRevision { last: u64 },
    /// There is no such entry.
    #[error("KeyNotFound")]
    KeyNotFound,
    /// The number was never given, or its watch was stopped.
    #[error("NoSuchWatch")]
    NoSuchWatch,
    /// 64 watches are open, or all numbers were given.
    #[error("TooManyWatches")]
    TooManyWatches,
    /// The number of readers is not 1 to 32, or the reader store lets no reader in.
    #[error("NoReader")]
    NoReader,
    /// A line of a script is no command.
    #[error("BadCommand")]
    BadCommand,
    /// The reader failed, or gave no end within its bound of calls.
    #[error("ReadFault")]
    ReadFault,
    /// The writer failed, or took no byte.
    #[error("WriteFault")]
    WriteFault,
    /// No compaction can go to this floor.
    #[error("BadFloor")]
    BadFloor,
    /// The watch still owes an entry at or below the floor.
    #[error("WatchBehind")]
    WatchBehind { watch: u64 },
    /// The feed still owes an entry at or below the floor.
    #[error("Lagged")]
    Lagged { floor: u64 },
}

impl KvError {
    ghost use Rattle.kv_keys.specs.Refusals.{code_of, name_of};

    /// The number of the refusal, in answer lines.
    pub fn code(&self) -> u64
        ensures { result ≡ code_of self.now }
    {
        match self {
            KvError::OutOfMemory => 1,
            KvError::BadBucket => 2,
            KvError::BadConfig => 3,
            KvError::BadKey => 4,
            KvError::BadFilter => 5,
            KvError::OptionsClash => 6,
            KvError::ValueTooLarge => 7,
            KvError::Sealed => 8,
            KvError::JournalFull => 9,
            KvError::KeyExists => 10,
            KvError::WrongLastRevision { .. } => 11,
            KvError::KeyNotFound => 12,
            KvError::NoSuchWatch => 13,
            KvError::TooManyWatches => 14,
            KvError::NoReader => 15,
            KvError::BadCommand => 16,
            KvError::ReadFault => 17,
            KvError::WriteFault => 18,
            KvError::BadFloor => 19,
            KvError::WatchBehind { .. } => 20,
            KvError::Lagged { .. } => 21,
        }
    }

    /// The name of the refusal, in answer lines.
    pub fn name(&self) -> &'static str
        ensures { result.now ≡ name_of self.now }
    {
        match self {
            KvError::OutOfMemory => "OutOfMemory",
            KvError::BadBucket => "BadBucket",
            KvError::BadConfig => "BadConfig",
            KvError::BadKey => "BadKey",
            KvError::BadFilter => "BadFilter",
            KvError::OptionsClash => "OptionsClash",
            KvError::ValueTooLarge => "ValueTooLarge",
            KvError::Sealed => "Sealed",
            KvError::JournalFull => "JournalFull",
            KvError::KeyExists => "KeyExists",
            KvError::WrongLastRevision { .. } => "WrongLastRevision",
            KvError::KeyNotFound => "KeyNotFound",
            KvError::NoSuchWatch => "NoSuchWatch",
            KvError::TooManyWatches => "TooManyWatches",
            KvError::NoReader => "NoReader",
            KvError::BadCommand => "BadCommand",
            KvError::ReadFault => "ReadFault",
            KvError::WriteFault => "WriteFault",
            KvError::BadFloor => "BadFloor",
            KvError::WatchBehind { .. } => "WatchBehind",
            KvError::Lagged { .. } => "Lagged",
        }
    }
}

impl From<AllocError> for KvError {
    ghost use Rattle.std.specs.Prelude.{◌≡◌};
    ghost use Rattle.kv_keys.specs.declared.error.KvError.TheVariants.{OutOfMemory};

    ghost from_gives = { λ _ e. e ≡ OutOfMemory };

    fn from(_error: AllocError) -> KvError {
        KvError::OutOfMemory
    }
}

impl<T: Drop> From<AllocFailed<T>> for KvError {
    ghost use Rattle.std.specs.Prelude.{◌≡◌};
    ghost use Rattle.kv_keys.specs.declared.error.KvError.TheVariants.{OutOfMemory};

    ghost from_gives = { λ _ e. e ≡ OutOfMemory };

    fn from(_error: AllocFailed<T>) -> KvError {
        KvError::OutOfMemory
    }
}
