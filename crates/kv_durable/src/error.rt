//! Why a call of a durable bucket was refused.

ghost use Rattle.std.specs.Prelude.{◌≡◌};
ghost use Rattle.kv_durable.specs.Refusals.{durable_code, durable_name};

use kv_file::{FileFault, OpenFault, ReplaceFault};
use kv_keys::KvError;
use kv_model::BatchRefused;
use std::alloc::AllocError;
use thiserror::Error;

/// Why a call of a durable bucket was refused: by the rules or for want of memory, as of a bucket without a file, or by its
/// file.
#[derive(Clone, Copy, Debug, PartialEq, Eq, Error)]
pub enum DurableError {
    /// The rules refuse it, or memory does. The file was not touched.
    #[error("{0}")]
    Refused(KvError),
    /// The file has failed, now or at an earlier call, or has 2^62 bytes. Nothing is added to it any more, unless it was a
    /// checkpoint that failed and left the old file in use.
    #[error("FileFault")]
    FileFault,
    /// The file was damaged after it had come onto the disk, or is no journal. Its bytes are good up to this offset.
    #[error("FileDamaged")]
    FileDamaged { at: u64 },
    /// Another process, or another opening in this one, has the file. A process that has ended has none.
    #[error("FileBusy")]
    FileBusy,
    /// The file is that of a bucket with another name, history or limit.
    #[error("OtherBucket")]
    OtherBucket,
}

impl DurableError {
    /// The number of the refusal: 1 to 21 of the rules, 22 to 26 of files.
    pub fn code(&self) -> u64
        ensures { result ≡ durable_code self.now }
    {
        match self {
            DurableError::Refused(error) => error.code(),
            DurableError::FileFault => 22,
            DurableError::FileDamaged { .. } => 23,
            DurableError::FileBusy => 24,
            DurableError::OtherBucket => 25,
        }
    }

    /// The name of the refusal.
    pub fn name(&self) -> &'static str
        ensures { result.now ≡ durable_name self.now }
    {
        match self {
            DurableError::Refused(error) => error.name(),
            DurableError::FileFault => "FileFault",
            DurableError::FileDamaged { .. } => "FileDamaged",
            DurableError::FileBusy => "FileBusy",
            DurableError::OtherBucket => "OtherBucket",
        }
    }
}

impl From<KvError> for DurableError {
    ghost use Rattle.std.specs.Prelude.{◌≡◌};
    ghost use Rattle.kv_durable.specs.declared.error.DurableError.TheVariants.{Refused};

    ghost from_gives = { λ from e. e ≡ Refused from };

    fn from(error: KvError) -> DurableError {
        DurableError::Refused(error)
    }
}

impl From<AllocError> for DurableError {
    ghost use Rattle.std.specs.Prelude.{◌≡◌};
    ghost use Rattle.kv_durable.specs.declared.error.DurableError.TheVariants.{Refused};
    ghost use Rattle.kv_keys.specs.declared.error.KvError.TheVariants.{OutOfMemory};

    ghost from_gives = { λ _ e. e ≡ Refused OutOfMemory };

    fn from(_error: AllocError) -> DurableError {
        DurableError::Refused(KvError::OutOfMemory)
    }
}

impl From<FileFault> for DurableError {
    ghost use Rattle.std.specs.Prelude.{◌≡◌};
    ghost use Rattle.kv_durable.specs.declared.error.DurableError.TheVariants.{FileFault};

    ghost from_gives = { λ _ e. e ≡ FileFault };

    fn from(_error: FileFault) -> DurableError {
        DurableError::FileFault
    }
}

impl From<ReplaceFault> for DurableError {
    ghost use Rattle.std.specs.Prelude.{◌≡◌};
    ghost use Rattle.kv_durable.specs.declared.error.DurableError.TheVariants.{FileFault};

    ghost from_gives = { λ _ e. e ≡ FileFault };

    fn from(_error: ReplaceFault) -> DurableError {
        DurableError::FileFault
    }
}

impl From<OpenFault> for DurableError {
    ghost use Rattle.std.specs.Prelude.{◌≡◌};
    ghost use Rattle.kv_durable.specs.Refusals.{refusal_of};

    ghost from_gives = { λ from e. e ≡ refusal_of from };

    fn from(error: OpenFault) -> DurableError {
        match error {
            OpenFault::Busy => DurableError::FileBusy,
            OpenFault::Failed => DurableError::FileFault,
        }
    }
}

/// Why none of several requests was done, that were asked for in one step: one of them is refused, or the file has failed.
#[derive(Clone, Copy, Debug, PartialEq, Eq, Error)]
pub enum BatchError {
    /// The rules refuse one of them, or memory does. The file was not touched.
    #[error("{0}")]
    Refused(BatchRefused),
    /// As `DurableError::FileFault`.
    #[error("FileFault")]
    FileFault,
}

impl From<BatchRefused> for BatchError {
    ghost use Rattle.std.specs.Prelude.{◌≡◌};
    ghost use Rattle.kv_durable.specs.declared.error.BatchError.TheVariants.{Refused};

    ghost from_gives = { λ from e. e ≡ Refused from };

    fn from(refused: BatchRefused) -> BatchError {
        BatchError::Refused(refused)
    }
}

impl From<FileFault> for BatchError {
    ghost use Rattle.std.specs.Prelude.{◌≡◌};
    ghost use Rattle.kv_durable.specs.declared.error.BatchError.TheVariants.{FileFault};

    ghost from_gives = { λ _ e. e ≡ FileFault };

    fn from(_error: FileFault) -> BatchError {
        BatchError::FileFault
    }
}
