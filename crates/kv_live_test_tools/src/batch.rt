//! What a batch answers.

use kv_bucket::{BatchRefused, KvError};

/// Why a batch was refused, without the place of the request that was.
pub fn batched<T: Drop>(answered: Result<T, BatchRefused>) -> Result<T, KvError> {
    match answered {
        Ok(done) => Ok(done),
        Err(refused) => Err(refused.error),
    }
}
