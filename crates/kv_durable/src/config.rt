//! The configuration that a file has.

ghost use Rattle.std.specs.Prelude.{◌≡◌, IfErr, IfOk};
ghost use Rattle.kv_keys.specs.declared.error.KvError.TheVariants.{OutOfMemory};
ghost use Rattle.kv_model.specs.Configuration.{IsLegal};
ghost use Rattle.kv_durable.specs.declared.error.DurableError.TheVariants.{Refused};

use crate::error::DurableError;
use kv_model::Config;
use std::alloc::Global;

/// A legal configuration, kept for what a checkpoint begins with.
#[derive(Drop)]
pub(crate) struct OwnConfig {
    pub config: Config,
    ghost legal: { IsLegal config },
}

impl OwnConfig {
    pub(crate) fn copy_of(alloc: Global, config: &Config) -> Result<OwnConfig, DurableError>
        requires { IsLegal config.now }
        ensures ok { IfOk result (λ own. own.config ≡ config.now) }
        ensures err { IfErr result (λ e. e ≡ Refused OutOfMemory) }
    {
        let config = Config {
            bucket: String::from_str(alloc, config.bucket.as_str())?,
            history: config.history,
            value_limit: config.value_limit,
            write_limit: config.write_limit,
            revision_limit: config.revision_limit,
        };
        Ok(OwnConfig { config })
    }
}
