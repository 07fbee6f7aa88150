//! Requests that are gathered, to be made in one step.

ghost use Rattle.std.specs.Prelude.{◌≡◌, ◌++◌, ◌∷◌, [], IfErr, IfOk, OnErr, OnOk, map};
ghost use Rattle.kv_keys.specs.declared.error.KvError.TheVariants.{OutOfMemory};
ghost use Rattle.kv_model.specs.Requests.{asked};

use kv_single::{KvError, Request};
use std::alloc::Global;
use std::marker::Model;

/// Requests, in the order in which they were gathered.
pub struct Batch {
    requests: Vec<Request>,
}

// Field by field: a derived drop makes each proof longer that owns a batch.
impl Drop for Batch {
    fn drop(self) {
        let Self { requests: _ } = self;
    }
}

impl Model for Batch {
    ghost use Rattle.std.specs.Prelude.{List, map};
    ghost use Rattle.kv_model.specs.Requests.{Asked, asked};

    ghost Value = { List Asked };

    ghost view = { λ b. map asked b.requests.items };
}

impl Batch {
    /// No request.
    pub(crate) fn empty(alloc: Global) -> Batch
        ensures { result ≡ [] }
    {
        Batch {
            requests: Vec::new(alloc),
        }
    }

    /// One request.
    pub(crate) fn of(alloc: Global, request: Request) -> Result<Batch, KvError>
        ensures ok { IfOk result (λ batch. batch ≡ asked request ∷ []) }
        ensures err { IfErr result (λ e. e ≡ OutOfMemory) }
    {
        let mut batch = Batch::empty(alloc);
        batch.add(request)?;
        Ok(batch)
    }

    /// One request more.
    pub(crate) fn add(&mut self, request: Request) -> Result<(), KvError>
        ensures ok { OnOk result (self.new ≡ self.old ++ asked request ∷ []) }
        ensures err { IfErr result (λ e. e ≡ OutOfMemory) }
        ensures unchanged { OnErr result (self.new ≡ self.old) }
    {
        self.requests.push(request)?;
        Ok(())
    }

    /// The requests.
    pub(crate) fn requests(&self) -> &[Request]
        ensures { map asked result.now ≡ self.now }
    {
        self.requests.as_slice()
    }
}
