//! Acts as proofs see them.

ghost use Rattle.std.specs.Prelude.{◌≡◌};
ghost use Rattle.kv_model.specs.Acts.{Wrote, Seal, Compact};
ghost use Rattle.kv_model.specs.Requests.{asked, write_for};

use kv_model::Request;
use std::marker::Model;
use std::snapshot::Snapshot;

#[derive(Drop)]
enum Kind {
    Wrote(Snapshot<Request>, u64),
    Seal,
    Compact(u64),
}

/// An act that was accepted. It has no bytes of the write: contracts alone see which act it is.
#[derive(Drop)]
pub struct GhostAct {
    kind: Kind,
}

impl Model for GhostAct {
    ghost use Rattle.kv_model.specs.Acts.{Act};
    ghost use Rattle.kv_publish.specs.inside.GhostActs.{act_of};

    ghost Value = { Act };

    ghost view = { λ d. act_of d.kind };
}

impl GhostAct {
    /// The write for the request, at the revision.
    pub fn wrote(request: &Request, revision: u64) -> GhostAct
        ensures { result ≡ Wrote (write_for (asked request.now) revision) }
    {
        GhostAct {
            kind: Kind::Wrote(Snapshot::of(request), revision),
        }
    }

    /// A seal.
    pub fn seal() -> GhostAct
        ensures { result ≡ Seal }
    {
        GhostAct { kind: Kind::Seal }
    }

    /// A compaction to the floor.
    pub fn compact(floor: u64) -> GhostAct
        ensures { result ≡ Compact floor }
    {
        GhostAct {
            kind: Kind::Compact(floor),
        }
    }
}
