//! Answers without entries.

ghost use Rattle.std.specs.Prelude.{◌≡◌, ◌++◌, OnOk, OnErr};
ghost use Rattle.kv_script.specs.Text.{revision_text, sealed_text, compacted_text, watch_text, marker_text, empty_text, stopped_text, told_text};

use crate::answering::field::{Field, append_object};
use std::alloc::{AllocError, Global};

/// An accepted write.
#[tactic(auto, using(crate::proofs::Lines::revision_line))]
pub fn append_revision(alloc: Global, out: &mut Vec<u8>, revision: u64) -> Result<(), AllocError>
    ensures ok { OnOk result (out.new.items ≡ out.old.items ++ revision_text revision) }
    ensures err { OnErr result (out.new.items ≡ out.old.items) }
{
    append_object(alloc, out, &[Field::Number("revision", revision)])
}

/// A seal.
#[tactic(auto, using(crate::proofs::Lines::sealed_line))]
pub fn append_sealed(alloc: Global, out: &mut Vec<u8>) -> Result<(), AllocError>
    ensures ok { OnOk result (out.new.items ≡ out.old.items ++ sealed_text) }
    ensures err { OnErr result (out.new.items ≡ out.old.items) }
{
    append_object(alloc, out, &[Field::Truth("sealed", true)])
}

/// A compaction, by its floor.
#[tactic(auto, using(crate::proofs::Lines::compacted_line))]
pub fn append_compacted(alloc: Global, out: &mut Vec<u8>, floor: u64) -> Result<(), AllocError>
    ensures ok { OnOk result (out.new.items ≡ out.old.items ++ compacted_text floor) }
    ensures err { OnErr result (out.new.items ≡ out.old.items) }
{
    append_object(alloc, out, &[Field::Number("compacted", floor)])
}

/// A new watch, by its number.
#[tactic(auto, using(crate::proofs::Lines::watch_line))]
pub fn append_watch(alloc: Global, out: &mut Vec<u8>, watch: u64) -> Result<(), AllocError>
    ensures ok { OnOk result (out.new.items ≡ out.old.items ++ watch_text watch) }
    ensures err { OnErr result (out.new.items ≡ out.old.items) }
{
    append_object(alloc, out, &[Field::Number("watch", watch)])
}

/// The end of the initial entries of a watch.
#[tactic(auto, using(crate::proofs::Lines::marker_line))]
pub fn append_marker(alloc: Global, out: &mut Vec<u8>, watch: u64) -> Result<(), AllocError>
    ensures ok { OnOk result (out.new.items ≡ out.old.items ++ marker_text watch) }
    ensures err { OnErr result (out.new.items ≡ out.old.items) }
{
    append_object(
        alloc,
        out,
        &[Field::Truth("marker", true), Field::Number("watch", watch)],
    )
}

/// A watch has nothing more to hand out by now.
#[tactic(auto, using(crate::proofs::Lines::empty_line))]
pub fn append_empty(alloc: Global, out: &mut Vec<u8>, watch: u64) -> Result<(), AllocError>
    ensures ok { OnOk result (out.new.items ≡ out.old.items ++ empty_text watch) }
    ensures err { OnErr result (out.new.items ≡ out.old.items) }
{
    append_object(
        alloc,
        out,
        &[Field::Truth("empty", true), Field::Number("watch", watch)],
    )
}

/// A stop, and how many items the watch handed out.
pub fn append_stopped(
    alloc: Global,
    out: &mut Vec<u8>,
    watch: u64,
    handed: u64,
) -> Result<(), AllocError>
    ensures ok { OnOk result (out.new.items ≡ out.old.items ++ stopped_text watch handed) }
    ensures err { OnErr result (out.new.items ≡ out.old.items) }
{
    append_object(
        alloc,
        out,
        &[
            Field::Number("handed", handed),
            Field::Number("stopped", watch),
        ],
    )
}

/// An accepted write of a worker of a race. Workers count from 1.
#[tactic(auto, using(crate::proofs::Lines::told_line))]
pub fn append_told(
    alloc: Global,
    out: &mut Vec<u8>,
    worker: u64,
    revision: u64,
) -> Result<(), AllocError>
    ensures ok { OnOk result (out.new.items ≡ out.old.items ++ told_text worker revision) }
    ensures err { OnErr result (out.new.items ≡ out.old.items) }
{
    append_object(
        alloc,
        out,
        &[
            Field::Number("revision", revision),
            Field::Number("worker", worker),
        ],
    )
}
