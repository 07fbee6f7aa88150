//! The frames of what is told next.

ghost use Rattle.std.specs.Prelude.{◌≡◌, ◌⊎◌, ◌<◌, ◌^◌, ◌∷◌, [], ℕ, List, false, length, map, IfOk, OnErr, OnOk};
ghost use Rattle.kv_frames.specs.Frames.{ArePayloads, frames};
ghost use Rattle.kv_journal.specs.Entries.{payloads_of};
ghost use Rattle.kv_journal.specs.Records.{act_records, asked_records, closed, did, did_all};
ghost use Rattle.kv_model.specs.Acts.{Act, Compact, Seal, Wrote};
ghost use Rattle.kv_model.specs.Requests.{asked, value_of, write_for};
ghost use Rattle.kv_durable.specs.Journals.{AddsWrite, IsFrameOf, LeavesWrite, is_stopped};

use crate::journal::Journal;
use kv_file::JournalFile;
use kv_journal::{encode_batch, encode_closed, encode_compaction, encode_request, encode_seal};
use kv_model::Request;
use std::alloc::{AllocError, Global};

impl<F: JournalFile> Journal<F> {
    /// The frame of an accepted request that is added next.
    pub fn frame_of_write(&self, alloc: Global, request: &Request) -> Result<Vec<u8>, AllocError>
        requires { length (value_of (asked request.now)) < 2 ^ 31 }
        ensures is { IfOk result (λ v. (revision : ℕ) →
            IsFrameOf self.now (did (Wrote (write_for (asked request.now) revision))) v.items) }
        ensures short { IfOk result (λ v. length v.items < 2 ^ 33) }
    {
        let payload = encode_request(alloc, self.loose_ahead(), request)?;
        self.frame_of(alloc, &payload)
    }

    // Adds the record of an accepted request. Where the file fails, the journal is stopped.
    pub(crate) fn add_write(&mut self, alloc: Global, request: &Request) -> Result<(), AllocError>
        requires goes { is_stopped F.usable self.old ≡ false }
        requires short { length (value_of (asked request.now)) < 2 ^ 31 }
        ensures ok { OnOk result (AddsWrite F.has F.usable request.now self.old self.new) }
        ensures err { OnErr result ((self.new ≡ self.old)
            ⊎ LeavesWrite F.has F.usable F.faults request.now self.old self.new) }
    {
        let frame = self.frame_of_write(alloc, request)?;
        self.add(&frame).map_err(|_| AllocError)
    }

    /// The frame of a batch of accepted requests that is added next.
    pub fn frame_of_batch(&self, alloc: Global, requests: &[Request]) -> Result<Vec<u8>, AllocError>
        ensures is { IfOk result (λ v. (acts : List Act) → act_records acts ≡ asked_records (map asked requests.now) →
            IsFrameOf self.now (did_all acts) v.items) }
        ensures short { IfOk result (λ v. length v.items < 2 ^ 33) }
    {
        let payload = encode_batch(alloc, self.loose_ahead(), requests)?;
        self.frame_of(alloc, &payload)
    }

    /// The frame of a seal that is added next.
    pub fn frame_of_seal(&self, alloc: Global) -> Result<Vec<u8>, AllocError>
        ensures is { IfOk result (λ v. IsFrameOf self.now (did Seal) v.items) }
        ensures short { IfOk result (λ v. length v.items < 2 ^ 33) }
    {
        let payload = encode_seal(alloc, self.loose_ahead())?;
        self.frame_of(alloc, &payload)
    }

    /// The frame of a compaction that is added next.
    pub fn frame_of_compaction(&self, alloc: Global, floor: u64) -> Result<Vec<u8>, AllocError>
        ensures is { IfOk result (λ v. IsFrameOf self.now (did (Compact floor)) v.items) }
        ensures short { IfOk result (λ v. length v.items < 2 ^ 33) }
    {
        let payload = encode_compaction(alloc, self.loose_ahead(), floor)?;
        self.frame_of(alloc, &payload)
    }

    /// The frame of a clean end that is added next, when so many writes have been accepted.
    pub fn frame_of_end(&self, alloc: Global, last: u64) -> Result<Vec<u8>, AllocError>
        ensures is { IfOk result (λ v. IsFrameOf self.now (closed last) v.items) }
        ensures short { IfOk result (λ v. length v.items < 2 ^ 33) }
    {
        let payload = encode_closed(alloc, self.loose_ahead(), last)?;
        self.frame_of(alloc, &payload)
    }
}
