//! Where the workers of a race write: a bucket that threads share.

ghost use Rattle.kv_race.specs.Telling.{IsTold};

use crate::worker::Writes;
use kv_bucket::{Live, LiveName, Receipt};
use kv_keys::KvError;
use kv_model::Request;
use std::sync::Wait;

/// A bucket that threads share, with what a write waits by.
#[derive(Drop)]
pub(crate) struct Desk<'a, N: LiveName, R> {
    live: &'a Live<N>,
    rt: &'a R,
}

impl<'a, N: LiveName, R> Desk<'a, N, R> {
    pub(crate) fn new(live: &'a Live<N>, rt: &'a R) -> Desk<'a, N, R> {
        Desk { live, rt }
    }
}

impl<'a, N: LiveName, R: Wait> Writes for Desk<'a, N, R> {
    type Receipt = Receipt<N>;

    ghost may_answer = { λ desk request answer left. IsTold N.opening.config request answer };

    fn write_told(&mut self, request: &Request) -> Result<(u64, Receipt<N>), KvError> {
        self.live.write_told(self.rt, request)
    }
}
