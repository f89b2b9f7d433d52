//! The ring buffer of the batches that a consumer has read ahead. A batch stays in the ring until the consumer reports
//! the batch as processed, with the command Give.
ghost use Rattle.std.specs.Prelude.{ℕ, ◌≡◌, ◌+◌, ◌<◌, [], ◌∷◌, ◌++◌, length, IfOk, None, false};
ghost use Rattle.kds_defs.specs.declared.limits.TheConstants.{PENDING_READS};
ghost use Rattle.kcl_defs.specs.Consumers.{first_batch, front, stops_filling, over_at, first_has_records};
ghost use Rattle.kcl_consumer.specs.Aheads.{IsTaken};
ghost use Rattle.kcl_consumer.specs.Stages.{IsKept, stage_of};

use crate::stage::ConsumerStage;
use circular_buffer::HeapCircularBuffer;
use kcl_defs::Fetched;
use kds_base::Memory;
use kds_defs::Stored;
use kds_defs::limits::PENDING_READS;
use std::alloc::Global;
use std::marker::Model;

/// A ring of the batches that a consumer has read and not yet reported as processed (Kinesis Client Library,
/// PrefetchRecordsPublisher). A tenure (one worker's hold on a lease) may have at most eight unreported reads
/// (`PENDING_READS`). So the ring holds at most eight batches.
#[derive(Drop)]
pub struct Ahead {
    ring: HeapCircularBuffer<Fetched>,
}

impl Model for Ahead {
    ghost use Rattle.std.specs.Prelude.{◌≡◌, List};
    ghost use Rattle.kcl_defs.specs.declared.consumer.Fetched.{Fetched};
    ghost use Rattle.kds_defs.specs.declared.limits.TheConstants.{PENDING_READS};

    ghost Value = { List Fetched };

    ghost view = { λ a. a.ring.items };

    ghost invariant = { λ a. a.ring.capacity ≡ PENDING_READS };
}

impl Ahead {
    /// Returns an empty ring, with memory reserved for eight batches. The error means out of memory.
    pub fn new(alloc: Global) -> Result<Ahead, Memory>
        ensures { IfOk result (λ a. a ≡ []) }
    {
        Ok(Ahead {
            ring: HeapCircularBuffer::with_capacity(alloc, PENDING_READS as usize)?,
        })
    }

    /// Returns the records of the first batch in the ring, or an empty slice if the ring is empty.
    pub(crate) fn first_batch(&self) -> &[Stored]
        ensures { result.now ≡ first_batch self.now }
    {
        match self.ring.front() {
            Some(f) => f.batch.as_slice(),
            None => &[],
        }
    }

    /// Whether the ring has a first batch and this batch has records. Such a batch is handed to the processor before it
    /// is reported as processed. An empty batch is never handed to the processor.
    pub(crate) fn first_has_records(&self) -> bool
        ensures { result ≡ first_has_records self.now }
    {
        match self.ring.front() {
            Some(f) => !f.batch.as_slice().is_empty(),
            None => false,
        }
    }

    /// Whether the consumer stops reading and handles the first batch after the batch `f` has been added to the ring.
    /// The consumer does so if the ring is then full, if the read of `f` reached the shard's end, or if `f` has fewer
    /// records than a Read may return (`limit`).
    pub(crate) fn stops_filling(&self, f: &Fetched, limit: u32) -> bool
        ensures { result ≡ stops_filling limit (length self.now + 1) f.now }
    {
        PENDING_READS <= self.ring.len() as u64 + 1
            || f.ended
            || f.batch.as_slice().len() < limit as usize
    }

    /// Adds the batch `f` at the end of the ring. Precondition: the ring isn't full.
    pub(crate) fn add(&mut self, f: Fetched)
        requires { length self.old < PENDING_READS }
        ensures { self.new ≡ self.old ++ f ∷ [] }
    {
        match self.ring.try_push_back(f) {
            Ok(()) => {}
            Err(_) => {}
        }
    }

    /// Removes the first batch from the ring. Returns whether the read of this batch reached the shard's end, or `None`
    /// if the ring was empty.
    pub(crate) fn pop_first(&mut self) -> Option<bool>
        ensures { IsTaken self.old self.new result }
    {
        match self.ring.pop_front() {
            Some(f) => Some(f.ended),
            None => None,
        }
    }

    /// Returns the consumer's next stage, which depends on the first batch in the ring. A batch with records is handed
    /// to the processor next (`Holding`). An empty batch is reported as processed at once (`Giving`). If the ring is
    /// empty, the consumer reads on (`Filling`).
    pub(crate) fn front_stage(&self) -> ConsumerStage
        ensures stage { (reach : ℕ) → stage_of result reach self.now None false ≡ front reach self.now }
        ensures going { (reach : ℕ) → over_at (front reach self.now) ≡ None }
        ensures kept { IsKept result self.now }
    {
        match self.ring.front() {
            Some(f) => {
                if f.batch.as_slice().is_empty() {
                    ConsumerStage::Giving
                } else {
                    ConsumerStage::Holding
                }
            }
            None => ConsumerStage::Filling,
        }
    }
}
