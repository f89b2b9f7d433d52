//! A processor that counts records and bytes.
ghost use Rattle.std.specs.Prelude.{◌≡◌, min, length};
ghost use Rattle.kcl_proc.specs.Tallies.{most, payload_bytes};

use kcl_consumer::Processor;
use kcl_defs::Ask;
use kds_base::{Checkpoint, Memory, ShardRef};
use kds_defs::Stored;
use std::marker::Model;

/// A processor that counts records and the bytes of their payloads. After each batch it asks for a checkpoint at the
/// batch's last record. Each count stops at the greatest `u64`. The processor's calls need no memory.
#[derive(Drop)]
pub struct Tally {
    records: u64,
    bytes: u64,
}

impl Model for Tally {
    ghost use Rattle.kcl_proc.specs.Tallies.{Counts};

    ghost Value = { Counts };

    ghost view = { λ t. record { records = t.records; bytes = t.bytes } };
}

/// Returns the total number of payload bytes in the batch, or the greatest `u64` if the total is greater.
fn payload_bytes(batch: &[Stored]) -> u64
    ensures { result ≡ min (payload_bytes batch.now) most }
{
    let mut bytes = 0u64;
    for r in batch {
        bytes = bytes.saturating_add(r.payload.as_slice().len() as u64);
    }
    bytes
}

impl Tally {
    /// Returns a processor whose two counts are 0.
    pub fn new() -> Tally
        ensures { result ≡ record { records = 0; bytes = 0 } }
    {
        Tally {
            records: 0,
            bytes: 0,
        }
    }

    /// Returns how many records this processor was handed, at most the greatest `u64`.
    pub fn records(&self) -> u64
        ensures { result ≡ self.now.records }
    {
        self.records
    }

    /// Returns the total number of payload bytes in the records that this processor was handed, at most the greatest
    /// `u64`.
    pub fn bytes(&self) -> u64
        ensures { result ≡ self.now.bytes }
    {
        self.bytes
    }
}

impl Processor for Tally {
    ghost use Rattle.std.specs.Prelude.{◌≡◌};
    ghost use Rattle.kcl_proc.specs.Tallies.{counts_of};
    ghost use Rattle.kcl_defs.specs.declared.consumer.Ask.TheVariants as ask;

    ghost stands_for = { λ p calls. p ≡ counts_of calls };

    ghost asks = { λ p batch a. a ≡ ask.Last };

    fn initialize(&mut self, _key: ShardRef, _start: Checkpoint) -> Result<(), Memory> {
        Ok(())
    }

    fn process_records(&mut self, batch: &[Stored]) -> Result<Ask, Memory> {
        self.records = self.records.saturating_add(batch.len() as u64);
        self.bytes = self.bytes.saturating_add(payload_bytes(batch));
        Ok(Ask::Last)
    }

    fn lease_lost(&mut self) -> Result<(), Memory> {
        Ok(())
    }

    fn shard_ended(&mut self) -> Result<(), Memory> {
        Ok(())
    }
}
