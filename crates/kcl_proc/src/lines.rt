//! A processor that keeps the sequence numbers of the records that it is handed.
ghost use Rattle.std.specs.Prelude.{◌≡◌, ◌++◌, [], OnErr, OnOk};
ghost use Rattle.kcl_proc.specs.Numbers.{first_ask, numbers_of};

use kcl_consumer::Processor;
use kcl_defs::Ask;
use kds_base::{Checkpoint, Memory, Seq, ShardRef};
use kds_defs::Stored;
use std::alloc::Global;
use std::marker::Model;

/// A processor that keeps the sequence numbers of all records that it is handed, in order. After each batch it asks for
/// a checkpoint at the batch's first record. A call that runs out of memory changes nothing.
#[derive(Drop)]
pub struct Lines {
    numbers: Vec<Seq>,
}

impl Model for Lines {
    ghost use Rattle.std.specs.Prelude.{List, ℕ};

    ghost Value = { List ℕ };

    ghost view = { λ l. l.numbers.items };
}

/// Appends the sequence numbers of the batch's records to `numbers`. The error means out of memory; `numbers` is then
/// unchanged.
fn add_numbers(numbers: &mut Vec<Seq>, batch: &[Stored]) -> Result<(), Memory>
    ensures ok { OnOk result (numbers.new.items ≡ numbers.old.items ++ numbers_of batch.now) }
    ensures err { OnErr result (numbers.new.items ≡ numbers.old.items) }
{
    numbers.reserve(batch.len())?;
    for r in batch {
        numbers.push_reserved(r.seq);
    }
    Ok(())
}

/// Returns a request for a checkpoint at the batch's first record, or for no checkpoint if the batch is empty.
fn first_ask(batch: &[Stored]) -> Ask
    ensures { result ≡ first_ask batch.now }
{
    match batch {
        [r, ..] => Ask::At(r.seq),
        [] => Ask::None,
    }
}

impl Lines {
    /// Returns a processor that hasn't been handed any records.
    pub fn new(alloc: Global) -> Lines
        ensures { result ≡ [] }
    {
        Lines {
            numbers: Vec::new(alloc),
        }
    }

    /// Returns the sequence numbers of the records that this processor was handed, in order.
    pub fn numbers(&self) -> &[Seq]
        ensures { result.now ≡ self.now }
    {
        self.numbers.as_slice()
    }
}

impl Processor for Lines {
    ghost use Rattle.std.specs.Prelude.{◌≡◌};
    ghost use Rattle.kcl_proc.specs.Numbers.{first_ask, numbers_in};

    ghost stands_for = { λ p calls. p ≡ numbers_in calls };

    ghost asks = { λ p batch a. a ≡ first_ask batch };

    fn initialize(&mut self, _key: ShardRef, _start: Checkpoint) -> Result<(), Memory> {
        Ok(())
    }

    fn process_records(&mut self, batch: &[Stored]) -> Result<Ask, Memory> {
        add_numbers(&mut self.numbers, batch)?;
        Ok(first_ask(batch))
    }

    fn lease_lost(&mut self) -> Result<(), Memory> {
        Ok(())
    }

    fn shard_ended(&mut self) -> Result<(), Memory> {
        Ok(())
    }
}
