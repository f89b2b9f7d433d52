//! Processors of records, and their makers.
ghost use Rattle.std.specs.Prelude.{◌≡◌, List, [], ◌∷◌, IfOk, OnOk, OnErr, ◌<◌, length};
ghost use Rattle.kcl_defs.specs.declared.consumer.Ask.{Ask};
ghost use Rattle.kcl_defs.specs.declared.consumer.Call.{Call};
ghost use Rattle.kcl_defs.specs.declared.consumer.Call.TheVariants as call;
ghost use Rattle.kds_defs.specs.declared.reply.Stored.{Stored};

use kcl_defs::Ask;
use kds_base::{Checkpoint, Memory, ShardRef};
use kds_defs::Stored;
use std::alloc::Global;

/// Handles the records of a shard (Kinesis Client Library, ShardRecordProcessor). Contracts describe a processor by the
/// list of its completed calls. Each call that returns without an error is added to this list. An error means that the
/// call ran out of memory. The list is then unchanged, and the same call is made again.
pub trait Processor {
    /// Whether this is the list of the processor's completed calls, the newest first. A call that returned an error
    /// isn't in the list.
    ghost stands_for: { Self → List Call → Type 0 };

    /// Whether the processor may return this request for a checkpoint after this batch.
    ghost asks: { Self → List Stored → Ask → Type 0 };

    /// Tells the processor that its worker now holds the lease of the shard `key`. `start` is the lease's checkpoint at
    /// this moment.
    fn initialize(&mut self, key: ShardRef, start: Checkpoint) -> Result<(), Memory>
        ensures called { (calls : List Call) → stands_for self.old calls
            → OnOk result (stands_for self.new (call.Initialize key start ∷ calls)) }
        ensures kept { (calls : List Call) → stands_for self.old calls → OnErr result (stands_for self.new calls) }
        ensures steady { (batch : List Stored) (a : Ask) → asks self.new batch a → asks self.old batch a };

    /// Handles the next batch of records, and returns which checkpoint to set, if any (Kinesis Client Library,
    /// ProcessTask). Precondition: the batch isn't empty.
    fn process_records(&mut self, batch: &[Stored]) -> Result<Ask, Memory>
        requires { 0 < length batch.now }
        ensures called { (calls : List Call) → stands_for self.old calls
            → OnOk result (stands_for self.new (call.Process batch.now ∷ calls)) }
        ensures kept { (calls : List Call) → stands_for self.old calls → OnErr result (stands_for self.new calls) }
        ensures asked { IfOk result (λ a. asks self.old batch.now a) }
        ensures steady { (batch : List Stored) (a : Ask) → asks self.new batch a → asks self.old batch a };

    /// Tells the processor that its lease is lost. The processor can no longer set a checkpoint.
    fn lease_lost(&mut self) -> Result<(), Memory>
        ensures called { (calls : List Call) → stands_for self.old calls
            → OnOk result (stands_for self.new (call.LeaseLost ∷ calls)) }
        ensures kept { (calls : List Call) → stands_for self.old calls → OnErr result (stands_for self.new calls) }
        ensures steady { (batch : List Stored) (a : Ask) → asks self.new batch a → asks self.old batch a };

    /// Tells the processor that the shard is closed, and that the processor has been handed the shard's records up to
    /// the shard's end. After this call, the consumer sets the lease's checkpoint to the shard's end.
    fn shard_ended(&mut self) -> Result<(), Memory>
        ensures called { (calls : List Call) → stands_for self.old calls
            → OnOk result (stands_for self.new (call.ShardEnded ∷ calls)) }
        ensures kept { (calls : List Call) → stands_for self.old calls → OnErr result (stands_for self.new calls) }
        ensures steady { (batch : List Stored) (a : Ask) → asks self.new batch a → asks self.old batch a };
}

/// Makes the processor of a shard (Kinesis Client Library, ShardRecordProcessorFactory).
pub trait Maker<P: Processor> {
    /// Whether a processor of this maker may return this request for a checkpoint after this batch.
    ghost asks: { Self → List Stored → Ask → Type 0 };

    /// Returns a new processor for the shard `key`. No call of the processor has been made yet. The error means out of
    /// memory; the maker is then unchanged.
    fn make(&mut self, alloc: Global, key: ShardRef) -> Result<P, Memory>
        ensures uncalled { IfOk result (λ p. P.stands_for p []) }
        ensures kept { OnErr result (self.new ≡ self.old) }
        ensures asked { IfOk result (λ p. (batch : List Stored) (a : Ask) → P.asks p batch a → asks self.old batch a) }
        ensures steady { (batch : List Stored) (a : Ask) → (asks self.new batch a → asks self.old batch a)
            × (asks self.old batch a → asks self.new batch a) };
}
