//! The log of one shard.
ghost use Rattle.std.specs.Prelude.{◌≡◌, ◌≢◌, ◌+◌, ◌++◌, ◌∷◌, [], ◌<◌, ◌≤◌, map, Some, None, IfOk, IfSome, OnOk, OnErr};
ghost use Rattle.std.specs.List.{AllByRecursion};
ghost use Rattle.kds_defs.specs.declared.limits.TheConstants.{BATCH_BYTES};
ghost use Rattle.kds_defs.specs.Records.{beginning, left_among, logged, numbers_of, stored};
ghost use Rattle.kds_defs.specs.Streams.{floor_of};
ghost use Rattle.kds_log.specs.Log.{first_arrival, first_number, log_of, since, FirstFits, IsLeast, IsOrderly};

use crate::batch::batch_from;
use crate::record::floor_of;
use crate::search::{drop_below, first_index, first_since};
use kds_base::{Items, Memory, Moment, Seq};
use kds_defs::Stored;
use std::alloc::Global;
use std::collections::VecDeque;
use std::marker::Model;

/// The log of a shard: the records that are still kept, in the order of their sequence numbers. A record that arrived
/// at or before the trim horizon counts as trimmed, even while the log still keeps it. Contracts see three values: the
/// kept records, the greatest sequence number ever appended, and the number of further records for which memory is
/// reserved.
#[derive(Drop)]
pub struct ShardLog {
    records: VecDeque<Stored>,
    last: Option<Seq>,
    /// The number of further records for which memory is reserved.
    reserved: usize,
}

impl Model for ShardLog {
    ghost use Rattle.std.specs.Prelude.{◌-◌, ◌≤◌, map};
    ghost use Rattle.std.specs.VecDeque.{deque_capacity, deque_len};
    ghost use Rattle.kds_defs.specs.Records.{logged};
    ghost use Rattle.kds_log.specs.Log.{LogWithReserve, IsOrderly};

    ghost Value = { LogWithReserve };

    ghost view = { λ l. record { kept = map logged l.records.items; last = l.last; reserved = l.reserved } };

    ghost invariant = { λ l. IsOrderly (record { kept = map logged l.records.items; last = l.last })
        × (l.reserved ≤ deque_capacity l.records - deque_len l.records) };
}

impl ShardLog {
    /// Returns the empty log of a new shard. `_start` is the shard's starting sequence number, which is at most the
    /// sequence number of each future record. The empty log doesn't depend on `_start`.
    pub fn new(alloc: Global, _start: Seq) -> ShardLog
        ensures { log_of result ≡ record { kept = []; last = None } }
    {
        ShardLog {
            records: VecDeque::new(alloc),
            last: None,
            reserved: 0,
        }
    }

    /// Appends a record. Precondition: the sequence number of the record is greater than every sequence number appended
    /// before, and the record arrived no earlier than any kept record. If memory runs out, the log is unchanged. In
    /// either case, all reservations of memory are given up.
    pub fn append(&mut self, item: Stored) -> Result<(), Memory>
        requires number { IfSome self.old.last (λ n. n < item.seq) }
        requires arrival { AllByRecursion (λ r. r.arrival ≤ item.arrival) self.old.kept }
        ensures ok { OnOk result (log_of self.new ≡ record {
          kept = self.old.kept ++ logged item ∷ [];
          last = Some item.seq;
        }) }
        ensures err { OnErr result (log_of self.new ≡ log_of self.old) }
    {
        let seq = item.seq;
        self.reserved = 0;
        match self.records.push_back(item) {
            Ok(()) => {
                self.last = Some(seq);
                Ok(())
            }
            Err(_) => Err(Memory),
        }
    }

    /// Reserves memory for one further record, in addition to earlier reservations. The records in the log are
    /// unchanged, even if memory runs out.
    pub fn reserve_one(&mut self) -> Result<(), Memory>
        ensures same { log_of self.new ≡ log_of self.old }
        ensures reserved { OnOk result (self.new.reserved ≡ self.old.reserved + 1) }
    {
        let reserved = self.reserved + 1;
        self.records.reserve(reserved)?;
        self.reserved = reserved;
        Ok(())
    }

    /// Gives up all reservations of memory. The records in the log are unchanged.
    pub fn release(&mut self)
        ensures same { log_of self.new ≡ log_of self.old }
        ensures none { self.new.reserved ≡ 0 }
    {
        self.reserved = 0;
    }

    /// Appends a record as `append` does, but in memory that `reserve_one` reserved, so memory can't run out.
    /// Preconditions: memory is reserved for at least one record, and the precondition of `append` is met. One
    /// reservation is used up.
    pub fn append_reserved(&mut self, item: Stored)
        requires reserved { 1 ≤ self.old.reserved }
        requires number { IfSome self.old.last (λ n. n < item.seq) }
        requires arrival { AllByRecursion (λ r. r.arrival ≤ item.arrival) self.old.kept }
        ensures value { log_of self.new ≡ record { kept = self.old.kept ++ logged item ∷ []; last = Some item.seq } }
        ensures reserved { self.new.reserved + 1 ≡ self.old.reserved }
    {
        self.last = Some(item.seq);
        self.records.push_back_reserved(item);
        self.reserved -= 1;
    }

    /// Removes exactly the records that arrived at or before the trim horizon `cut`. All reservations of memory are
    /// given up. If no record is left, the log keeps no memory.
    pub fn trim(&mut self, cut: Moment)
        ensures none { self.new.reserved ≡ 0 }
        ensures value { log_of self.new ≡ record {
          kept = left_among (floor_of (Some cut)) 0 self.old.kept;
          last = self.old.last;
        } }
    {
        self.reserved = 0;
        drop_below(&mut self.records, floor_of(Some(cut)));
    }

    /// Returns the batch of a read at the sequence number `position` (Kinesis API Reference, GetRecords). `cut` is the
    /// trim horizon. The batch is the longest run of untrimmed records from `position` on that stays within two limits:
    /// it has at most `limit` records, and their payloads and partition keys together have at most `BATCH_BYTES` bytes.
    /// The batch isn't empty if `limit` is at least 1, there is an untrimmed record from `position` on, and the first
    /// such record has at most `BATCH_BYTES` bytes.
    pub fn batch(
        &self,
        alloc: Global,
        cut: Option<Moment>,
        position: u64,
        limit: u32,
    ) -> Result<Items<Stored>, Memory>
        ensures value { IfOk result
            (λ b. b ≡ map stored (beginning limit BATCH_BYTES (left_among (floor_of cut) position self.now.kept))) }
        ensures some { 1 ≤ limit → FirstFits BATCH_BYTES (left_among (floor_of cut) position self.now.kept)
            → IfOk result (λ b. b ≢ []) }
        ensures orderly { IsOrderly (log_of self.now) }
    {
        let start = first_index(&self.records, floor_of(cut), position);
        batch_from(alloc, &self.records, start, limit)
    }

    /// Returns the arrival time of the first untrimmed record whose sequence number is at least `position`, or `None`
    /// if there is no such record. `cut` is the trim horizon.
    pub fn first_left(&self, cut: Option<Moment>, position: u64) -> Option<Moment>
        ensures value { result ≡ first_arrival (left_among (floor_of cut) position self.now.kept) }
        ensures orderly { IsOrderly (log_of self.now) }
    {
        let start = first_index(&self.records, floor_of(cut), position);
        match self.records.get(start) {
            Some(item) => Some(item.arrival),
            None => None,
        }
    }

    /// Returns the least sequence number of the untrimmed records that arrived at or after `moment`, or `None` if there
    /// is no such record (Kinesis API Reference, GetShardIterator, AT_TIMESTAMP). `cut` is the trim horizon.
    pub fn at_time(&self, cut: Option<Moment>, moment: Moment) -> Option<Seq>
        ensures least { IsLeast (numbers_of (since moment (left_among (floor_of cut) 0 self.now.kept))) result }
        ensures value { result ≡ first_number (since moment (left_among (floor_of cut) 0 self.now.kept)) }
        ensures orderly { IsOrderly (log_of self.now) }
    {
        first_since(&self.records, floor_of(cut).max(moment.ms()))
    }

    /// Returns the greatest sequence number that was ever appended, even if its record has been trimmed. Returns `None`
    /// if no record was ever appended.
    pub fn last(&self) -> Option<Seq>
        ensures value { result ≡ self.now.last }
        ensures orderly { IsOrderly (log_of self.now) }
    {
        self.last
    }
}
