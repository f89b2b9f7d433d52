//! Puts records into a stream (PutRecord and PutRecords).
ghost use Rattle.std.specs.Prelude.{IfOk};
ghost use Rattle.kds_defs.specs.Lawful.{AreItems, IsItem};
ghost use Rattle.kds_defs.specs.PutCommands.{put, put_many};
ghost use Rattle.kds_stream.specs.Showing.{Decides};
ghost use Rattle.kds_stream.specs.Value.{ChangesIfAccepted};

use crate::stream::Stream;
use kds_base::{Items, Memory, Seq};
use kds_defs::{Answer, NewItem, Place, Refusal, Reply, Stored};
use kds_stream_logs::{Routes, count_at, item_bytes, put_all, put_at, restore_windows, route_all};
use std::collections::VecDeque;

impl Stream {
    /// Appends a record to the log of the open shard whose range contains the record's hash key (Kinesis API Reference,
    /// PutRecord, ProvisionedThroughputExceededException). The record gets the stream's next sequence number, and the
    /// stream's clock is its arrival time. The put is refused with `Throttled` if and only if the throughput limits are
    /// on and the record exceeds what the shard still accepts within the current second. Otherwise it is refused with
    /// `Spent` if the next sequence number is the greatest `u64`. If the put is refused or memory runs out, the stream
    /// is unchanged.
    pub fn put(&mut self, item: NewItem) -> Result<Answer, Memory>
        requires { IsItem item }
        ensures answered { IfOk result
            (λ a. Decides self.old self.new a (λ log actor. put log self.old.clock actor self.old.no item)) }
        ensures change { ChangesIfAccepted self.old self.new result }
    {
        let shard = self.tree.home(item.hash);
        let bytes = item_bytes(&item);
        if self.holds_back(shard, bytes) {
            return Ok(Err(Refusal::Throttled(shard)));
        }
        let seq = self.next;
        if seq.0 == u64::MAX {
            return Ok(Err(Refusal::Spent));
        }
        let record = Stored {
            seq,
            arrival: self.clock,
            key: item.key,
            payload: item.payload,
        };
        put_at(&mut self.logs, shard.0 as usize, record, self.cut)?;
        count_at(&mut self.windows, shard.0 as usize, self.clock, bytes);
        self.next = Seq(seq.0 + 1);
        self.clock_before = self.clock;
        self.cut_before = self.cut;
        Ok(Ok(Reply::Put(Place { shard, seq })))
    }

    /// Puts the records of one request in order, each as `put` does (Kinesis API Reference, PutRecords). Each accepted
    /// record is counted against its shard's limits before the next record is checked. The accepted records get
    /// consecutive sequence numbers. A record that its shard doesn't accept gets an error as its result, and no
    /// sequence number. All memory is allocated before the first record is stored. The request is refused with `Spent`
    /// if and only if the stream's next sequence number plus the number of accepted records is above the greatest
    /// `u64`. If the request is refused or memory runs out, the stream is unchanged.
    pub fn put_many(&mut self, items: Items<NewItem>) -> Result<Answer, Memory>
        requires { AreItems items }
        ensures answered { IfOk result
            (λ a. Decides self.old self.new a (λ log actor. put_many log self.old.clock actor self.old.no items)) }
        ensures change { ChangesIfAccepted self.old self.new result }
    {
        let alloc = *self.logs.allocator();
        let seq = self.next;
        let items = VecDeque::from_vec(items.into_vec());
        let made = route_all(
            alloc,
            &self.tree,
            &mut self.windows,
            self.enforced,
            items,
            seq.0,
            self.clock,
        )?;
        let Some(
            Routes {
                routed,
                places,
                outcomes,
                next,
                saved,
            },
        ) = made
        else {
            return Ok(Err(Refusal::Spent));
        };
        if let Err(memory) = put_all(&mut self.logs, routed, places.as_slice(), self.cut) {
            restore_windows(&mut self.windows, saved);
            return Err(memory);
        }
        self.next = Seq(next);
        self.clock_before = self.clock;
        self.cut_before = self.cut;
        Ok(Ok(Reply::PutMany(outcomes)))
    }
}
