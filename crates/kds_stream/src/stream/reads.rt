//! Issues shard iterators, reads records, and lists the shards of a stream. A shard is listed if it was made and hasn't
//! expired.
ghost use Rattle.std.specs.Prelude.{◌≡◌, ◌++◌, ◌-◌, ◌^◌, ◌<◌, ℕ, map, slice_get, true, IfOk, IfSome, OnOk};
ghost use Rattle.std.specs.List.{AllByRecursion};
ghost use Rattle.std.specs.Option.{option_map};
ghost use Rattle.kds_defs.specs.Histories.{answer_of};
ghost use Rattle.kds_defs.specs.Journal.{Journal};
ghost use Rattle.kds_defs.specs.Keys.{ref};
ghost use Rattle.kds_defs.specs.Lawful.{IsLimit};
ghost use Rattle.kds_defs.specs.Listings.{get_iterator, get_records, list_shards, more, refs_of};
ghost use Rattle.kds_defs.specs.Origins.{origin_position};
ghost use Rattle.kds_defs.specs.Records.{batch, stored};
ghost use Rattle.kds_defs.specs.Shards.{listed_among, shown};
ghost use Rattle.kds_defs.specs.Streams.{floor_of};
ghost use Rattle.kds_stream.specs.ReadEnds.{read_ends};
ghost use Rattle.kds_stream.specs.Showing.{Shows};
ghost use Rattle.kds_stream_logs.specs.Logs.{IsUnder};
ghost use Rattle.kds_stream.specs.Value.{is_listed_at, listed_at};

use crate::stream::Stream;
use kds_base::{Items, Memory, ShardNo, ShardRef};
use kds_defs::{Answer, Iter, Origin, Page, Refusal, Reply, Shard, Start, Stored};
use kds_stream_logs::{batch_at, is_end, last_no, millis_behind, origin_position, position};
use kds_token::{iter_expired, page_expired};
use std::alloc::Global;

impl Stream {
    /// Returns the shard with the number `no`, or `None` if this shard was never made or has expired.
    fn listed(&self, no: ShardNo) -> Option<Shard>
        ensures value { result ≡ option_map shown (listed_at (floor_of self.now.cut) (slice_get self.now.tree no)) }
        ensures under { IfSome result (λ x. IsUnder self.now.next x.end) }
    {
        if self.tree.expired(no, self.cut) {
            return None;
        }
        self.tree.shard(no).copied()
    }

    /// Whether shard `no` is listed: it was made, and it wasn't closed at or before the trim horizon.
    pub fn is_listed(&self, no: ShardNo) -> bool
        ensures { result ≡ is_listed_at (floor_of self.now.cut) (slice_get self.now.tree no) }
    {
        self.listed(no).is_some()
    }

    /// Appends the keys of the stream's listed (unexpired) shards to `keys`, in the order of the shards' numbers. The
    /// key of a shard consists of the number of its stream and the number of the shard.
    pub fn add_listed(&self, keys: &mut Items<ShardRef>) -> Result<(), Memory>
        ensures { OnOk result (keys.new ≡ keys.old
            ++ refs_of self.now.no (listed_among (floor_of self.now.cut) self.now.tree)) }
    {
        self.tree.add_listed(self.cut, self.no, keys)
    }

    /// Returns a shard iterator, issued at the stream's clock, for the position in the shard that `from` selects
    /// (Kinesis API Reference, GetShardIterator). The call is refused with `NoShard` if the shard was never made or has
    /// expired, and with `BadNumber` if `from` names a sequence number that doesn't belong to the shard.
    pub fn iterator(&self, shard: ShardNo, from: Start) -> Answer
        ensures { (log : Journal) → Shows self.now log
            → result ≡ answer_of (get_iterator log self.now.clock self.now.no shard from) }
    {
        let Some(state) = self.listed(shard) else {
            return Err(Refusal::NoShard);
        };
        let log = &self.logs[shard.0 as usize];
        match position(from, self.next, &state, log, self.cut) {
            Some(position) => Ok(Reply::Iterator(Iter {
                stream: self.no,
                shard,
                position,
                issued: self.clock,
            })),
            None => Err(Refusal::BadNumber),
        }
    }

    /// Reads at most `limit` records from the iterator's position on (Kinesis API Reference, GetRecords). The reply has
    /// the records, the reader's lag, and the next iterator. At the end of a closed shard, the reply has the children
    /// of the shard instead of the next iterator. Precondition: the iterator belongs to this stream. The read is
    /// refused with `Expired` if the iterator is too old, and with `NoShard` if the iterator's shard was never made or
    /// has expired.
    pub fn records(&self, alloc: Global, iter: &Iter, limit: u32) -> Result<Answer, Memory>
        requires stream { iter.now.stream ≡ self.now.no }
        requires limit { IsLimit limit }
        ensures { (log : Journal) → Shows self.now log
            → IfOk result (λ a. a ≡ answer_of (get_records log self.now.clock iter.now limit)) }
    {
        if iter_expired(iter, self.clock) {
            return Ok(Err(Refusal::Expired));
        }
        let Some(shard) = self.listed(iter.shard) else {
            return Ok(Err(Refusal::NoShard));
        };
        let no = iter.shard;
        let log = &self.logs[no.0 as usize];
        let (batch, reach) = batch_at(log, alloc, self.cut, iter.position, limit)?;
        let left = log.first_left(self.cut, reach);
        let end = is_end(&shard, left.is_none());
        let behind = millis_behind(self.clock, left);
        if end {
            let children = self.tree.children(no)?;
            return Ok(Ok(Reply::Records {
                batch,
                next: None,
                behind,
                children,
            }));
        }
        let next = Iter {
            stream: self.no,
            shard: no,
            position: reach,
            issued: self.clock,
        };
        Ok(Ok(Reply::Records {
            batch,
            next: Some(next),
            behind,
            children: Items::new(alloc),
        }))
    }

    /// Returns a page of the stream's listed (unexpired) shards (Kinesis API Reference, ListShards). The page begins
    /// after the shard `after`, and has at most `limit` shards. The reply has a token for the next page if more listed
    /// shards follow.
    pub fn shards(&self, after: Option<ShardNo>, limit: u32) -> Result<Answer, Memory>
        requires { IsLimit limit }
        ensures { (log : Journal) → Shows self.now log
            → IfOk result (λ a. a ≡ answer_of (list_shards log self.now.clock self.now.no after limit)) }
    {
        let (shards, more) = self.tree.listed(self.cut, after, limit)?;
        let page = Page {
            stream: self.no,
            after: last_no(shards.as_slice()),
            issued: self.clock,
        };
        Ok(Ok(Reply::Shards {
            shards,
            next: more.then_some(page),
        }))
    }

    /// Returns the next page of a listing of this stream's shards (Kinesis API Reference, ListShards, NextToken). The
    /// page begins at the position in the token `page`, and has at most `limit` shards. Precondition: the token belongs
    /// to this stream. The call is refused with `PageExpired` if the token is too old.
    pub fn more(&self, page: &Page, limit: u32) -> Result<Answer, Memory>
        requires stream { page.now.stream ≡ self.now.no }
        requires limit { IsLimit limit }
        ensures { (log : Journal) → Shows self.now log
            → IfOk result (λ a. a ≡ answer_of (more log self.now.clock page.now limit)) }
    {
        if page_expired(page, self.clock) {
            return Ok(Err(Refusal::PageExpired));
        }
        self.shards(Some(page.after), limit)
    }

    /// Returns the position at which the reading of a listed (unexpired) shard begins, as a sequence number (Kinesis
    /// API Reference, GetShardIterator, ShardIteratorType). If `from` is TRIM_HORIZON, the position is 0. If `from` is
    /// LATEST, the position is the stream's next sequence number. If `from` is a time, the position is the sequence
    /// number of the first untrimmed record that arrived at or after this time, or the stream's next sequence number if
    /// there is no such record.
    pub fn position(&self, shard: ShardNo, from: Origin) -> u64
        requires { is_listed_at (floor_of self.now.cut) (slice_get self.now.tree shard) ≡ true }
        ensures { (log : Journal) → Shows self.now log
            → result ≡ origin_position log self.now.clock (ref self.now.no shard) from }
    {
        let log = &self.logs[shard.0 as usize];
        origin_position(from, self.next, log, self.cut)
    }

    /// Reads a listed (unexpired) shard at `position`, and returns the batch of at most `limit` records. The returned
    /// `bool` says whether the shard ends after this batch: the shard is closed, and it has no untrimmed record after
    /// the batch.
    pub fn read(
        &self,
        alloc: Global,
        shard: ShardNo,
        position: u64,
        limit: u32,
    ) -> Result<(Items<Stored>, bool), Memory>
        requires { is_listed_at (floor_of self.now.cut) (slice_get self.now.tree shard) ≡ true }
        ensures batch { (log : Journal) → Shows self.now log
            → IfOk result (λ r. r.0 ≡ map stored (batch log self.now.clock self.now.no shard position limit)) }
        ensures numbers { IfOk result (λ r. AllByRecursion (λ x. x.seq < 2 ^ 64 - 1) r.0) }
        ensures end { (log : Journal) → Shows self.now log
            → IfOk result (λ r. r.1 ≡ read_ends log self.now.clock self.now.no shard position limit) }
    {
        let log = &self.logs[shard.0 as usize];
        let (batch, reach) = batch_at(log, alloc, self.cut, position, limit)?;
        let left = log.first_left(self.cut, reach);
        let end = match self.tree.shard(shard) {
            Some(state) => is_end(state, left.is_none()),
            None => false,
        };
        Ok((batch, end))
    }
}
