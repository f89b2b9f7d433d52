//! Splits a shard of a stream (SplitShard).
ghost use Rattle.std.specs.Prelude.{◌≡◌, ◌≢◌, ◌<◌, length, IfOk, IfNone, None};
ghost use Rattle.std.specs.List.{filter};
ghost use Rattle.kds_defs.specs.declared.limits.TheConstants.{OPEN_SHARDS};
ghost use Rattle.kds_defs.specs.Shards.{is_open};
ghost use Rattle.kds_defs.specs.StreamCommands.{last_number, split_where};
ghost use Rattle.kds_stream.specs.Showing.{Decides, RefusesAs, is_full, split_line};
ghost use Rattle.kds_stream.specs.Value.{ChangesIfAccepted};
ghost use Rattle.kds_tree.specs.Tree.{split_refusal};

use crate::stream::Stream;
use kds_base::{Memory, Seq, ShardNo};
use kds_defs::limits::OPEN_SHARDS;
use kds_defs::{Answer, Refusal, Reply};
use kds_log::ShardLog;
use kds_rate::Window;

impl Stream {
    /// Whether the stream can't have one more open shard, because the number of its open shards has reached
    /// `open_limit` or `OPEN_SHARDS`. `open_limit` is the greatest number of shards that may be open in this stream,
    /// given the open shards of the other streams.
    fn is_full(&self, open_limit: u64) -> bool
        ensures { result ≡ is_full self.now open_limit }
    {
        let open = u64::from(self.open_count());
        open >= open_limit || open >= OPEN_SHARDS
    }

    /// Returns the reason why a split of the shard at the hash key `at` would be refused, or `None` if it would be
    /// accepted. `open_limit` is the greatest number of shards that may be open in this stream.
    fn split_refusal(&self, shard: ShardNo, at: u128, open_limit: u64) -> Option<Refusal>
        ensures decided { RefusesAs self.now result (λ log c actor s. split_line log c actor s shard at)
            (λ log c actor s. split_where (is_full self.now open_limit) log c actor s shard at) }
        ensures splits { IfNone result (split_refusal self.now.tree shard at ≡ None) }
        ensures unspent { IfNone result (self.now.next ≢ last_number) }
        ensures few { IfNone result (length (filter is_open self.now.tree) < OPEN_SHARDS) }
    {
        if !self.is_listed(shard) {
            return Some(Refusal::NoShard);
        }
        if let Some(refusal) = self.tree.split_refusal(shard, at) {
            return Some(refusal);
        }
        if self.is_full(open_limit) {
            return Some(Refusal::Full);
        }
        let next = self.next;
        if next.0 == u64::MAX {
            return Some(Refusal::Spent);
        }
        None
    }

    /// Splits a shard at the hash key `at` (Kinesis API Reference, SplitShard). The shard is closed, with the stream's
    /// next sequence number as its ending sequence number, and its two children are added after the last shard.
    /// `open_limit` is the greatest number of shards that may be open in this stream, given the open shards of the
    /// other streams. The split is refused with `NoShard` if the shard was never made or has expired, with
    /// `ShardClosed` if the shard is closed, and with `BadSplit` if one part of its range would be empty. It is refused
    /// with `Full` if the stream already has `open_limit` or `OPEN_SHARDS` open shards, and with `Spent` if the
    /// stream's next sequence number is the greatest `u64`. If the split is refused or memory runs out, the stream is
    /// unchanged.
    pub fn split(&mut self, shard: ShardNo, at: u128, open_limit: u64) -> Result<Answer, Memory>
        ensures answered { IfOk result (λ a. Decides self.old self.new a (λ log actor.
            split_where (is_full self.old open_limit) log self.old.clock actor self.old.no shard at)) }
        ensures change { ChangesIfAccepted self.old self.new result }
    {
        if let Some(refusal) = self.split_refusal(shard, at, open_limit) {
            return Ok(Err(refusal));
        }
        let seq = self.next;
        let alloc = *self.logs.allocator();
        self.logs.reserve(2)?;
        self.windows.reserve(2)?;
        // The tree accepts the split, because `split_refusal` found no reason to refuse it.
        let _children = self.tree.split(shard, at, seq, self.clock)?;
        self.next = Seq(seq.0 + 1);
        self.logs.push_reserved(ShardLog::new(alloc, self.next));
        self.logs.push_reserved(ShardLog::new(alloc, self.next));
        self.windows.push_reserved(Window::new());
        self.windows.push_reserved(Window::new());
        self.clock_before = self.clock;
        self.cut_before = self.cut;
        Ok(Ok(Reply::Done))
    }
}
