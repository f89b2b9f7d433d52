//! Merges two adjacent shards of a stream (MergeShards).
ghost use Rattle.std.specs.Prelude.{◌≡◌, ◌≢◌, IfOk, IfNone, None};
ghost use Rattle.kds_defs.specs.StreamCommands.{last_number, merge};
ghost use Rattle.kds_stream.specs.Showing.{Decides, RefusesAs, merge_line};
ghost use Rattle.kds_stream.specs.Value.{ChangesIfAccepted};
ghost use Rattle.kds_tree.specs.Tree.{merge_refusal};

use crate::stream::Stream;
use kds_base::{Memory, Seq, ShardNo};
use kds_defs::{Answer, Refusal, Reply};
use kds_log::ShardLog;
use kds_rate::Window;

impl Stream {
    /// Returns the reason why a merge of the shards `shard` and `other` would be refused, or `None` if it would be
    /// accepted.
    fn merge_refusal(&self, shard: ShardNo, other: ShardNo) -> Option<Refusal>
        ensures decided { RefusesAs self.now result (λ log c actor s. merge_line log c actor s shard other)
            (λ log c actor s. merge log c actor s shard other) }
        ensures merges { IfNone result (merge_refusal self.now.tree shard other ≡ None) }
        ensures unspent { IfNone result (self.now.next ≢ last_number) }
    {
        if !self.is_listed(shard) || !self.is_listed(other) {
            return Some(Refusal::NoShard);
        }
        if let Some(refusal) = self.tree.merge_refusal(shard, other) {
            return Some(refusal);
        }
        let next = self.next;
        if next.0 == u64::MAX {
            return Some(Refusal::Spent);
        }
        None
    }

    /// Merges two adjacent shards (Kinesis API Reference, MergeShards). Both shards are closed, with the stream's next
    /// sequence number as their ending sequence number, and their child is added after the last shard. The merge is
    /// refused with `NoShard` if one of the two shards was never made or has expired, and with `ShardClosed` if one of
    /// them is closed. It is refused with `NotAdjacent` if the shards' ranges aren't adjacent, that is, if neither
    /// range starts right after the other ends. It is refused with `Spent` if the stream's next sequence number is the
    /// greatest `u64`. If the merge is refused or memory runs out, the stream is unchanged.
    pub fn merge(&mut self, shard: ShardNo, other: ShardNo) -> Result<Answer, Memory>
        ensures answered { IfOk result
            (λ a. Decides self.old self.new a (λ log actor. merge log self.old.clock actor self.old.no shard other)) }
        ensures change { ChangesIfAccepted self.old self.new result }
    {
        if let Some(refusal) = self.merge_refusal(shard, other) {
            return Ok(Err(refusal));
        }
        let seq = self.next;
        let alloc = *self.logs.allocator();
        self.logs.reserve(1)?;
        self.windows.reserve(1)?;
        // The tree accepts the merge, because `merge_refusal` found no reason to refuse it.
        let _child = self.tree.merge(shard, other, seq, self.clock)?;
        self.next = Seq(seq.0 + 1);
        self.logs.push_reserved(ShardLog::new(alloc, self.next));
        self.windows.push_reserved(Window::new());
        self.clock_before = self.clock;
        self.cut_before = self.cut;
        Ok(Ok(Reply::Done))
    }
}
