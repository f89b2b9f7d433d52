//! Serves one command for a stream.
ghost use Rattle.std.specs.Prelude.{◌≡◌, ℕ, Some, true, IfOk, OnErr};
ghost use Rattle.kds_defs.specs.Lawful.{IsLawfulCommand};
ghost use Rattle.kds_stream.specs.Serving.{Serves, is_of_stream, token_stream};
ghost use Rattle.kds_stream.specs.Value.{KeepsFields};

use crate::stream::Stream;
use kds_base::Memory;
use kds_defs::{Answer, Command};
use std::alloc::Global;

impl Stream {
    /// Serves a command that names this stream, or whose token (shard iterator or NextToken) belongs to this stream
    /// (Kinesis API Reference, the operations of the commands). `open_limit` is the greatest number of shards that may
    /// be open in this stream, given the open shards of the other streams. Only SplitShard and UpdateShardCount need
    /// `open_limit`. If memory runs out, the stream is unchanged.
    pub fn serve(&mut self, alloc: Global, what: Command, open_limit: u64) -> Result<Answer, Memory>
        requires lawful { IsLawfulCommand what }
        requires own { is_of_stream what ≡ true }
        requires token { (s : ℕ) → token_stream what ≡ Some s → s ≡ self.old.no }
        ensures answered { IfOk result (λ a. Serves what open_limit self.old self.new a) }
        ensures fields { KeepsFields self.new self.old }
        ensures kept { OnErr result (self.new ≡ self.old) }
    {
        // Each arm binds the name although no arm uses it, because the borrow checker doesn't track a field that a
        // pattern doesn't move.
        match what {
            Command::Describe { name, after, limit } => self.describe(alloc, after, limit),
            Command::Summary { name } => self.summary(alloc),
            Command::Put { name, item } => self.put(item),
            Command::PutMany { name, items } => self.put_many(items),
            Command::GetIterator { name, shard, from } => Ok(self.iterator(shard, from)),
            Command::Records { iter, limit } => self.records(alloc, &iter, limit),
            Command::Split { name, shard, at } => self.split(shard, at, open_limit),
            Command::Merge { name, shard, other } => self.merge(shard, other),
            Command::Keep { name, hours, raise } => Ok(self.keep(hours, raise)),
            Command::Scale { name, target } => self.scale(target, open_limit),
            Command::Enforce { name, on } => Ok(self.enforce(on)),
            Command::Shards { name, after, limit } => self.shards(after, limit),
            Command::More { page, limit } => self.more(&page, limit),
            _ => unreachable!(),
        }
    }
}
