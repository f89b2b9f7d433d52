//! The limits on the throughput of a stream's shards, which can be turned on and off.
ghost use Rattle.std.specs.Prelude.{◌≡◌, ◌<◌, ◌&&◌, ℕ, List, Ok, length};
ghost use Rattle.kds_defs.specs.PutCommands.{enforce};
ghost use Rattle.kds_defs.specs.Rates.{SizedPut, is_throttled};
ghost use Rattle.kds_stream_logs.specs.Rating.{StandFor};
ghost use Rattle.kds_stream.specs.Showing.{Decides};
ghost use Rattle.kds_stream.specs.Value.{KeepsRetention, KeepsFields};

use crate::stream::Stream;
use kds_base::ShardNo;
use kds_defs::{Answer, Reply};
use kds_stream_logs::admits_at;

impl Stream {
    /// Turns the limits on the throughput of the stream's shards on or off (LocalEnforceLimits). The call is never
    /// refused. The operation is an addition of this project to the Kinesis API. The limits are those of the Kinesis
    /// Data Streams Developer Guide, Quotas and Limits.
    pub fn enforce(&mut self, on: bool) -> Answer
        ensures answered { Decides self.old self.new result
            (λ log actor. enforce log self.old.clock actor self.old.no on) }
        ensures fields { KeepsFields self.new self.old }
        ensures done { result ≡ Ok Reply.Done }
        ensures changed { KeepsRetention self.old self.new }
        ensures enforced { self.new.enforced ≡ on }
    {
        self.enforced = on;
        self.clock_before = self.clock;
        self.cut_before = self.cut;
        Ok(Reply::Done)
    }

    /// Whether the throughput limits are on and the shard doesn't accept a record at the time of the stream's clock.
    /// The payload and partition key of the record together have `bytes` bytes.
    pub(super) fn holds_back(&self, shard: ShardNo, bytes: u64) -> bool
        requires { shard < length self.now.tree }
        ensures { (f : ℕ → List SizedPut) → StandFor f 0 self.now.windows
            → result ≡ (self.now.enforced && is_throttled (f shard) self.now.clock bytes) }
    {
        self.enforced && !admits_at(&self.windows, shard.0 as usize, self.clock, bytes)
    }
}
