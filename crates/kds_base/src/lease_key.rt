//! Keys and checkpoints of leases.
ghost use Rattle.std.specs.Prelude.{◌≡◌};
ghost use Rattle.kds_base.specs.Checkpoints.{is_end};

use crate::numbers::{Seq, ShardNo, StreamNo};

/// Names a shard by the number of its stream and by the shard's own number within the stream. The two numbers are the
/// key of the shard's lease (Kinesis Client Library, lease key).
#[derive(Clone, Copy, Debug, PartialEq, Eq)]
pub struct ShardRef {
    pub stream: StreamNo,
    pub shard: ShardNo,
}

/// A checkpoint: how far a shard has been processed (Kinesis Client Library, checkpoint). `TrimHorizon`: no record has
/// been processed. `At`: the records up to and including this sequence number have been processed. `ShardEnd`: the
/// whole shard has been processed.
#[derive(Clone, Copy, Debug, PartialEq, Eq)]
pub enum Checkpoint {
    TrimHorizon,
    At(Seq),
    ShardEnd,
}

impl Checkpoint {
    /// Whether the checkpoint is the shard's end, which means that the whole shard has been processed.
    pub fn is_end(self) -> bool
        ensures { result ≡ is_end self }
    {
        matches!(self, Checkpoint::ShardEnd)
    }
}
