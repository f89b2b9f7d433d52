//! A tenure in the form in which other crates see it.
use kds_base::{Checkpoint, ShardRef};

/// A tenure: one worker's hold on a lease (Kinesis Client Library, lease ownership). The tenure begins when an actor,
/// which is a client or a process, takes the lease. A read of the tenure counts as delivered once the record processor
/// has processed the batch of the read. Until then, the read is pending.
#[derive(Clone, Copy, Debug, PartialEq, Eq)]
pub struct Tenure {
    /// The number of the actor that took the lease.
    pub by: u32,
    pub key: ShardRef,
    /// The lease's checkpoint at the moment the tenure began.
    pub start: Checkpoint,
    /// Whether the tenure was opened, so that it may read its shard.
    pub opened: bool,
    /// The position after the tenure's last read. Until the first read, it is the position at which the tenure began.
    pub reach: u64,
    /// The position after the tenure's last delivered read. Until a read is delivered, it is the position at which the
    /// tenure began.
    pub delivered: u64,
    /// How many pending reads the tenure has.
    pub pending: u32,
    /// Whether the tenure's last delivered read reached the shard's end.
    pub at_end: bool,
}

/// A read whose batch the record processor hasn't processed yet. The fields are the position after the records of the
/// read, and whether the read reached the shard's end.
#[derive(Clone, Copy, Debug, Default, PartialEq, Eq, Drop)]
pub(crate) struct PendingRead {
    pub reach: u64,
    pub end: bool,
}
