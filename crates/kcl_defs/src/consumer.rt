//! The values from which consumers and workers are made, and the values that consumers and workers return. A consumer
//! processes the shard of one lease, as a ShardConsumer of the Kinesis Client Library does.
ghost use Rattle.std.specs.Prelude.{◌≡◌};
ghost use Rattle.kcl_defs.specs.Workers.{usual_settings};

use crate::limits::{USUAL_FAILOVER, USUAL_LIMIT};
use kds_base::{Checkpoint, Items, ShardRef, TenureNo, WorkerNo};
use kds_defs::{Origin, Refusal, Stored};

/// What checkpoint a processor asks for after a batch: none, or a checkpoint at a stated sequence number, at the
/// batch's last sequence number, or at the shard's end (Kinesis Client Library, RecordProcessorCheckpointer).
#[derive(Clone, Copy, Debug, PartialEq, Eq)]
pub enum Ask {
    None,
    At(kds_base::Seq),
    Last,
    End,
}

/// The processor call that must come next (Kinesis Client Library, ShardRecordProcessor).
#[derive(Clone, Copy, Debug, PartialEq, Eq)]
pub enum Due {
    Initialize,
    Process,
    LeaseLost,
    ShardEnded,
}

/// The reason why a consumer has ended (Kinesis Client Library, ShutdownReason).
#[derive(Clone, Copy, Debug, PartialEq, Eq)]
pub enum Why {
    /// The lease belongs to another worker, or this worker gave it up.
    Lost,
    /// The shard was processed to its end, and the lease's checkpoint is set to the shard's end.
    Ended,
    /// The shard is no longer listed: it has expired, or its stream was deleted.
    Gone,
    /// The consumer ended before the first call of its processor, so the consumer read nothing.
    NeverOpened,
}

/// The state of a consumer after the answer to one of its commands.
#[derive(Clone, Copy, Debug, PartialEq, Eq)]
pub enum Progress {
    Going,
    /// The checkpoint that the processor asked for was refused, for a reason other than a lost lease. The consumer
    /// doesn't ask for this checkpoint again.
    Refused(Refusal),
    Over(Why),
}

/// The values from which a consumer is made: the key of its lease, the number of its tenure (one worker's hold on the
/// lease), the row's checkpoint when the tenure began, and the most records that a Read may return (1 to 10,000).
#[derive(Clone, Copy, Debug, PartialEq, Eq)]
pub struct Tenancy {
    pub key: ShardRef,
    pub tenure: TenureNo,
    pub start: Checkpoint,
    pub limit: u32,
}

/// A batch that was read but hasn't been reported as processed yet (by a Give), and whether the read reached the
/// shard's end.
#[derive(Drop)]
pub struct Fetched {
    pub batch: Items<Stored>,
    pub ended: bool,
}

/// A processor call that has returned.
#[derive(Drop)]
pub enum Call {
    Initialize { key: ShardRef, start: Checkpoint },
    Process { batch: Items<Stored> },
    LeaseLost,
    ShardEnded,
}

/// The settings of a worker: the failover time in milliseconds, the most records that one Read may return (1 to
/// 10,000), and the origin at which the worker's new rows begin (Kinesis Client Library: failover time, max records,
/// initial position in stream).
#[derive(Clone, Copy, Debug, PartialEq, Eq)]
pub struct Settings {
    pub failover: u64,
    pub limit: u32,
    pub from: Origin,
}

impl Settings {
    /// Returns the default settings: a failover time of 10,000 milliseconds, at most 1,000 records per Read, and new
    /// rows that begin at the trim horizon.
    pub fn usual() -> Settings
        ensures { result ≡ usual_settings }
    {
        Settings {
            failover: USUAL_FAILOVER,
            limit: USUAL_LIMIT,
            from: Origin::TrimHorizon,
        }
    }
}

/// The values from which a worker is made: the number that names it, and its settings.
#[derive(Clone, Copy, Debug, PartialEq, Eq)]
pub struct WorkerMade {
    pub name: WorkerNo,
    pub settings: Settings,
}
