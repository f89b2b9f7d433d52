//! Lease keys and rows of the lease table, for use in tests. All of them are for shards of stream 1.
use kds_base::{Checkpoint, Seq, ShardNo, ShardRef, StreamNo, TenureNo, WorkerNo};
use kds_defs::Row;

/// Returns the key of the shard `shard` of stream 1.
pub fn key(shard: u64) -> ShardRef {
    ShardRef {
        stream: StreamNo(1),
        shard: ShardNo(shard),
    }
}

/// Returns a row of the lease table whose checkpoint is the trim horizon. If `owner` is `None`, no worker owns the row.
/// Otherwise the worker `owner` owns the row, and the number of the row's tenure (this worker's hold on the lease) is
/// also `owner`.
pub fn row(shard: u64, owner: Option<u32>, counter: u64) -> Row {
    Row {
        key: key(shard),
        owner: owner.map(|worker| WorkerNo(worker)),
        counter,
        checkpoint: Checkpoint::TrimHorizon,
        switches: 0,
        tenure: TenureNo(owner.unwrap_or(0) as u64),
        floor: Seq(1),
        parent: None,
        adjacent: None,
    }
}
