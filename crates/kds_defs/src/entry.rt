//! The entries of the journal, which is the machine's log of events. Each row of the lease table is a lease, and each
//! write of a row raises the row's counter. A tenure is one worker's hold on a row, until the row is freed or taken
//! again.
ghost use Rattle.std.specs.Prelude.{◌≡◌};
ghost use Rattle.kds_defs.specs.Subjects.{stream_of};

use crate::command::{Origin, Target};
use kds_base::{Items, Name, Seq, ShardNo, ShardRef, StreamNo, TenureNo, WorkerNo};

/// An event, as one line of the journal states it.
#[derive(Drop)]
pub enum Entry {
    /// A stream was created with `shards` shards.
    Made {
        stream: StreamNo,
        name: Name,
        shards: u32,
    },
    /// A stream was deleted.
    Gone {
        stream: StreamNo,
    },
    /// A record was put into the shard `shard`. `bytes` is the number of bytes in the record's payload, and `key_bytes`
    /// the number of bytes in its partition key, which is UTF-8.
    Put {
        stream: StreamNo,
        shard: ShardNo,
        seq: Seq,
        hash: u128,
        bytes: u64,
        key_bytes: u64,
    },
    /// The shard `shard` was split at the hash key `at` into the shards `low` and `high`. `seq` is the sequence number
    /// of the split.
    Split {
        stream: StreamNo,
        shard: ShardNo,
        at: u128,
        seq: Seq,
        low: ShardNo,
        high: ShardNo,
    },
    /// The shards `shard` and `other` were merged into the shard `child`. `seq` is the sequence number of the merge.
    Merged {
        stream: StreamNo,
        shard: ShardNo,
        other: ShardNo,
        seq: Seq,
        child: ShardNo,
    },
    /// A stream's retention was set to this number of hours.
    Kept {
        stream: StreamNo,
        hours: u32,
    },
    /// The limits on a stream's throughput were turned on or off.
    Enforced {
        stream: StreamNo,
        on: bool,
    },
    /// A row was made in the lease table for the shard `key`. Reading of the shard begins at `from`.
    LeaseMade {
        key: ShardRef,
        from: Origin,
    },
    /// A worker took the row of the shard `key`. This began the tenure `tenure`, which is the worker's hold on the row.
    /// `counter` is the row's new counter.
    Taken {
        key: ShardRef,
        tenure: TenureNo,
        counter: u64,
        owner: WorkerNo,
    },
    /// The row that the tenure holds was renewed. `counter` is the row's new counter.
    Renewed {
        tenure: TenureNo,
        counter: u64,
    },
    /// The row that the tenure held was freed. `counter` is the row's new counter.
    Freed {
        tenure: TenureNo,
        counter: u64,
    },
    /// The tenure was opened, and may read its shard from now on.
    Opened {
        tenure: TenureNo,
    },
    /// The tenure read the records with the sequence numbers `numbers`. The command Read asked for at most `limit`
    /// records. `end` is true if the read reached the end of the shard.
    Read {
        tenure: TenureNo,
        limit: u32,
        end: bool,
        numbers: Items<Seq>,
    },
    /// The tenure's oldest undelivered read was counted as delivered, because the command Give reported that the read's
    /// batch was processed.
    Given {
        tenure: TenureNo,
    },
    /// The checkpoint of the tenure's row was set to `to`. `counter` is the row's new counter.
    Marked {
        tenure: TenureNo,
        counter: u64,
        to: Target,
    },
    /// The row of the shard `key` was removed from the lease table. `counter` was the row's counter.
    LeaseCut {
        key: ShardRef,
        counter: u64,
    },
}

impl Entry {
    /// Returns the number of the stream that the entry is about, or `None` for an entry about a lease.
    pub fn stream(&self) -> Option<StreamNo>
        ensures { result ≡ stream_of self.now }
    {
        match self {
            Entry::Made { stream, .. }
            | Entry::Gone { stream }
            | Entry::Put { stream, .. }
            | Entry::Split { stream, .. }
            | Entry::Merged { stream, .. }
            | Entry::Kept { stream, .. }
            | Entry::Enforced { stream, .. } => Some(*stream),
            _ => None,
        }
    }
}
