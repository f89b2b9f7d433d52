//! The commands of the machine. The machine is the deterministic state machine that holds the streams, their records
//! and the lease table. Each row of the lease table is a lease (Kinesis Client Library), and each write of a row raises
//! the row's counter.
ghost use Rattle.std.specs.Prelude.{◌≡◌, option_map};
ghost use Rattle.kds_defs.specs.Kinds.{is_change, is_service};
ghost use Rattle.kds_defs.specs.Requests.{request_turn};
ghost use Rattle.kds_defs.specs.Subjects.{name_of_command};

use crate::limits::API_ACTOR;
use crate::reply::{Iter, Page};
use kds_base::{Items, Moment, Name, Octets, Seq, ShardNo, ShardRef, TenureNo, WorkerNo};

/// A turn: a command, the number of the actor that sends it, and its time. An actor is a client or a process.
#[derive(Drop)]
pub struct Turn {
    pub by: u32,
    pub at: Moment,
    pub what: Command,
}

/// A command to the machine.
#[derive(Drop)]
pub enum Command {
    /// CreateStream: the new stream's name and its number of shards.
    Create {
        name: Name,
        shards: u32,
    },
    /// DeleteStream: the stream's name.
    Delete {
        name: Name,
    },
    /// ListStreams: asks for at most `limit` stream names, beginning after the name `after`, if any.
    Streams {
        after: Option<Name>,
        limit: u32,
    },
    /// DescribeStream: asks for the description of the stream and at most `limit` of its shards, beginning after the
    /// shard `after`, if any.
    Describe {
        name: Name,
        after: Option<ShardNo>,
        limit: u32,
    },
    /// DescribeStreamSummary: the stream's name.
    Summary {
        name: Name,
    },
    /// PutRecord: the stream's name and the record.
    Put {
        name: Name,
        item: NewItem,
    },
    /// PutRecords: the stream's name and the records, in order.
    PutMany {
        name: Name,
        items: Items<NewItem>,
    },
    /// GetShardIterator: the stream's name, the shard, and the position at which reading begins.
    GetIterator {
        name: Name,
        shard: ShardNo,
        from: Start,
    },
    /// GetRecords: asks for at most `limit` records, beginning at the position of the iterator `iter`.
    Records {
        iter: Iter,
        limit: u32,
    },
    /// SplitShard: the stream's name, the shard to split, and the hash key at which the upper part of its range begins.
    Split {
        name: Name,
        shard: ShardNo,
        at: u128,
    },
    /// MergeShards: the stream's name, and two adjacent shards of the stream.
    Merge {
        name: Name,
        shard: ShardNo,
        other: ShardNo,
    },
    /// IncreaseStreamRetentionPeriod if `raise` is true, otherwise DecreaseStreamRetentionPeriod: the stream's name,
    /// and the new retention in hours.
    Keep {
        name: Name,
        hours: u32,
        raise: bool,
    },
    /// UpdateShardCount: the stream's name, and the wanted number of open shards, which get uniform ranges of hash
    /// keys.
    Scale {
        name: Name,
        target: u32,
    },
    /// LocalEnforceLimits, an operation of this project's own. `on` says whether the limits on the stream's throughput
    /// are enforced from now on.
    Enforce {
        name: Name,
        on: bool,
    },
    /// ListShards without a token: asks for at most `limit` shards, beginning after the shard `after`, if any.
    Shards {
        name: Name,
        after: Option<ShardNo>,
        limit: u32,
    },
    /// ListShards with a token: asks for the next page of a listing, with at most `limit` shards.
    More {
        page: Page,
        limit: u32,
    },
    /// Asks for all listed shards and all rows of the lease table. A shard is listed until it has been closed for the
    /// retention period.
    Survey,
    /// Makes a row in the lease table for the shard `key`. Reading of the shard begins at `from`, with one exception.
    /// If a parent of the shard has a row, and reading of this parent begins at or below the parent's ending sequence
    /// number, reading of the shard begins at its first record.
    MakeLease {
        key: ShardRef,
        from: Origin,
    },
    /// The worker `owner` takes the row of the shard `key`. The row's counter must be `counter`. The take begins a new
    /// tenure, which is the worker's hold on the row until the row is freed or taken again.
    Take {
        key: ShardRef,
        counter: u64,
        owner: WorkerNo,
    },
    /// Renews the row that the tenure holds. The row's counter must be `counter`.
    Renew {
        tenure: TenureNo,
        counter: u64,
    },
    /// Frees the row that the tenure holds. The row's counter must be `counter`.
    Free {
        tenure: TenureNo,
        counter: u64,
    },
    /// Opens the tenure, which may read its shard from now on.
    OpenShard {
        tenure: TenureNo,
    },
    /// Reads at most `limit` records in the tenure. `position` must be the tenure's reach: the position after its last
    /// read, or the position at which the tenure begins if it hasn't read yet.
    Read {
        tenure: TenureNo,
        position: u64,
        limit: u32,
    },
    /// Counts the tenure's oldest undelivered read as delivered. A worker sends this command after the record processor
    /// has processed the read's batch.
    Give {
        tenure: TenureNo,
    },
    /// Sets the checkpoint of the tenure's row to `to`. The row's counter must be `counter`.
    Mark {
        tenure: TenureNo,
        counter: u64,
        to: Target,
    },
    /// Removes the row of the shard `key` from the lease table. The row's counter must be `counter`.
    CutLease {
        key: ShardRef,
        counter: u64,
    },
}

/// The value to which a checkpoint is set: a sequence number, or the shard's end.
#[derive(Clone, Copy, Debug, PartialEq, Eq)]
pub enum Target {
    At(Seq),
    End,
}

/// The origin of a row in the lease table: where reading of the row's shard begins (Kinesis Client Library, initial
/// position in stream).
#[derive(Clone, Copy, Debug, PartialEq, Eq)]
pub enum Origin {
    /// At the shard's first record.
    TrimHorizon,
    /// After all records that are in the shard when the row is made.
    Latest,
    /// At the first record that arrived at or after this moment.
    Time(Moment),
}

/// The position at which a shard iterator begins (Kinesis API Reference, GetShardIterator, ShardIteratorType).
#[derive(Clone, Copy, Debug, PartialEq, Eq)]
pub enum Start {
    At(Seq),
    After(Seq),
    TrimHorizon,
    Latest,
    /// At the first record that arrived at or after this moment.
    Time(Moment),
}

/// A record to put: its partition key in UTF-8, its hash key and its payload.
#[derive(Drop)]
pub struct NewItem {
    pub key: Octets,
    pub hash: u128,
    pub payload: Octets,
}

impl Command {
    /// Whether the command is for the stream service, and not for the lease table.
    pub fn is_service(&self) -> bool
        ensures { result ≡ is_service self.now }
    {
        !matches!(
            self,
            Command::Survey
                | Command::MakeLease { .. }
                | Command::Take { .. }
                | Command::Renew { .. }
                | Command::Free { .. }
                | Command::OpenShard { .. }
                | Command::Read { .. }
                | Command::Give { .. }
                | Command::Mark { .. }
                | Command::CutLease { .. }
        )
    }

    /// Whether the command changes streams, shards or records.
    pub fn is_change(&self) -> bool
        ensures { result ≡ is_change self.now }
    {
        matches!(
            self,
            Command::Create { .. }
                | Command::Delete { .. }
                | Command::Put { .. }
                | Command::PutMany { .. }
                | Command::Split { .. }
                | Command::Merge { .. }
                | Command::Keep { .. }
                | Command::Scale { .. }
                | Command::Enforce { .. }
        )
    }

    /// Returns the name of the existing stream that the command is for. Returns `None` if the command doesn't name an
    /// existing stream, for example for CreateStream and for commands on leases.
    pub fn stream_name(&self) -> Option<&Name>
        ensures { option_map (λ n. n.now) result ≡ name_of_command self.now }
    {
        match self {
            Command::Delete { name }
            | Command::Describe { name, .. }
            | Command::Summary { name }
            | Command::Shards { name, .. }
            | Command::GetIterator { name, .. }
            | Command::Put { name, .. }
            | Command::PutMany { name, .. }
            | Command::Split { name, .. }
            | Command::Merge { name, .. }
            | Command::Keep { name, .. }
            | Command::Scale { name, .. }
            | Command::Enforce { name, .. } => Some(name),
            _ => None,
        }
    }
}

impl Turn {
    /// Returns the turn of a request to the stream service: the command `what` at the moment `at`, by the actor
    /// `API_ACTOR`.
    pub fn request(at: Moment, what: Command) -> Turn
        ensures { result ≡ request_turn at what }
    {
        Turn {
            by: API_ACTOR,
            at,
            what,
        }
    }
}
