//! The machine's replies and refusals. A tenure is one worker's hold on a row of the lease table, until the row is
//! freed or taken again. A read of a tenure counts as delivered once the command Give has reported that the read's
//! batch was processed. A shard is listed until it has been closed for the retention period. After that, the shard is
//! expired.
use crate::command::Origin;
use crate::entry::Entry;
use kds_base::{
    Checkpoint, Items, Moment, Name, Octets, Range, Seq, ShardNo, ShardRef, StreamNo, TenureNo,
    WorkerNo,
};
use std::marker::Model;

/// Where a record was stored: its shard and its sequence number.
#[derive(Clone, Copy, Debug, PartialEq, Eq)]
pub struct Place {
    pub shard: ShardNo,
    pub seq: Seq,
}

/// The result for one record of a PutRecords request (Kinesis API Reference, PutRecordsResultEntry).
#[derive(Clone, Copy, Debug, PartialEq, Eq)]
pub enum Outcome {
    /// The record was stored at this place.
    Stored(Place),
    /// The record was throttled: it exceeds what this shard still accepts within the current second.
    Throttled(ShardNo),
}

/// A record as it is read from a shard (Kinesis API Reference, Record).
#[derive(Drop)]
pub struct Stored {
    pub seq: Seq,
    pub arrival: Moment,
    pub key: Octets,
    pub payload: Octets,
}

/// A shard iterator: a shard, the position in it at which reading continues, and the time at which the iterator was
/// issued.
#[derive(Clone, Copy, Debug, PartialEq, Eq)]
pub struct Iter {
    pub stream: StreamNo,
    pub shard: ShardNo,
    pub position: u64,
    pub issued: Moment,
}

/// The token of a ListShards listing: the stream, the shard after which the listing continues, and the time at which
/// the token was issued.
#[derive(Clone, Copy, Debug, PartialEq, Eq)]
pub struct Page {
    pub stream: StreamNo,
    pub after: ShardNo,
    pub issued: Moment,
}

/// A shard as it appears in replies (Kinesis API Reference, Shard). In contracts, a shard is represented by a value
/// with the same fields.
#[derive(Clone, Copy, Debug, PartialEq, Eq)]
pub struct Shard {
    pub no: ShardNo,
    pub range: Range,
    pub parent: Option<ShardNo>,
    pub adjacent: Option<ShardNo>,
    /// The shard's starting sequence number.
    pub start: Seq,
    /// The shard's ending sequence number, if the shard is closed.
    pub end: Option<Seq>,
}

impl Model for Shard {
    ghost use Rattle.kds_defs.specs.Values.{ShardValue};

    ghost Value = { ShardValue };

    ghost view = { λ x. record {
      no = x.no;
      range = x.range;
      parent = x.parent;
      adjacent = x.adjacent;
      start = x.start;
      end = x.end;
    } };

    ghost inverse = { λ x. record {
      no = x.no;
      range = x.range;
      parent = x.parent;
      adjacent = x.adjacent;
      start = x.start;
      end = x.end;
    } };
}

/// A row of the lease table (Kinesis Client Library, lease). In contracts, a row is represented by a value with the
/// same fields.
#[derive(Clone, Copy, Debug, PartialEq, Eq)]
pub struct Row {
    pub key: ShardRef,
    /// The worker that owns the row, if any.
    pub owner: Option<WorkerNo>,
    /// How many times, in total, the row was taken, renewed or freed, or its checkpoint was set.
    pub counter: u64,
    pub checkpoint: Checkpoint,
    /// How many times the row was taken from another owner since its checkpoint was last set.
    pub switches: u64,
    /// The number of the tenure that holds the row, or 0 if the row is free. A tenure is one worker's hold on a row.
    pub tenure: TenureNo,
    /// The sequence number at which reading of the shard begins. If the row's origin is the trim horizon, this is the
    /// shard's starting sequence number. Otherwise the origin is LATEST or a moment, and this is the position that the
    /// origin meant when the row was made.
    pub floor: Seq,
    pub parent: Option<ShardNo>,
    pub adjacent: Option<ShardNo>,
}

impl Model for Row {
    ghost use Rattle.kds_defs.specs.Values.{RowValue};

    ghost Value = { RowValue };

    ghost view = { λ r. record {
      key = r.key;
      owner = r.owner;
      counter = r.counter;
      checkpoint = r.checkpoint;
      switches = r.switches;
      tenure = r.tenure;
      floor = r.floor;
      parent = r.parent;
      adjacent = r.adjacent;
    } };

    ghost inverse = { λ r. record {
      key = r.key;
      owner = r.owner;
      counter = r.counter;
      checkpoint = r.checkpoint;
      switches = r.switches;
      tenure = r.tenure;
      floor = r.floor;
      parent = r.parent;
      adjacent = r.adjacent;
    } };
}

/// The description of a stream: its name, its creation time, and its retention in hours (Kinesis API Reference,
/// StreamDescription and StreamDescriptionSummary).
#[derive(Drop)]
pub struct About {
    pub name: Name,
    pub made: Moment,
    pub hours: u32,
}

/// The answer to an accepted command.
#[derive(Drop)]
pub enum Reply {
    /// The command was carried out; the reply has no body.
    Done,
    /// ListStreams: the stream names, and whether more names follow.
    Streams {
        names: Items<Name>,
        more: bool,
    },
    /// DescribeStream: the stream's description, its shards, and whether more shards follow.
    Described {
        about: About,
        shards: Items<Shard>,
        more: bool,
    },
    /// DescribeStreamSummary: the stream's description, and its number of open shards.
    Summary {
        about: About,
        open_shards: u32,
    },
    /// PutRecord: the record's shard and sequence number.
    Put(Place),
    /// PutRecords: the result for each record, in order.
    PutMany(Items<Outcome>),
    /// UpdateShardCount: the stream's name, the number of open shards before the scaling, the wanted number of open
    /// shards, and the journal's entries for the merges and splits, in order.
    Scaled {
        name: Name,
        before: u32,
        target: u32,
        entries: Items<Entry>,
    },
    /// GetShardIterator: the new iterator.
    Iterator(Iter),
    /// GetRecords: the records, the next iterator, and the reader's lag in milliseconds (MillisBehindLatest). If the
    /// read reached the end of a closed shard, the next iterator is `None`, and `children` contains the child shards.
    Records {
        batch: Items<Stored>,
        next: Option<Iter>,
        behind: u64,
        children: Items<Shard>,
    },
    /// ListShards: the shards, and a token for the next page if more shards follow.
    Shards {
        shards: Items<Shard>,
        next: Option<Page>,
    },
    /// Survey: all listed shards and all rows of the lease table, each list in the order of its keys.
    Survey {
        shards: Items<ShardRef>,
        rows: Items<Row>,
    },
    /// MakeLease: the origin at which reading of the shard begins.
    Leased(Origin),
    /// Take: the number of the new tenure, the row's new counter, and the checkpoint at which the tenure's reading
    /// begins.
    Taken {
        tenure: TenureNo,
        counter: u64,
        start: Checkpoint,
    },
    /// Renew, Free, Mark: the row's new counter.
    Counter(u64),
    /// Read: the records, the tenure's reach (the position after these records), and whether the shard ends there.
    Read {
        batch: Items<Stored>,
        reach: u64,
        end: bool,
    },
    /// Give: the position after the last record that was delivered in the tenure (the record's sequence number plus
    /// one). If no record was delivered, it is the position at which the tenure began.
    Given {
        delivered: u64,
    },
}

/// Why a command is refused.
#[derive(Clone, Copy, Debug, PartialEq, Eq)]
pub enum Refusal {
    /// No stream with this name or number exists.
    NoStream,
    /// A stream with this name already exists.
    StreamThere,
    /// The shard isn't listed: it was never made, or it expired once it had been closed for the retention period.
    NoShard,
    /// The shard is closed.
    ShardClosed,
    /// The two shards aren't adjacent: neither shard's range starts right after the end of the other shard's range.
    NotAdjacent,
    /// The split key would leave one part of the range empty.
    BadSplit,
    /// The sequence number is outside the range of the shard's sequence numbers.
    BadNumber,
    /// An increase asks for fewer hours than the present retention, or a decrease asks for more.
    BadRetention,
    /// The shard iterator was issued more than `TOKEN_LIFE` milliseconds ago.
    Expired,
    /// The token of the listing was issued more than `TOKEN_LIFE` milliseconds ago.
    PageExpired,
    /// The command would exceed the limit on streams or the limit on open shards.
    Full,
    /// The command needs a number of a kind of which none is left: a sequence number or a shard number of the stream, a
    /// stream number, a tenure number, or a value of the row's counter.
    Spent,
    /// The record exceeds what this shard still accepts within the current second.
    Throttled(ShardNo),
    /// The lease table has no row with this key.
    NoLease,
    /// No tenure has this number.
    NoTenure,
    /// Another actor began the tenure.
    NotYours,
    /// The tenure doesn't hold its row any more. The tenure with this number holds the row now. If the number is 0, no
    /// tenure holds the row.
    Lost(TenureNo),
    /// The row's counter is this number, and not the one that the command names.
    Moved(u64),
    /// The row's checkpoint is already the shard's end.
    Ended,
    /// The wanted checkpoint is too great: only records with sequence numbers below this number were delivered.
    Beyond(u64),
    /// The wanted checkpoint is too small: this number is the least to which the checkpoint may be set.
    Below(Seq),
    /// The checkpoint can't be set to the shard's end: the last delivered read didn't reach that end.
    NotAtEnd,
    /// This parent of the shard is listed and hasn't been processed to its end: the lease table has no row of the
    /// parent whose checkpoint is the parent's end.
    ParentsOpen(ShardRef),
    /// The tenure hasn't been opened.
    NotOpened,
    /// The tenure has already been opened.
    OpenedBefore,
    /// The tenure has no undelivered read.
    NothingPending,
    /// The tenure already has `PENDING_READS` undelivered reads, the most that it may have.
    TooManyPending,
    /// The position in the command isn't the tenure's reach, which is the position after its last read. The reach is
    /// this number.
    OutOfPlace(u64),
    /// The shard isn't listed.
    ShardGone,
    /// The lease table already has a row with this key.
    LeaseThere,
    /// The row can't be removed, because its shard is listed.
    ShardListed,
}
