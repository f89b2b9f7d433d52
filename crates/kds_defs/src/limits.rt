//! The limits of the service and of schedules. A schedule is a recorded workload: each line is one request, one command
//! on leases, or one instruction to a worker.

/// The most streams that may exist at once.
pub const LIVE_STREAMS: u64 = 64;

/// The most shards that may be open at once, counted over all streams.
pub const OPEN_SHARDS: u64 = 500;

/// The least number of shards with which a stream may be created, or to which it may be scaled (Kinesis API Reference,
/// CreateStream, ShardCount).
pub const LEAST_SHARDS: u32 = 1;

/// The greatest number of shards with which a stream may be created, or to which it may be scaled.
pub const MOST_SHARDS: u32 = 500;

/// The most characters in a partition key (Kinesis API Reference, PutRecord, PartitionKey).
pub const KEY_CHARACTERS: u64 = 256;

/// The most bytes that a record's payload and partition key may have together (Kinesis API Reference, PutRecord, Data).
pub const RECORD_BYTES: u64 = 10_485_760;

/// The most records in one PutRecords request (Kinesis API Reference, PutRecords, Records).
pub const MANY_ITEMS: u64 = 500;

/// The most bytes that the payloads and partition keys of all records in one PutRecords request may have together
/// (Kinesis API Reference, PutRecords).
pub const MANY_BYTES: u64 = 10_485_760;

/// How long a shard iterator or the token of a listing is valid, in milliseconds (Kinesis API Reference,
/// GetShardIterator: 5 minutes).
pub const TOKEN_LIFE: u64 = 300_000;

/// The retention of a new stream, in hours.
pub const FIRST_HOURS: u32 = 24;

/// The least retention that a stream may have, in hours (Kinesis API Reference, DecreaseStreamRetentionPeriod).
pub const LEAST_HOURS: u32 = 24;

/// The greatest retention that a stream may have, in hours: 365 days (Kinesis API Reference,
/// IncreaseStreamRetentionPeriod).
pub const MOST_HOURS: u32 = 8_760;

/// The number of milliseconds in an hour.
pub const HOUR: u64 = 3_600_000;

/// The most bytes that the payloads and partition keys of all records in one batch may have together. A batch is the
/// list of records that one read returns (Kinesis API Reference, GetRecords: 10 MiB).
pub const BATCH_BYTES: u64 = 10_485_760;

/// The most items that one command may ask for. The items are names or shards in a listing, and records in a read.
pub const MOST: u32 = 10_000;

/// The number of milliseconds in a second. A shard's throughput is counted for each second of the clock.
pub const SECOND: u64 = 1_000;

/// The most records that a shard accepts within a second if the limits on its throughput are enforced (Kinesis Data
/// Streams Developer Guide, Quotas and Limits).
pub const SECOND_RECORDS: u64 = 1_000;

/// The most bytes of payloads and partition keys that a shard accepts within a second if the limits on its throughput
/// are enforced. The first record of a second may be larger (Kinesis Data Streams Developer Guide, Quotas and Limits).
pub const SECOND_BYTES: u64 = 1_048_576;

/// The most undelivered reads that a tenure (one worker's hold on a lease) may have. A read counts as delivered once
/// the command Give has reported that the read's batch was processed.
pub const PENDING_READS: u64 = 8;

/// The most records that GetRecords returns if the request has no Limit (Kinesis API Reference, GetRecords, Limit).
pub const DEFAULT_RECORDS: u32 = 10_000;

/// The most shards that ListShards returns if the request has no MaxResults (Kinesis API Reference, ListShards,
/// MaxResults).
pub const DEFAULT_SHARDS: u32 = 1_000;

/// The most shards that DescribeStream returns if the request has no Limit (Kinesis API Reference, DescribeStream,
/// Limit).
pub const DEFAULT_DESCRIBED: u32 = 100;

/// The most names that ListStreams returns if the request has no Limit (Kinesis API Reference, ListStreams, Limit).
pub const DEFAULT_NAMES: u32 = 100;

/// The greatest time that a request may name, in seconds (Kinesis API Reference, GetShardIterator, Timestamp). This
/// project chose the bound, because a `Moment` must be below 2^62 milliseconds.
pub const MOST_SECONDS: u64 = 4_611_686_018_427_387;

/// The actor number (the number of a command's sender) of every request to the stream service.
pub const API_ACTOR: u32 = 0;

/// A raw line of a schedule is a command on leases, with its actor and its time. This is the greatest actor number that
/// a raw line may name.
pub const MOST_ACTOR: u32 = 999;

/// The most characters in the name of an operation in a schedule.
pub const OPERATION_BYTES: usize = 64;

/// The most bytes in one line of an input that is read line by line, such as a schedule. The line feed isn't counted.
pub const LINE_BYTES: u64 = 16_777_216;

/// The most bytes in a whole input that is read line by line, such as a schedule.
pub const INPUT_BYTES: u64 = 1_073_741_824;
