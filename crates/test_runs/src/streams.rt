//! Tests of requests for streams, shards and records. The tests are schedules (recorded workloads) with their outputs.
//! Each line of a schedule is one request, one lease command, or one instruction to a worker.
use crate::harness::{Row, Run, first_other};
use std::test::Fail;

/// A shard iterator is requested. Records are read with this iterator, without a limit and with a limit of one record.
const ITERATORS: Row = (
    r#"1000 api CreateStream {"StreamName":"s","ShardCount":1}
1000 api PutRecord {"StreamName":"s","Data":"aGk=","PartitionKey":"a"}
1001 api PutRecord {"StreamName":"s","Data":"","PartitionKey":"abc"}
2000 api GetShardIterator {"StreamName":"s","ShardId":"shardId-000000000000","ShardIteratorType":"TRIM_HORIZON"}
2000 api GetRecords {"ShardIterator":"S0kxOjE6MDowOjIwMDA="}
2000 api GetRecords {"ShardIterator":"S0kxOjE6MDowOjIwMDA=","Limit":1}
"#,
    0,
    r#"200
200 {"SequenceNumber":"1","ShardId":"shardId-000000000000"}
200 {"SequenceNumber":"2","ShardId":"shardId-000000000000"}
200 {"ShardIterator":"S0kxOjE6MDowOjIwMDA="}
200 {"MillisBehindLatest":0,"NextShardIterator":"S0kxOjE6MDozOjIwMDA=","Records":[{"ApproximateArrivalTimestamp":1,"Data":"aGk=","PartitionKey":"a","SequenceNumber":"1"},{"ApproximateArrivalTimestamp":1,"Data":"","PartitionKey":"abc","SequenceNumber":"2"}]}
200 {"MillisBehindLatest":999,"NextShardIterator":"S0kxOjE6MDoyOjIwMDA=","Records":[{"ApproximateArrivalTimestamp":1,"Data":"aGk=","PartitionKey":"a","SequenceNumber":"1"}]}
"#,
    "",
);

/// A shard iterator is accepted up to 300 seconds after it was issued. One millisecond later it has expired.
const EXPIRY: Row = (
    r#"1000 api CreateStream {"StreamName":"s","ShardCount":1}
302000 api GetRecords {"ShardIterator":"S0kxOjE6MDowOjIwMDA="}
302001 api GetRecords {"ShardIterator":"S0kxOjE6MDowOjIwMDA="}
"#,
    0,
    r#"200
200 {"MillisBehindLatest":0,"NextShardIterator":"S0kxOjE6MDowOjMwMjAwMA==","Records":[]}
400 {"__type":"ExpiredIteratorException","message":"iterator expired"}
"#,
    "",
);

/// A shard iterator is refused if the service would have written it in another way. The first iterator has a position
/// with a leading zero, the second iterator has no base64 padding, and the third iterator is empty.
const SECOND_SPELLINGS: Row = (
    r#"1000 api CreateStream {"StreamName":"s","ShardCount":1}
2000 api GetRecords {"ShardIterator":"S0kxOjE6MDowMDoyMDAw"}
2000 api GetRecords {"ShardIterator":"S0kxOjE6MDowOjIwMDA"}
2000 api GetRecords {"ShardIterator":""}
"#,
    0,
    r#"200
400 {"__type":"InvalidArgumentException","message":"ShardIterator is not valid"}
400 {"__type":"InvalidArgumentException","message":"ShardIterator is not valid"}
400 {"__type":"InvalidArgumentException","message":"ShardIterator is not valid"}
"#,
    "",
);

/// Shard iterators are requested at a sequence number, after a sequence number, and at LATEST. A request is refused if
/// its sequence number is out of range.
const POSITIONS: Row = (
    r#"1000 api CreateStream {"StreamName":"s","ShardCount":1}
1000 api PutRecord {"StreamName":"s","Data":"aGk=","PartitionKey":"a"}
2000 api GetShardIterator {"StreamName":"s","ShardId":"shardId-000000000000","ShardIteratorType":"AT_SEQUENCE_NUMBER","StartingSequenceNumber":"1"}
2000 api GetShardIterator {"StreamName":"s","ShardId":"shardId-000000000000","ShardIteratorType":"AFTER_SEQUENCE_NUMBER","StartingSequenceNumber":"1"}
2000 api GetShardIterator {"StreamName":"s","ShardId":"shardId-000000000000","ShardIteratorType":"LATEST"}
2000 api GetShardIterator {"StreamName":"s","ShardId":"shardId-000000000000","ShardIteratorType":"AT_SEQUENCE_NUMBER","StartingSequenceNumber":"2"}
2000 api GetShardIterator {"StreamName":"s","ShardId":"shardId-000000000000","ShardIteratorType":"AFTER_SEQUENCE_NUMBER","StartingSequenceNumber":"2"}
2000 api GetShardIterator {"StreamName":"s","ShardId":"shardId-000000000000","ShardIteratorType":"AT_SEQUENCE_NUMBER","StartingSequenceNumber":"0"}
"#,
    0,
    r#"200
200 {"SequenceNumber":"1","ShardId":"shardId-000000000000"}
200 {"ShardIterator":"S0kxOjE6MDoxOjIwMDA="}
200 {"ShardIterator":"S0kxOjE6MDoyOjIwMDA="}
200 {"ShardIterator":"S0kxOjE6MDoyOjIwMDA="}
200 {"ShardIterator":"S0kxOjE6MDoyOjIwMDA="}
400 {"__type":"InvalidArgumentException","message":"sequence number out of range"}
400 {"__type":"InvalidArgumentException","message":"sequence number out of range"}
"#,
    "",
);

/// A record expires after the retention period. A later increase of the retention period doesn't bring the record back.
/// A decrease to more hours than the present retention period is refused.
const RETENTION: Row = (
    r#"1000 api CreateStream {"StreamName":"s","ShardCount":1}
1000 api PutRecord {"StreamName":"s","Data":"aGk=","PartitionKey":"a"}
86400999 api GetRecords {"ShardIterator":"S0kxOjE6MDowOjg2NDAwOTk5"}
86401000 api GetRecords {"ShardIterator":"S0kxOjE6MDowOjg2NDAwOTk5"}
86401000 api IncreaseStreamRetentionPeriod {"StreamName":"s","RetentionPeriodHours":48}
86401000 api GetRecords {"ShardIterator":"S0kxOjE6MDowOjg2NDAwOTk5"}
86401000 api DecreaseStreamRetentionPeriod {"StreamName":"s","RetentionPeriodHours":72}
"#,
    0,
    r#"200
200 {"SequenceNumber":"1","ShardId":"shardId-000000000000"}
200 {"MillisBehindLatest":0,"NextShardIterator":"S0kxOjE6MDoyOjg2NDAwOTk5","Records":[{"ApproximateArrivalTimestamp":1,"Data":"aGk=","PartitionKey":"a","SequenceNumber":"1"}]}
200 {"MillisBehindLatest":0,"NextShardIterator":"S0kxOjE6MDowOjg2NDAxMDAw","Records":[]}
200
200 {"MillisBehindLatest":0,"NextShardIterator":"S0kxOjE6MDowOjg2NDAxMDAw","Records":[]}
400 {"__type":"InvalidArgumentException","message":"retention period does not fit"}
"#,
    "",
);

/// The partition keys of the records decide which of two shards gets each record.
const ROUTING: Row = (
    r#"1000 api CreateStream {"StreamName":"s","ShardCount":2}
1000 api PutRecord {"StreamName":"s","Data":"","PartitionKey":"a"}
1000 api PutRecord {"StreamName":"s","Data":"","PartitionKey":"abc"}
1000 api PutRecord {"StreamName":"s","Data":"","PartitionKey":"message digest"}
"#,
    0,
    r#"200
200 {"SequenceNumber":"1","ShardId":"shardId-000000000000"}
200 {"SequenceNumber":"2","ShardId":"shardId-000000000001"}
200 {"SequenceNumber":"3","ShardId":"shardId-000000000001"}
"#,
    "",
);

/// Records are put with explicit hash keys. The greatest hash key is accepted. A hash key that is too great, and one
/// with a leading zero, are refused.
const EXPLICIT_KEYS: Row = (
    r#"1000 api CreateStream {"StreamName":"s","ShardCount":2}
1000 api PutRecord {"StreamName":"s","Data":"","PartitionKey":"a","ExplicitHashKey":"340282366920938463463374607431768211455"}
1000 api PutRecord {"StreamName":"s","Data":"","PartitionKey":"a","ExplicitHashKey":"340282366920938463463374607431768211456"}
1000 api PutRecord {"StreamName":"s","Data":"","PartitionKey":"a","ExplicitHashKey":"00"}
"#,
    0,
    r#"200
200 {"SequenceNumber":"1","ShardId":"shardId-000000000001"}
400 {"__type":"ValidationException","message":"ExplicitHashKey is not valid"}
400 {"__type":"ValidationException","message":"ExplicitHashKey is not valid"}
"#,
    "",
);

/// A shard is split. A split at a hash key outside the shard's range is refused, and so is a split of the closed shard.
/// The closed shard is read to its end. The shards are listed in pages, and the token for the next page expires.
const SPLIT: Row = (
    r#"4000 api CreateStream {"StreamName":"s","ShardCount":1}
4000 api SplitShard {"StreamName":"s","ShardToSplit":"shardId-000000000000","NewStartingHashKey":"170141183460469231731687303715884105728"}
4000 api PutRecord {"StreamName":"s","Data":"","PartitionKey":"abc"}
4000 api SplitShard {"StreamName":"s","ShardToSplit":"shardId-000000000002","NewStartingHashKey":"170141183460469231731687303715884105728"}
4000 api SplitShard {"StreamName":"s","ShardToSplit":"shardId-000000000000","NewStartingHashKey":"170141183460469231731687303715884105728"}
4000 api GetRecords {"ShardIterator":"S0kxOjE6MDowOjQwMDA="}
4000 api GetRecords {"ShardIterator":"S0kxOjE6MTowOjQwMDA="}
4000 api ListShards {"StreamName":"s","MaxResults":1}
304001 api ListShards {"NextToken":"S1QxOjE6MDo0MDAw"}
"#,
    0,
    r#"200
200
200 {"SequenceNumber":"2","ShardId":"shardId-000000000002"}
400 {"__type":"InvalidArgumentException","message":"split key out of range"}
400 {"__type":"InvalidArgumentException","message":"shard is closed"}
200 {"ChildShards":[{"HashKeyRange":{"EndingHashKey":"170141183460469231731687303715884105727","StartingHashKey":"0"},"ParentShards":["shardId-000000000000"],"ShardId":"shardId-000000000001"},{"HashKeyRange":{"EndingHashKey":"340282366920938463463374607431768211455","StartingHashKey":"170141183460469231731687303715884105728"},"ParentShards":["shardId-000000000000"],"ShardId":"shardId-000000000002"}],"MillisBehindLatest":0,"NextShardIterator":null,"Records":[]}
200 {"MillisBehindLatest":0,"NextShardIterator":"S0kxOjE6MTowOjQwMDA=","Records":[]}
200 {"NextToken":"S1QxOjE6MDo0MDAw","Shards":[{"HashKeyRange":{"EndingHashKey":"340282366920938463463374607431768211455","StartingHashKey":"0"},"SequenceNumberRange":{"EndingSequenceNumber":"1","StartingSequenceNumber":"1"},"ShardId":"shardId-000000000000"}]}
400 {"__type":"ExpiredNextTokenException","message":"next token expired"}
"#,
    "",
);

/// Two adjacent shards are merged. A merge of shards that aren't adjacent, or of a closed shard, is refused.
const MERGE: Row = (
    r#"4000 api CreateStream {"StreamName":"s","ShardCount":3}
4000 api MergeShards {"StreamName":"s","ShardToMerge":"shardId-000000000000","AdjacentShardToMerge":"shardId-000000000002"}
4000 api MergeShards {"StreamName":"s","ShardToMerge":"shardId-000000000001","AdjacentShardToMerge":"shardId-000000000001"}
4000 api MergeShards {"StreamName":"s","ShardToMerge":"shardId-000000000001","AdjacentShardToMerge":"shardId-000000000000"}
4000 api ListShards {"StreamName":"s","ExclusiveStartShardId":"shardId-000000000002"}
4000 api MergeShards {"StreamName":"s","ShardToMerge":"shardId-000000000000","AdjacentShardToMerge":"shardId-000000000002"}
"#,
    0,
    r#"200
400 {"__type":"InvalidArgumentException","message":"shards are not adjacent"}
400 {"__type":"InvalidArgumentException","message":"shards are not adjacent"}
200
200 {"Shards":[{"AdjacentParentShardId":"shardId-000000000000","HashKeyRange":{"EndingHashKey":"226854911280625642308916404954512140969","StartingHashKey":"0"},"ParentShardId":"shardId-000000000001","SequenceNumberRange":{"StartingSequenceNumber":"2"},"ShardId":"shardId-000000000003"}]}
400 {"__type":"InvalidArgumentException","message":"shard is closed"}
"#,
    "",
);

/// The first stream has 500 open shards, which is the limit, so another stream is refused. If the name of a new stream
/// is in use, the stream is refused because of its name instead.
const OPEN_SHARDS: Row = (
    r#"1000 api CreateStream {"StreamName":"s","ShardCount":500}
1000 api CreateStream {"StreamName":"t","ShardCount":1}
1000 api CreateStream {"StreamName":"s","ShardCount":1}
"#,
    0,
    r#"200
400 {"__type":"LimitExceededException","message":"limit reached"}
400 {"__type":"ResourceInUseException","message":"stream exists"}
"#,
    "",
);

/// A stream is deleted, and another stream of the same name is created. A shard iterator of the deleted stream finds no
/// stream, because the number of the deleted stream isn't used again.
const DELETED: Row = (
    r#"1000 api CreateStream {"StreamName":"s","ShardCount":1}
1000 api PutRecord {"StreamName":"s","Data":"aGk=","PartitionKey":"a"}
2000 api DeleteStream {"StreamName":"s"}
2000 api DeleteStream {"StreamName":"s"}
2000 api CreateStream {"StreamName":"s","ShardCount":1}
3000 api GetRecords {"ShardIterator":"S0kxOjE6MDowOjIwMDA="}
3000 api GetShardIterator {"StreamName":"s","ShardId":"shardId-000000000000","ShardIteratorType":"TRIM_HORIZON"}
"#,
    0,
    r#"200
200 {"SequenceNumber":"1","ShardId":"shardId-000000000000"}
200
400 {"__type":"ResourceNotFoundException","message":"stream not found"}
200
400 {"__type":"ResourceNotFoundException","message":"stream not found"}
200 {"ShardIterator":"S0kxOjI6MDowOjMwMDA="}
"#,
    "",
);

/// Shard iterators are requested for the time at which a record arrived, and for a time after all records. The
/// timestamp 1.5 is refused, since only whole seconds are accepted.
const TIMES: Row = (
    r#"1000 api CreateStream {"StreamName":"s","ShardCount":1}
1000 api PutRecord {"StreamName":"s","Data":"aGk=","PartitionKey":"a"}
1001 api PutRecord {"StreamName":"s","Data":"","PartitionKey":"abc"}
2000 api GetShardIterator {"StreamName":"s","ShardId":"shardId-000000000000","ShardIteratorType":"AT_TIMESTAMP","Timestamp":1}
2000 api GetShardIterator {"StreamName":"s","ShardId":"shardId-000000000000","ShardIteratorType":"AT_TIMESTAMP","Timestamp":2}
2000 api GetShardIterator {"StreamName":"s","ShardId":"shardId-000000000000","ShardIteratorType":"AT_TIMESTAMP","Timestamp":1.5}
"#,
    0,
    r#"200
200 {"SequenceNumber":"1","ShardId":"shardId-000000000000"}
200 {"SequenceNumber":"2","ShardId":"shardId-000000000000"}
200 {"ShardIterator":"S0kxOjE6MDoxOjIwMDA="}
200 {"ShardIterator":"S0kxOjE6MDozOjIwMDA="}
400 {"__type":"ValidationException","message":"Timestamp is not valid"}
"#,
    "",
);

/// Two records are put by one PutRecords request.
const TOGETHER: Row = (
    r#"1000 api CreateStream {"StreamName":"s","ShardCount":1}
1000 api PutRecord {"StreamName":"s","Data":"aGk=","PartitionKey":"a"}
1000 api PutRecords {"StreamName":"s","Records":[{"PartitionKey":"a","Data":""},{"PartitionKey":"abc","Data":"aGk="}]}
"#,
    0,
    r#"200
200 {"SequenceNumber":"1","ShardId":"shardId-000000000000"}
200 {"FailedRecordCount":0,"Records":[{"SequenceNumber":"2","ShardId":"shardId-000000000000"},{"SequenceNumber":"3","ShardId":"shardId-000000000000"}]}
"#,
    "",
);

/// The shards of a stream are listed in two pages.
const PAGES: Row = (
    r#"1000 api CreateStream {"StreamName":"s","ShardCount":2}
2000 api ListShards {"StreamName":"s","MaxResults":1}
2000 api ListShards {"NextToken":"S1QxOjE6MDoyMDAw"}
"#,
    0,
    r#"200
200 {"NextToken":"S1QxOjE6MDoyMDAw","Shards":[{"HashKeyRange":{"EndingHashKey":"170141183460469231731687303715884105727","StartingHashKey":"0"},"SequenceNumberRange":{"StartingSequenceNumber":"1"},"ShardId":"shardId-000000000000"}]}
200 {"Shards":[{"HashKeyRange":{"EndingHashKey":"340282366920938463463374607431768211455","StartingHashKey":"170141183460469231731687303715884105728"},"SequenceNumberRange":{"StartingSequenceNumber":"1"},"ShardId":"shardId-000000000001"}]}
"#,
    "",
);

/// The summary of a stream is requested.
const SUMMARY: Row = (
    r#"1000 api CreateStream {"StreamName":"s","ShardCount":1}
1000 api PutRecord {"StreamName":"s","Data":"aGk=","PartitionKey":"a"}
2000 api DescribeStreamSummary {"StreamName":"s"}
"#,
    0,
    r#"200
200 {"SequenceNumber":"1","ShardId":"shardId-000000000000"}
200 {"StreamDescriptionSummary":{"EnhancedMonitoring":[{"ShardLevelMetrics":[]}],"OpenShardCount":1,"RetentionPeriodHours":24,"StreamARN":"arn:aws:kinesis:local:000000000000:stream/s","StreamCreationTimestamp":1,"StreamName":"s","StreamStatus":"ACTIVE"}}
"#,
    "",
);

/// The names of the streams are listed in two pages.
const NAMES: Row = (
    r#"1000 api CreateStream {"StreamName":"b","ShardCount":1}
1000 api CreateStream {"StreamName":"a","ShardCount":1}
1000 api ListStreams {"Limit":1}
1000 api ListStreams {"ExclusiveStartStreamName":"a","Limit":1}
"#,
    0,
    r#"200
200
200 {"HasMoreStreams":true,"StreamNames":["a"]}
200 {"HasMoreStreams":false,"StreamNames":["b"]}
"#,
    "",
);

/// A stream is scaled from two shards to three shards with uniform ranges, by a merge and two splits. A second request
/// for three shards changes nothing. A scaling beyond the limits is refused, and so is a scaling of a stream that
/// doesn't exist.
const SCALING: Row = (
    r#"1000 api CreateStream {"StreamName":"s","ShardCount":2}
1000 api UpdateShardCount {"StreamName":"s","TargetShardCount":3,"ScalingType":"UNIFORM_SCALING"}
1000 api PutRecord {"StreamName":"s","Data":"aGk=","PartitionKey":"a"}
1000 api ListShards {"StreamName":"s","ExclusiveStartShardId":"shardId-000000000001"}
1000 api UpdateShardCount {"StreamName":"s","TargetShardCount":3,"ScalingType":"UNIFORM_SCALING"}
1000 api UpdateShardCount {"StreamName":"s","TargetShardCount":501,"ScalingType":"UNIFORM_SCALING"}
1000 api UpdateShardCount {"StreamName":"t","TargetShardCount":500,"ScalingType":"UNIFORM_SCALING"}
1000 api CreateStream {"StreamName":"t","ShardCount":1}
1000 api UpdateShardCount {"StreamName":"s","TargetShardCount":500,"ScalingType":"UNIFORM_SCALING"}
1000 api PutRecord {"StreamName":"s","Data":"aGk=","PartitionKey":"a"}
"#,
    0,
    r#"200
200 {"CurrentShardCount":2,"StreamName":"s","TargetShardCount":3}
200 {"SequenceNumber":"4","ShardId":"shardId-000000000003"}
200 {"Shards":[{"AdjacentParentShardId":"shardId-000000000001","HashKeyRange":{"EndingHashKey":"340282366920938463463374607431768211455","StartingHashKey":"0"},"ParentShardId":"shardId-000000000000","SequenceNumberRange":{"EndingSequenceNumber":"2","StartingSequenceNumber":"2"},"ShardId":"shardId-000000000002"},{"HashKeyRange":{"EndingHashKey":"113427455640312821154458202477256070484","StartingHashKey":"0"},"ParentShardId":"shardId-000000000002","SequenceNumberRange":{"StartingSequenceNumber":"3"},"ShardId":"shardId-000000000003"},{"HashKeyRange":{"EndingHashKey":"340282366920938463463374607431768211455","StartingHashKey":"113427455640312821154458202477256070485"},"ParentShardId":"shardId-000000000002","SequenceNumberRange":{"EndingSequenceNumber":"3","StartingSequenceNumber":"3"},"ShardId":"shardId-000000000004"},{"HashKeyRange":{"EndingHashKey":"226854911280625642308916404954512140969","StartingHashKey":"113427455640312821154458202477256070485"},"ParentShardId":"shardId-000000000004","SequenceNumberRange":{"StartingSequenceNumber":"4"},"ShardId":"shardId-000000000005"},{"HashKeyRange":{"EndingHashKey":"340282366920938463463374607431768211455","StartingHashKey":"226854911280625642308916404954512140970"},"ParentShardId":"shardId-000000000004","SequenceNumberRange":{"StartingSequenceNumber":"4"},"ShardId":"shardId-000000000006"}]}
200 {"CurrentShardCount":3,"StreamName":"s","TargetShardCount":3}
400 {"__type":"ValidationException","message":"TargetShardCount is not valid"}
400 {"__type":"ResourceNotFoundException","message":"stream not found"}
200
400 {"__type":"LimitExceededException","message":"limit reached"}
200 {"SequenceNumber":"5","ShardId":"shardId-000000000003"}
"#,
    "",
);

#[test]
fn requests_to_streams_are_answered(rt: HostRuntime) -> Result<(), Fail> {
    let rows = [
        ("iterators", ITERATORS),
        ("expiry", EXPIRY),
        ("second spellings", SECOND_SPELLINGS),
        ("positions", POSITIONS),
        ("retention", RETENTION),
        ("routing", ROUTING),
        ("explicit keys", EXPLICIT_KEYS),
        ("split", SPLIT),
        ("merge", MERGE),
        ("open shards", OPEN_SHARDS),
        ("deleted", DELETED),
        ("times", TIMES),
        ("together", TOGETHER),
        ("pages", PAGES),
        ("summary", SUMMARY),
        ("names", NAMES),
        ("scaling", SCALING),
    ];
    let other = first_other(rt.alloc(), Run::Replay, &rows, &[4096])?;
    assert!(rt; other.is_empty(), "{other}");
    Ok(())
}
