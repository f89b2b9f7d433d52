//! Tests of lease commands. The tests are schedules (recorded workloads) with their outputs. Each line of a schedule is
//! one request, one lease command, or one instruction to a worker. An actor is the number of a client or a worker that
//! sends commands. The row of a lease is its item in the lease table, and a tenure is one worker's hold on a lease. The
//! command `open` opens the shard of a tenure, `read` reads a batch, `give` reports a batch as processed, and `mark`
//! sets the checkpoint.
use crate::harness::{Row, Run, first_other};
use std::test::Fail;

/// Actor 1 has read a batch when actor 2 takes the lease away from it. Actor 1 may still report this batch as processed
/// (`give`), but it can't set the checkpoint any more: its `mark` is refused. Then actor 2, in its new tenure, tries
/// `read`, `give` and `mark` in several orders.
const ROBBED: Row = (
    r#"1000 api CreateStream {"StreamName":"s","ShardCount":1}
1000 api PutRecord {"StreamName":"s","Data":"aGk=","PartitionKey":"a"}
1001 api PutRecord {"StreamName":"s","Data":"","PartitionKey":"abc"}
3000 raw 1 make 1/0
3000 raw 1 take 1/0 0 w1
3000 raw 2 take 1/0 0 w2
3000 raw 1 open 1
3000 raw 1 read 1 0 10
3000 raw 2 take 1/0 1 w2
3000 raw 1 give 1
3000 raw 1 mark 1 1 2
3000 raw 2 mark 1 2 2
3000 raw 2 open 2
3000 raw 2 read 2 1 10
3000 raw 2 read 2 0 10
3000 raw 2 mark 2 2 2
3000 raw 2 give 2
3000 raw 2 give 2
3000 raw 2 mark 2 2 2
3000 raw 2 mark 2 3 1
3000 raw 2 mark 2 3 2
3000 raw 2 mark 2 4 end
3000 raw 2 rows
3000 raw 2 free 2 4
3000 raw 2 renew 2 5
"#,
    0,
    r#"200
200 {"SequenceNumber":"1","ShardId":"shardId-000000000000"}
200 {"SequenceNumber":"2","ShardId":"shardId-000000000000"}
ok
ok tenure 1 counter 1 start TRIM_HORIZON
refused Moved 1
ok
ok reach 3 more 1 2
ok tenure 2 counter 2 start TRIM_HORIZON
ok delivered 3
refused Lost 2
refused NotYours
ok
refused OutOfPlace 0
ok reach 3 more 1 2
refused Beyond 0
ok delivered 3
refused NothingPending
ok counter 3
refused Below 2
ok counter 4
refused NotAtEnd
ok 1 1/0 w2 4 2 0
ok counter 5
refused Lost 0
"#,
    "",
);

/// Shard 2 is the child of a merge. It can't be opened before both of its parents have been processed to their ends. So
/// `open` is refused at first, and again when only one parent is done. When both parents are done, `open` is accepted.
const BOTH_ENDED: Row = (
    r#"4000 api CreateStream {"StreamName":"s","ShardCount":2}
4000 api MergeShards {"StreamName":"s","ShardToMerge":"shardId-000000000000","AdjacentShardToMerge":"shardId-000000000001"}
4000 raw 1 make 1/0
4000 raw 1 make 1/1
4000 raw 1 make 1/2
4000 raw 3 take 1/2 0 w3
4000 raw 3 open 1
4000 raw 1 take 1/0 0 w1
4000 raw 1 open 2
4000 raw 1 read 2 0 10
4000 raw 1 give 2
4000 raw 1 mark 2 1 end
4000 raw 3 open 1
4000 raw 1 take 1/1 0 w1
4000 raw 1 open 3
4000 raw 1 read 3 0 10
4000 raw 1 give 3
4000 raw 1 mark 3 1 end
4000 raw 3 open 1
"#,
    0,
    r#"200
200
ok
ok
ok
ok tenure 1 counter 1 start TRIM_HORIZON
refused ParentsOpen 1/0
ok tenure 2 counter 1 start TRIM_HORIZON
ok
ok reach 0 end
ok delivered 0
ok counter 2
refused ParentsOpen 1/1
ok tenure 3 counter 1 start TRIM_HORIZON
ok
ok reach 0 end
ok delivered 0
ok counter 2
ok
"#,
    "",
);

/// As in `BOTH_ENDED`, a shard is the child of a merge. One of its parents is processed to its end. The other parent
/// isn't processed to its end, but it expires. Then the child can be opened, and the row of the expired parent can be
/// removed.
const ONE_EXPIRED: Row = (
    r#"4000 api CreateStream {"StreamName":"s","ShardCount":2}
4000 api MergeShards {"StreamName":"s","ShardToMerge":"shardId-000000000000","AdjacentShardToMerge":"shardId-000000000001"}
4000 raw 1 make 1/0
4000 raw 1 make 1/1
4000 raw 1 make 1/2
4000 raw 3 take 1/2 0 w3
4000 raw 3 open 1
4000 raw 1 take 1/0 0 w1
4000 raw 1 open 2
4000 raw 1 read 2 0 10
4000 raw 1 give 2
4000 raw 1 mark 2 1 end
4000 raw 3 open 1
4000 raw 1 cut 1/1 0
86404000 raw 3 open 1
86404000 raw 1 cut 1/1 0
"#,
    0,
    r#"200
200
ok
ok
ok
ok tenure 1 counter 1 start TRIM_HORIZON
refused ParentsOpen 1/0
ok tenure 2 counter 1 start TRIM_HORIZON
ok
ok reach 0 end
ok delivered 0
ok counter 2
refused ParentsOpen 1/1
refused ShardListed
ok
ok
"#,
    "",
);

/// A record is read, and expires before its batch is reported as processed. The batch can still be reported, and the
/// checkpoint can still be set to the record.
const TRIMMED: Row = (
    r#"1000 api CreateStream {"StreamName":"s","ShardCount":1}
1000 api PutRecord {"StreamName":"s","Data":"aGk=","PartitionKey":"a"}
1000 raw 1 make 1/0
1000 raw 1 take 1/0 0 w1
1000 raw 1 open 1
1000 raw 1 read 1 0 10
86401000 raw 1 give 1
86401000 raw 1 mark 1 1 1
"#,
    0,
    r#"200
200 {"SequenceNumber":"1","ShardId":"shardId-000000000000"}
ok
ok tenure 1 counter 1 start TRIM_HORIZON
ok
ok reach 2 more 1
ok delivered 2
ok counter 2
"#,
    "",
);

/// Commands that are refused: commands for a row, a shard and a tenure that don't exist, a `make` for a row that exists
/// already, a `read` before the `open`, a second `open`, and a ninth `read` while eight batches are read but not yet
/// reported as processed.
const READS: Row = (
    r#"1000 api CreateStream {"StreamName":"s","ShardCount":1}
3000 raw 1 take 1/0 0 w1
3000 raw 1 make 1/9
3000 raw 1 make 1/0
3000 raw 1 make 1/0
3000 raw 1 renew 5 0
3000 raw 1 take 1/0 0 w1
3000 raw 1 read 1 0 10
3000 raw 1 open 1
3000 raw 1 open 1
3000 raw 1 read 1 0 10
3000 raw 1 read 1 0 10
3000 raw 1 read 1 0 10
3000 raw 1 read 1 0 10
3000 raw 1 read 1 0 10
3000 raw 1 read 1 0 10
3000 raw 1 read 1 0 10
3000 raw 1 read 1 0 10
3000 raw 1 read 1 0 10
"#,
    0,
    r#"200
refused NoLease
refused ShardGone
ok
refused LeaseThere
refused NoTenure
ok tenure 1 counter 1 start TRIM_HORIZON
refused NotOpened
ok
refused OpenedBefore
ok reach 0 more
ok reach 0 more
ok reach 0 more
ok reach 0 more
ok reach 0 more
ok reach 0 more
ok reach 0 more
ok reach 0 more
refused TooManyPending
"#,
    "",
);

/// The row of a lease is made with the initial position LATEST. Earlier records aren't read, and no checkpoint may be
/// set below this position. Then the shard is split. The row of the child is made with LATEST too, but the child is
/// read from its first record.
const LATEST: Row = (
    r#"1000 api CreateStream {"StreamName":"s","ShardCount":1}
1000 api PutRecord {"StreamName":"s","Data":"aGk=","PartitionKey":"a"}
1000 api PutRecord {"StreamName":"s","Data":"","PartitionKey":"abc"}
2000 raw 1 make 1/0 latest
2000 raw 1 rows
2000 raw 1 take 1/0 0 w1
2000 raw 1 open 1
2000 raw 1 read 1 3 10
3000 api PutRecord {"StreamName":"s","Data":"aGk=","PartitionKey":"a"}
3000 raw 1 read 1 3 10
3000 raw 1 give 1
3000 raw 1 give 1
3000 raw 1 mark 1 1 1
3000 raw 1 mark 1 1 3
4000 api SplitShard {"StreamName":"s","ShardToSplit":"shardId-000000000000","NewStartingHashKey":"170141183460469231731687303715884105728"}
4000 raw 1 make 1/1 latest
4000 raw 1 take 1/1 0 w1
"#,
    0,
    r#"200
200 {"SequenceNumber":"1","ShardId":"shardId-000000000000"}
200 {"SequenceNumber":"2","ShardId":"shardId-000000000000"}
ok
ok 1 1/0 - 0 2 0
ok tenure 1 counter 1 start 2
ok
ok reach 3 more
200 {"SequenceNumber":"3","ShardId":"shardId-000000000000"}
ok reach 4 more 3
ok delivered 3
ok delivered 4
refused Below 2
ok counter 2
200
ok
ok tenure 2 counter 1 start TRIM_HORIZON
"#,
    "",
);

/// As in `LATEST`, but both rows are made after the split. The initial position of the parent's row is then above the
/// parent's last sequence number. For this reason, the initial position of the child's row is LATEST too, and not the
/// child's first record.
const LATEST_AFTER_A_SPLIT: Row = (
    r#"1000 api CreateStream {"StreamName":"s","ShardCount":1}
1000 api SplitShard {"StreamName":"s","ShardToSplit":"shardId-000000000000","NewStartingHashKey":"170141183460469231731687303715884105728"}
1000 raw 1 make 1/0 latest
1000 raw 1 make 1/1 latest
1000 raw 1 take 1/1 0 w1
"#,
    0,
    r#"200
200
ok
ok
ok tenure 1 counter 1 start 1
"#,
    "",
);

/// Rows are made with a given time as their start (AT_TIMESTAMP). The position of such a row is the first record that
/// arrived at this time or later. If there is no such record, the position is the next sequence number.
const MOMENTS: Row = (
    r#"1000 api CreateStream {"StreamName":"s","ShardCount":1}
1000 api PutRecord {"StreamName":"s","Data":"aGk=","PartitionKey":"a"}
2000 api PutRecord {"StreamName":"s","Data":"","PartitionKey":"abc"}
3000 raw 1 make 1/0 time 1001
3000 raw 1 rows
3000 raw 1 cut 1/0 0
3000 raw 1 take 1/0 0 w1
3000 raw 1 open 1
3000 raw 1 read 1 2 10
3000 api CreateStream {"StreamName":"t","ShardCount":1}
3000 raw 1 make 2/0 time 4000
3000 raw 1 take 2/0 0 w1
3000 raw 1 make 2/0 latest
"#,
    0,
    r#"200
200 {"SequenceNumber":"1","ShardId":"shardId-000000000000"}
200 {"SequenceNumber":"2","ShardId":"shardId-000000000000"}
ok
ok 1 1/0 - 0 1 0
refused ShardListed
ok tenure 1 counter 1 start 1
ok
ok reach 3 more 2
200
ok
ok tenure 2 counter 1 start 0
refused LeaseThere
"#,
    "",
);

#[test]
fn leases_are_held_and_lost(rt: HostRuntime) -> Result<(), Fail> {
    let rows = [
        ("robbed", ROBBED),
        ("both ended", BOTH_ENDED),
        ("one expired", ONE_EXPIRED),
        ("trimmed", TRIMMED),
        ("reads", READS),
        ("latest", LATEST),
        ("latest after a split", LATEST_AFTER_A_SPLIT),
        ("moments", MOMENTS),
    ];
    let other = first_other(rt.alloc(), Run::Replay, &rows, &[4096])?;
    assert!(rt; other.is_empty(), "{other}");
    Ok(())
}
