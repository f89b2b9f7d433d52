//! Tests of workers. The tests are schedules (recorded workloads) with their outputs. Each line of a schedule is one
//! request, one lease command, or one instruction to a worker. An actor is the number of a client or a worker that
//! sends commands. The row of a lease is its item in the lease table.
use crate::harness::{Row, Run, first_other};
use std::test::Fail;

/// The worker w1 is restarted as actor 1001 while it still runs as actor 1000. Actor 1001 takes the lease. Then the
/// command `mark`, by which actor 1000 sets the checkpoint, is refused.
const RESTART: Row = (
    r#"3000 api CreateStream {"StreamName":"s","ShardCount":1}
3000 api PutRecord {"StreamName":"s","Data":"aGk=","PartitionKey":"a"}
3000 api PutRecord {"StreamName":"s","Data":"","PartitionKey":"abc"}
3000 worker w1 tally
3000 step 1000
3000 step 1000
3000 step 1000
3000 step 1000
3000 step 1000
3000 step 1000
3000 step 1000
3000 step 1000
3000 step 1000
3000 step 1000
3000 worker w1 tally
3000 step 1001
3000 step 1001
3000 step 1000
3000 step 7
"#,
    0,
    r#"200
200 {"SequenceNumber":"1","ShardId":"shardId-000000000000"}
200 {"SequenceNumber":"2","ShardId":"shardId-000000000000"}
worker 1000
survey = ok 1 0
make 1/0 = ok
survey = ok 1 1
take 1/0 0 w1 = ok tenure 1 counter 1 start TRIM_HORIZON
open 1 = ok
survey = ok 1 1
read 1 0 1000 = ok reach 3 more 1 2
survey = ok 1 1
give 1 = ok delivered 3
survey = ok 1 1
worker 1001
survey = ok 1 1
take 1/0 1 w1 = ok tenure 2 counter 2 start TRIM_HORIZON
mark 1 1 2 = refused Lost 2
none
"#,
    "",
);

/// The worker's processor asks for a checkpoint at the first sequence number of its batch. The worker's eleventh step
/// sets this checkpoint.
const FIRST_NUMBER: Row = (
    r#"3000 api CreateStream {"StreamName":"s","ShardCount":1}
3000 api PutRecord {"StreamName":"s","Data":"aGk=","PartitionKey":"a"}
3000 api PutRecord {"StreamName":"s","Data":"","PartitionKey":"abc"}
3000 worker w1 lines
3000 step 1000
3000 step 1000
3000 step 1000
3000 step 1000
3000 step 1000
3000 step 1000
3000 step 1000
3000 step 1000
3000 step 1000
3000 step 1000
3000 step 1000
"#,
    0,
    r#"200
200 {"SequenceNumber":"1","ShardId":"shardId-000000000000"}
200 {"SequenceNumber":"2","ShardId":"shardId-000000000000"}
worker 1000
survey = ok 1 0
make 1/0 = ok
survey = ok 1 1
take 1/0 0 w1 = ok tenure 1 counter 1 start TRIM_HORIZON
open 1 = ok
survey = ok 1 1
read 1 0 1000 = ok reach 3 more 1 2
survey = ok 1 1
give 1 = ok delivered 3
survey = ok 1 1
mark 1 1 1 = ok counter 2
"#,
    "",
);

/// The worker's processor handles user records. The second record is an aggregate of two user records. The processor
/// reports that all user records but the last are done. So the worker's eleventh step sets the checkpoint to the record
/// before the aggregate.
const USER_RECORDS: Row = (
    r#"3000 api CreateStream {"StreamName":"s","ShardCount":1}
3000 api PutRecord {"StreamName":"s","Data":"aGk=","PartitionKey":"a"}
3000 api PutRecord {"StreamName":"s","Data":"84mawgoBYQoBYhIBNRoGCAAaAmhpGggIARAAGgJ5b6p0rTCTYKXGBNMY5vYP+w8=","PartitionKey":"abc"}
3000 worker w1 users
3000 step 1000
3000 step 1000
3000 step 1000
3000 step 1000
3000 step 1000
3000 step 1000
3000 step 1000
3000 step 1000
3000 step 1000
3000 step 1000
3000 step 1000
"#,
    0,
    r#"200
200 {"SequenceNumber":"1","ShardId":"shardId-000000000000"}
200 {"SequenceNumber":"2","ShardId":"shardId-000000000000"}
worker 1000
survey = ok 1 0
make 1/0 = ok
survey = ok 1 1
take 1/0 0 w1 = ok tenure 1 counter 1 start TRIM_HORIZON
open 1 = ok
survey = ok 1 1
read 1 0 1000 = ok reach 3 more 1 2
survey = ok 1 1
give 1 = ok delivered 3
survey = ok 1 1
mark 1 1 1 = ok counter 2
"#,
    "",
);

/// A worker that is stopped frees its lease, and then is idle. A `stop` or `step` line for an actor without a worker
/// prints `none`.
const STOPPED: Row = (
    r#"3000 api CreateStream {"StreamName":"s","ShardCount":1}
3000 api PutRecord {"StreamName":"s","Data":"aGk=","PartitionKey":"a"}
3000 api PutRecord {"StreamName":"s","Data":"","PartitionKey":"abc"}
3000 worker w1 tally
3000 step 1000
3000 step 1000
3000 step 1000
3000 step 1000
3000 step 1000
3000 step 1000
3000 step 1000
3000 step 1000
3000 step 1000
3000 step 1000
3000 stop 1000
3000 step 1000
3000 step 1000
3000 step 1000
3000 stop 1000
3000 stop 1001
3000 stop 0
3000 step 1001
3000 step 999
3000 step 4294967295
3000 raw 1 rows
"#,
    0,
    r#"200
200 {"SequenceNumber":"1","ShardId":"shardId-000000000000"}
200 {"SequenceNumber":"2","ShardId":"shardId-000000000000"}
worker 1000
survey = ok 1 0
make 1/0 = ok
survey = ok 1 1
take 1/0 0 w1 = ok tenure 1 counter 1 start TRIM_HORIZON
open 1 = ok
survey = ok 1 1
read 1 0 1000 = ok reach 3 more 1 2
survey = ok 1 1
give 1 = ok delivered 3
survey = ok 1 1
stopping
free 1 1 = ok counter 2
idle
idle
stopping
none
none
none
none
none
ok 1 1/0 - 2 TRIM_HORIZON 0
"#,
    "",
);

/// A worker makes the rows of its leases with the initial position LATEST. So it reads only the records that are put
/// after the row of their shard was made.
const AT_LATEST: Row = (
    r#"3000 api CreateStream {"StreamName":"s","ShardCount":1}
3000 api PutRecord {"StreamName":"s","Data":"aGk=","PartitionKey":"a"}
3000 api PutRecord {"StreamName":"s","Data":"","PartitionKey":"abc"}
3000 worker w1 tally latest
3000 step 1000
3000 step 1000
3000 step 1000
3000 step 1000
3000 step 1000
3000 step 1000
3000 step 1000
3000 step 1000
3000 step 1000
3000 step 1000
3000 api PutRecord {"StreamName":"s","Data":"eA==","PartitionKey":"a"}
3000 step 1000
3000 step 1000
3000 step 1000
"#,
    0,
    r#"200
200 {"SequenceNumber":"1","ShardId":"shardId-000000000000"}
200 {"SequenceNumber":"2","ShardId":"shardId-000000000000"}
worker 1000
survey = ok 1 0
make 1/0 latest = ok
survey = ok 1 1
take 1/0 0 w1 = ok tenure 1 counter 1 start 2
open 1 = ok
survey = ok 1 1
read 1 3 1000 = ok reach 3 more
survey = ok 1 1
give 1 = ok delivered 3
survey = ok 1 1
200 {"SequenceNumber":"3","ShardId":"shardId-000000000000"}
read 1 3 1000 = ok reach 4 more 3
survey = ok 1 1
give 1 = ok delivered 4
"#,
    "",
);

#[test]
fn workers_call_their_processors(rt: HostRuntime) -> Result<(), Fail> {
    let rows = [
        ("restart", RESTART),
        ("first number", FIRST_NUMBER),
        ("user records", USER_RECORDS),
        ("stopped", STOPPED),
        ("at latest", AT_LATEST),
    ];
    let other = first_other(rt.alloc(), Run::Replay, &rows, &[4096])?;
    assert!(rt; other.is_empty(), "{other}");
    Ok(())
}
