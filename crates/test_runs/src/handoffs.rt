//! Tests of hand-offs, in which a worker releases a lease gracefully. The tests are schedules (recorded workloads) with
//! their outputs, and one schedule with its journal (the event log of a run). Each line of a schedule is one request,
//! one lease command, or one instruction to a worker. An actor is the number of a client or a worker that sends
//! commands. A turn is one command, applied to the streams and leases.
use crate::harness::{Row, Run, first_other};
use std::test::Fail;

/// After ten steps of the worker, its processor has processed both records. The hand-off sets the checkpoint to the
/// second record and frees the lease. Another worker then takes the lease and reads from the position after these
/// records. The last three lines hand nothing off, because the worker holds no lease of the given shard, or because the
/// actor in the line isn't a worker.
const GIVEN: Row = (
    r#"3000 api CreateStream {"StreamName":"s","ShardCount":1}
3000 api PutRecord {"StreamName":"s","Data":"aGk=","PartitionKey":"a"}
3000 api PutRecord {"StreamName":"s","Data":"","PartitionKey":"abc"}
3000 worker w1 tally
3000 step 1000
3000 step 1000
3000 step 1000
3000 step 1000
3000 step 1000
3000 step 1000
3000 step 1000
3000 step 1000
3000 step 1000
3000 step 1000
3000 hand 1000 1/0
3000 raw 2 take 1/0 3 w2
3000 raw 2 open 2
3000 raw 2 read 2 3 10
3000 hand 1000 1/0
3000 hand 1000 1/1
3000 hand 7 1/0
"#,
    0,
    r#"200
200 {"SequenceNumber":"1","ShardId":"shardId-000000000000"}
200 {"SequenceNumber":"2","ShardId":"shardId-000000000000"}
worker 1000
survey = ok 1 0
make 1/0 = ok
survey = ok 1 1
take 1/0 0 w1 = ok tenure 1 counter 1 start TRIM_HORIZON
open 1 = ok
survey = ok 1 1
read 1 0 1000 = ok reach 3 more 1 2
survey = ok 1 1
give 1 = ok delivered 3
survey = ok 1 1
mark 1 1 2 = ok counter 2; free 1 2 = ok counter 3; handed
ok tenure 2 counter 4 start 2
ok
ok reach 3 more
none
none
none
"#,
    "",
);

/// After seven steps the worker has read a batch, but its processor hasn't been called for the batch. So the hand-off
/// reports no batch as processed and sets no checkpoint. It only frees the lease.
const READ: Row = (
    r#"3000 api CreateStream {"StreamName":"s","ShardCount":1}
3000 api PutRecord {"StreamName":"s","Data":"aGk=","PartitionKey":"a"}
3000 api PutRecord {"StreamName":"s","Data":"","PartitionKey":"abc"}
3000 worker w1 tally
3000 step 1000
3000 step 1000
3000 step 1000
3000 step 1000
3000 step 1000
3000 step 1000
3000 step 1000
3000 hand 1000 1/0
3000 raw 1 rows
"#,
    0,
    r#"200
200 {"SequenceNumber":"1","ShardId":"shardId-000000000000"}
200 {"SequenceNumber":"2","ShardId":"shardId-000000000000"}
worker 1000
survey = ok 1 0
make 1/0 = ok
survey = ok 1 1
take 1/0 0 w1 = ok tenure 1 counter 1 start TRIM_HORIZON
open 1 = ok
survey = ok 1 1
read 1 0 1000 = ok reach 3 more 1 2
free 1 1 = ok counter 2; handed
ok 1 1/0 - 2 TRIM_HORIZON 0
"#,
    "",
);

/// A schedule with eight steps of a worker, and then a hand-off. In the eighth step, the worker calls its processor
/// with the batch.
const HANDED_LINES: &str = r#"3000 api CreateStream {"StreamName":"s","ShardCount":1}
3000 api PutRecord {"StreamName":"s","Data":"aGk=","PartitionKey":"a"}
3000 api PutRecord {"StreamName":"s","Data":"","PartitionKey":"abc"}
3000 worker w1 tally
3000 step 1000
3000 step 1000
3000 step 1000
3000 step 1000
3000 step 1000
3000 step 1000
3000 step 1000
3000 step 1000
3000 hand 1000 1/0
"#;

/// The hand-off makes three turns: `give` reports the processor's batch as processed, `mark` sets the checkpoint to the
/// batch's last record, and `free` frees the lease.
const HANDED: Row = (
    HANDED_LINES,
    0,
    r#"200
200 {"SequenceNumber":"1","ShardId":"shardId-000000000000"}
200 {"SequenceNumber":"2","ShardId":"shardId-000000000000"}
worker 1000
survey = ok 1 0
make 1/0 = ok
survey = ok 1 1
take 1/0 0 w1 = ok tenure 1 counter 1 start TRIM_HORIZON
open 1 = ok
survey = ok 1 1
read 1 0 1000 = ok reach 3 more 1 2
survey = ok 1 1
give 1 = ok delivered 3; mark 1 1 2 = ok counter 2; free 1 2 = ok counter 3; handed
"#,
    "",
);

/// The journal of `HANDED_LINES`. Its last three entries come from the hand-off's three turns. Its hash keys are the
/// MD5 hashes of the partition keys (RFC 1321).
const HANDED_JOURNAL: Row = (
    HANDED_LINES,
    0,
    "journal 2
3000 0 made 1 s 1
3000 0 put 1 0 1 16955237001963240173058271559858726497 2 1
3000 0 put 1 0 2 191415658344158766168031473277922803570 0 3
3000 1000 lease 1/0
3000 1000 taken 1/0 1 1 w1
3000 1000 opened 1
3000 1000 read 1 1000 more 1 2
3000 1000 given 1
3000 1000 marked 1 2 2
3000 1000 freed 1 3
end 3000
",
    "",
);

/// Another actor takes the lease before the hand-off. So the hand-off's `mark` is refused, and the hand-off doesn't
/// free the lease.
const TAKEN_AWAY: Row = (
    r#"3000 api CreateStream {"StreamName":"s","ShardCount":1}
3000 api PutRecord {"StreamName":"s","Data":"aGk=","PartitionKey":"a"}
3000 api PutRecord {"StreamName":"s","Data":"","PartitionKey":"abc"}
3000 worker w1 tally
3000 step 1000
3000 step 1000
3000 step 1000
3000 step 1000
3000 step 1000
3000 step 1000
3000 step 1000
3000 step 1000
3000 step 1000
3000 step 1000
3000 raw 9 take 1/0 1 w9
3000 hand 1000 1/0
3000 raw 9 rows
"#,
    0,
    r#"200
200 {"SequenceNumber":"1","ShardId":"shardId-000000000000"}
200 {"SequenceNumber":"2","ShardId":"shardId-000000000000"}
worker 1000
survey = ok 1 0
make 1/0 = ok
survey = ok 1 1
take 1/0 0 w1 = ok tenure 1 counter 1 start TRIM_HORIZON
open 1 = ok
survey = ok 1 1
read 1 0 1000 = ok reach 3 more 1 2
survey = ok 1 1
give 1 = ok delivered 3
survey = ok 1 1
ok tenure 2 counter 2 start TRIM_HORIZON
mark 1 1 2 = refused Lost 2; refused
ok 1 1/0 w9 2 TRIM_HORIZON 1
"#,
    "",
);

#[test]
fn one_line_hands_a_lease_off(rt: HostRuntime) -> Result<(), Fail> {
    let rows = [
        ("given", GIVEN),
        ("read", READ),
        ("handed", HANDED),
        ("taken away", TAKEN_AWAY),
    ];
    let other = first_other(rt.alloc(), Run::Replay, &rows, &[4096])?;
    assert!(rt; other.is_empty(), "{other}");
    let journals = [("handed journal", HANDED_JOURNAL)];
    let other = first_other(rt.alloc(), Run::Journal, &journals, &[4096])?;
    assert!(rt; other.is_empty(), "{other}");
    Ok(())
}
