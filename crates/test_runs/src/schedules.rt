//! Tests that check which texts are valid schedules (recorded workloads), and tests with long inputs and with inputs
//! that are read in pieces of several sizes. Each line of a schedule is one request, one lease command, or one
//! instruction to a worker.
use crate::harness::{Row, Run, first_other, run_on};
use std::test::Fail;

/// A schedule that creates a stream and puts a record.
pub const FIRST: Row = (
    r#"1000 api CreateStream {"StreamName":"s","ShardCount":1}
1000 api PutRecord {"StreamName":"s","Data":"aGk=","PartitionKey":"a"}
"#,
    0,
    r#"200
200 {"SequenceNumber":"1","ShardId":"shardId-000000000000"}
"#,
    "",
);

/// A schedule without lines.
const NOTHING: Row = ("", 0, "", "");

/// A line with too few fields, so it isn't a schedule line.
const NO_BODY: Row = (
    "1000 api CreateStream\n",
    3,
    "",
    "line 1: not a schedule line\n",
);

/// A request for an operation that doesn't exist. This is a schedule line, and gets an error response.
const NO_OPERATION: Row = (
    "1000 api Nothing \n",
    0,
    "400 {\"__type\":\"UnknownOperationException\",\"message\":\"unknown operation\"}\n",
    "",
);

/// The third line isn't a schedule line. The run ends at this line.
const BAD_LINE: Row = (
    r#"1000 api CreateStream {"StreamName":"s","ShardCount":1}
1000 api PutRecord {"StreamName":"s","Data":"aGk=","PartitionKey":"a"}
x
1000 api ListStreams {}
"#,
    3,
    r#"200
200 {"SequenceNumber":"1","ShardId":"shardId-000000000000"}
"#,
    "line 3: not a schedule line\n",
);

/// The last line has no line feed, so it isn't a schedule line.
const NO_FEED: Row = (
    r#"1000 api CreateStream {"StreamName":"s","ShardCount":1}
1000 api PutRecord {"StreamName":"s","Data":"aGk=","PartitionKey":"a"}"#,
    3,
    "200\n",
    "line 2: not a schedule line\n",
);

/// The partition keys are from the test suite of RFC 1321. All records go to the only shard, and get consecutive
/// sequence numbers.
const ONE_SHARD: Row = (
    r#"1000 api CreateStream {"StreamName":"s","ShardCount":1}
1000 api PutRecord {"StreamName":"s","Data":"","PartitionKey":"a"}
1000 api PutRecord {"StreamName":"s","Data":"","PartitionKey":"abc"}
1000 api PutRecord {"StreamName":"s","Data":"","PartitionKey":"message digest"}
"#,
    0,
    r#"200
200 {"SequenceNumber":"1","ShardId":"shardId-000000000000"}
200 {"SequenceNumber":"2","ShardId":"shardId-000000000000"}
200 {"SequenceNumber":"3","ShardId":"shardId-000000000000"}
"#,
    "",
);

#[test]
fn a_run_ends_at_the_first_bad_line(rt: HostRuntime) -> Result<(), Fail> {
    let rows = [
        ("first", FIRST),
        ("nothing", NOTHING),
        ("no body", NO_BODY),
        ("no operation", NO_OPERATION),
        ("bad line", BAD_LINE),
        ("no feed", NO_FEED),
        ("one shard", ONE_SHARD),
    ];
    let other = first_other(rt.alloc(), Run::Replay, &rows, &[1, 2, 7, 4096])?;
    assert!(rt; other.is_empty(), "{other}");
    Ok(())
}

/// The input is one line that is one byte longer than the limit of 16,777,216 bytes.
#[test]
fn a_line_beyond_the_limit_ends_the_run(rt: HostRuntime) -> Result<(), Fail> {
    let alloc = rt.alloc();
    let bytes = vec![in alloc; b'1'; 16777217]?;
    let left = run_on(alloc, Run::Replay, bytes.as_slice(), 65536, &[], &[])?;
    let other = left.other(alloc, 9, b"", "input too long\n")?;
    assert!(rt; other.is_empty(), "{other}");
    Ok(())
}

/// The input is read in pieces that end in the middle of a line. The output is longer than the 65,536 bytes of output
/// that are collected before a write.
#[test]
fn lines_cross_the_pieces_that_are_read(rt: HostRuntime) -> Result<(), Fail> {
    let line = "1000 api Nothing \n";
    let answer =
        "400 {\"__type\":\"UnknownOperationException\",\"message\":\"unknown operation\"}\n";
    let alloc = rt.alloc();
    let mut text = String::new(alloc);
    let mut out = String::new(alloc);
    for _ in 0..4000u32 {
        text.push_str(line)?;
        out.push_str(answer)?;
    }
    for step in [1000usize, 65536, 1048576] {
        let left = run_on(alloc, Run::Replay, text.as_bytes(), step, &[], &[])?;
        let other = left.other(alloc, 0, out.as_bytes(), "")?;
        assert!(rt; other.is_empty(), "by {step}: {other}");
    }
    Ok(())
}

/// Partition keys of 0, 256 and 257 characters are tried, each character with three bytes. Only the key of 256
/// characters is accepted.
#[test]
fn a_partition_key_has_1_to_256_characters(rt: HostRuntime) -> Result<(), Fail> {
    let alloc = rt.alloc();
    let not_valid =
        "200\n400 {\"__type\":\"ValidationException\",\"message\":\"PartitionKey is not valid\"}\n";
    let (_, _, put, _) = FIRST;
    for (count, answer) in [(0u32, not_valid), (256, put), (257, not_valid)] {
        let mut text = String::from_str(
            alloc,
            "1000 api CreateStream {\"StreamName\":\"s\",\"ShardCount\":1}\n1000 api PutRecord {\"StreamName\":\"s\",\"Data\":\"\",\"PartitionKey\":\"",
        )?;
        for _ in 0..count {
            text.push_str("€")?;
        }
        text.push_str("\"}\n")?;
        let left = run_on(alloc, Run::Replay, text.as_bytes(), 4096, &[], &[])?;
        let other = left.other(alloc, 0, answer.as_bytes(), "")?;
        assert!(rt; other.is_empty(), "at {count}: {other}");
    }
    Ok(())
}
