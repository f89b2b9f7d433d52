//! Tests of HTTP connections, and of the responses that are written to them. All times are in milliseconds.
use crate::harness::{Left, RowDoor, Run, run_on};
use kds_base::{Items, Moment, Octets};
use kds_cli_runs::run_serve;
use kds_ends::{Clock, MemClock, MemDoor, MemSink, SystemClock};
use std::alloc::Global;
use std::test::Fail;

/// A request that lists the streams.
pub const LIST: &str =
    "POST / HTTP/1.1\r\nHost: 127.0.0.1:4567\r\nX-Amz-Target: Kinesis_20131202.ListStreams\r\nContent-Type: application/x-amz-json-1.1\r\nAuthorization: AWS4-HMAC-SHA256 x\r\nContent-Length: 2\r\n\r\n{}";

/// A request that creates a stream with one shard.
const CREATE: &str =
    "POST / HTTP/1.1\r\nHost: 127.0.0.1:4567\r\nX-Amz-Target: Kinesis_20131202.CreateStream\r\nContent-Type: application/x-amz-json-1.1\r\nAuthorization: AWS4-HMAC-SHA256 x\r\nContent-Length: 33\r\n\r\n{\"StreamName\":\"s\",\"ShardCount\":1}";

/// A request that puts a record.
const PUT: &str =
    "POST / HTTP/1.1\r\nHost: 127.0.0.1:4567\r\nX-Amz-Target: Kinesis_20131202.PutRecord\r\nContent-Type: application/x-amz-json-1.1\r\nAuthorization: AWS4-HMAC-SHA256 x\r\nContent-Length: 51\r\n\r\n{\"StreamName\":\"s\",\"Data\":\"aGk=\",\"PartitionKey\":\"a\"}";

/// A request that puts a record. It is an HTTP/1.0 request, so the connection closes after the response.
const LAST_PUT: &str =
    "POST / HTTP/1.0\r\nHost: 127.0.0.1:4567\r\nX-Amz-Target: Kinesis_20131202.PutRecord\r\nContent-Type: application/x-amz-json-1.1\r\nAuthorization: AWS4-HMAC-SHA256 x\r\nContent-Length: 51\r\n\r\n{\"StreamName\":\"s\",\"Data\":\"aGk=\",\"PartitionKey\":\"a\"}";

/// A request for an operation that doesn't exist.
const OTHER_OPERATION: &str =
    "POST / HTTP/1.1\r\nHost: 127.0.0.1:4567\r\nX-Amz-Target: Kinesis_20131202.Foo\r\nContent-Type: application/x-amz-json-1.1\r\nAuthorization: AWS4-HMAC-SHA256 x\r\nContent-Length: 2\r\n\r\n{}";

/// A request whose content type is CBOR, not JSON.
const OTHER_TYPE: &str =
    "POST / HTTP/1.1\r\nHost: 127.0.0.1:4567\r\nX-Amz-Target: Kinesis_20131202.PutRecord\r\nContent-Type: application/x-amz-cbor-1.1\r\nAuthorization: AWS4-HMAC-SHA256 x\r\nContent-Length: 2\r\n\r\n{}";

/// A request that reads the first record, with a shard iterator that was issued at the time 3000 ms.
const READ: &str =
    "POST / HTTP/1.1\r\nHost: 127.0.0.1:4567\r\nX-Amz-Target: Kinesis_20131202.GetRecords\r\nContent-Type: application/x-amz-json-1.1\r\nAuthorization: AWS4-HMAC-SHA256 x\r\nContent-Length: 40\r\n\r\n{\"ShardIterator\":\"S0kxOjE6MDoxOjMwMDA=\"}";

/// The response to `LIST` if there are no streams.
pub const LISTED: &str =
    "HTTP/1.1 200 OK\r\nContent-Type: application/x-amz-json-1.1\r\nContent-Length: 41\r\n\r\n{\"HasMoreStreams\":false,\"StreamNames\":[]}";

/// The response to `CREATE` if the stream is created.
const CREATED: &str =
    "HTTP/1.1 200 OK\r\nContent-Type: application/x-amz-json-1.1\r\nContent-Length: 0\r\n\r\n";

/// The response to `PUT` if it puts the first record of the stream.
const FIRST: &str =
    "HTTP/1.1 200 OK\r\nContent-Type: application/x-amz-json-1.1\r\nContent-Length: 55\r\n\r\n{\"SequenceNumber\":\"1\",\"ShardId\":\"shardId-000000000000\"}";

/// The response to `PUT` if it puts the second record of the stream.
const SECOND: &str =
    "HTTP/1.1 200 OK\r\nContent-Type: application/x-amz-json-1.1\r\nContent-Length: 55\r\n\r\n{\"SequenceNumber\":\"2\",\"ShardId\":\"shardId-000000000000\"}";

/// The response to `READ` at the time 4000 ms, if the record was put at the time 3000 ms.
const FIRST_READ: &str =
    "HTTP/1.1 200 OK\r\nContent-Type: application/x-amz-json-1.1\r\nContent-Length: 167\r\n\r\n{\"MillisBehindLatest\":0,\"NextShardIterator\":\"S0kxOjE6MDoyOjQwMDA=\",\"Records\":[{\"ApproximateArrivalTimestamp\":3,\"Data\":\"aGk=\",\"PartitionKey\":\"a\",\"SequenceNumber\":\"1\"}]}";

/// The response to `LAST_PUT` if it puts the first record of the stream. The connection closes after this response.
const LAST: &str =
    "HTTP/1.1 200 OK\r\nContent-Type: application/x-amz-json-1.1\r\nContent-Length: 55\r\nConnection: close\r\n\r\n{\"SequenceNumber\":\"1\",\"ShardId\":\"shardId-000000000000\"}";

/// The response to a request for an operation that doesn't exist.
const UNKNOWN: &str =
    "HTTP/1.1 400 Bad Request\r\nContent-Type: application/x-amz-json-1.1\r\nContent-Length: 68\r\n\r\n{\"__type\":\"UnknownOperationException\",\"message\":\"unknown operation\"}";

/// The response to a request whose body isn't a JSON object, or whose content type isn't JSON.
const NO_OBJECT: &str =
    "HTTP/1.1 400 Bad Request\r\nContent-Type: application/x-amz-json-1.1\r\nContent-Length: 73\r\n\r\n{\"__type\":\"SerializationException\",\"message\":\"body is not a JSON object\"}";

/// The response to a request that names a stream that doesn't exist.
const NO_STREAM: &str =
    "HTTP/1.1 400 Bad Request\r\nContent-Type: application/x-amz-json-1.1\r\nContent-Length: 67\r\n\r\n{\"__type\":\"ResourceNotFoundException\",\"message\":\"stream not found\"}";

const CUT: &str = "input ended inside a message\n";

const REFUSED: &str = "message refused\n";

/// Returns the three parts as one text, one part after another.
fn joined(alloc: Global, parts: [&str; 3]) -> Result<Octets, Fail> {
    let mut all = Octets::new(alloc);
    for part in parts {
        all.extend(part.as_bytes())?;
    }
    Ok(all)
}

/// Each case sends up to three requests on one connection. Some requests are faulty, and some close the connection. The
/// input is read in pieces of at most 1, 7 or 4096 bytes. If the input ends inside a request, the run ends with the
/// exit status 7 and a message.
#[test]
fn requests_are_answered_one_after_another(rt: HostRuntime) -> Result<(), Fail> {
    let alloc = rt.alloc();
    let (cut, _) = PUT.split_at_checked(PUT.len() - 1).ok_or("cut")?;
    let (short, _) = LIST.split_at_checked(LIST.len() - 1).ok_or("cut")?;
    let cases = [
        ("one request", [LIST, "", ""], 0u8, [LISTED, "", ""], ""),
        ("two at once", [LIST, LIST, ""], 0, [LISTED, LISTED, ""], ""),
        ("a short one", [short, "", ""], 7, ["", "", ""], CUT),
        (
            "a stream and its puts",
            [CREATE, PUT, PUT],
            0,
            [CREATED, FIRST, SECOND],
            "",
        ),
        (
            "a short last one",
            [CREATE, PUT, cut],
            7,
            [CREATED, FIRST, ""],
            CUT,
        ),
        (
            "a put before its stream",
            [PUT, CREATE, PUT],
            0,
            [NO_STREAM, CREATED, FIRST],
            "",
        ),
        (
            "faults",
            [OTHER_OPERATION, OTHER_TYPE, ""],
            0,
            [UNKNOWN, NO_OBJECT, ""],
            "",
        ),
        (
            "one that closes",
            [CREATE, LAST_PUT, PUT],
            0,
            [CREATED, LAST, ""],
            "",
        ),
        (
            "an empty line",
            [CREATE, "\r\n", ""],
            7,
            [CREATED, "", ""],
            CUT,
        ),
        ("nothing", ["", "", ""], 0, ["", "", ""], ""),
    ];
    for (name, bytes, code, out, err) in cases {
        let bytes = joined(alloc, bytes)?;
        let out = joined(alloc, out)?;
        for step in [1usize, 7, 4096] {
            let left = run_on(alloc, Run::Answer, bytes.as_slice(), step, &[], &[])?;
            let other = left.other(alloc, code, out.as_slice(), err)?;
            assert!(rt; other.is_empty(), "{name}, by pieces of {step}: {other}");
        }
    }
    Ok(())
}

/// Returns the head of a request, followed by `end`. The head has the header Content-Length, and then `headers` more
/// headers. The value of the last header has `bytes` bytes, and the values of the headers in between are empty.
fn long_head(alloc: Global, headers: u64, bytes: u64, end: &str) -> Result<Octets, Fail> {
    let mut head = Octets::of(alloc, b"POST / HTTP/1.1\r\nContent-Length: 0".as_slice())?;
    for _ in 0..headers {
        head.extend(b"\r\nA: ".as_slice())?;
    }
    for _ in 0..bytes {
        head.extend(b"x".as_slice())?;
    }
    head.extend(end.as_bytes())?;
    Ok(head)
}

/// Each connection but the last begins with a head that is refused. The last connection ends inside its head, after
/// 16,383 bytes. This is one byte below the limit, so the head isn't refused.
#[test]
fn a_head_is_refused_by_its_first_fault(rt: HostRuntime) -> Result<(), Fail> {
    let alloc = rt.alloc();
    let cases = [
        ("GET / HTTP/1.1", "411 Length Required"),
        (
            "POST / HTTP/1.1\r\nX-Amz-Target: Kinesis_20131202.PutRecord",
            "411 Length Required",
        ),
        (
            "GET / HTTP/1.1\r\nContent-Length: 0",
            "405 Method Not Allowed",
        ),
        ("POST /x HTTP/1.1\r\nContent-Length: 0", "404 Not Found"),
        (
            "POST / HTTP/1.1\r\nContent-Length: 16777217",
            "413 Content Too Large",
        ),
        (
            "POST / HTTP/1.1\r\nTransfer-Encoding: chunked\r\nContent-Length: 2",
            "501 Not Implemented",
        ),
        (
            "POST / HTTP/1.1\r\nContent-Length: 2\r\nContent-Length: 2",
            "400 Bad Request",
        ),
    ];
    for (head, status) in cases {
        let bytes = joined(alloc, [head, "\r\n\r\n", PUT])?;
        let other = other_refusal(alloc, bytes.as_slice(), status)?;
        assert!(rt; other.is_empty(), "{head}: {other}");
    }
    let many = long_head(alloc, 64, 0, "\r\n\r\n")?;
    let other = other_refusal(alloc, many.as_slice(), "400 Bad Request")?;
    assert!(rt; other.is_empty(), "of 65 headers: {other}");
    let long = long_head(alloc, 1, 16345, "")?;
    assert_eq!(rt; long.as_slice().len(), 16384);
    let other = other_refusal(
        alloc,
        long.as_slice(),
        "431 Request Header Fields Too Large",
    )?;
    assert!(rt; other.is_empty(), "of 16,384 bytes: {other}");
    let cut = long_head(alloc, 1, 16344, "")?;
    let left = run_on(alloc, Run::Answer, cut.as_slice(), 4096, &[], &[])?;
    let other = left.other(alloc, 7, b"", CUT)?;
    assert!(rt; other.is_empty(), "of 16,383 bytes: {other}");
    Ok(())
}

/// Runs a connection with the input `bytes`. The expected result is that the request is refused with the HTTP status
/// `status`. The returned text describes how the result differs from the expected one. The text is empty if there is no
/// difference.
fn other_refusal(alloc: Global, bytes: &[u8], status: &str) -> Result<String, Fail> {
    let out = joined(
        alloc,
        [
            "HTTP/1.1 ",
            status,
            "\r\nContent-Length: 0\r\nConnection: close\r\n\r\n",
        ],
    )?;
    let left = run_on(alloc, Run::Answer, bytes, 4096, &[], &[])?;
    Ok(left.other(alloc, 10, out.as_slice(), REFUSED)?)
}

/// In the first run, the read after the first request fails. In the second run, the first write fails.
#[test]
fn what_came_before_a_failing_end_is_answered(rt: HostRuntime) -> Result<(), Fail> {
    let alloc = rt.alloc();
    let bytes = joined(alloc, [CREATE, PUT, ""])?;
    let step = CREATE.len().max(1);
    let left = run_on(alloc, Run::Answer, bytes.as_slice(), step, &[2], &[])?;
    let other = left.other(alloc, 4, CREATED.as_bytes(), "read fault\n")?;
    assert!(rt; other.is_empty(), "the second read: {other}");
    let left = run_on(alloc, Run::Answer, bytes.as_slice(), 4096, &[], &[1])?;
    let other = left.other(alloc, 5, b"", "write fault\n")?;
    assert!(rt; other.is_empty(), "the first write: {other}");
    Ok(())
}

/// The system's clock gives milliseconds since 1970. Its time lies between the beginning of the year 2020 and the
/// beginning of the year 3000.
#[test]
fn the_clock_tells_milliseconds_since_1970(rt: HostRuntime) {
    let mut clock = SystemClock::new(rt);
    let now = clock.now().ms();
    assert!(rt; now > 1_577_836_800_000, "{now}");
    assert!(rt; now < 32_503_680_000_000, "{now}");
}

/// The door, a listening socket in memory, holds back the input of the first connection until a response has been
/// written to the second connection. So the test passes only if both connections are served at the same time.
#[test]
fn two_connections_are_served_at_once(rt: HostRuntime) -> Result<(), Fail> {
    let alloc = rt.alloc();
    let mut calls = Items::new(alloc);
    calls.push(Octets::of(alloc, LIST.as_bytes())?)?;
    calls.push(Octets::of(alloc, LIST.as_bytes())?)?;
    let mut out = MemSink::new(alloc, 64, 64, Items::new(alloc))?;
    let clock = SystemClock::new(rt);
    let mut door = MemDoor::new(alloc, rt, calls, 1024, true)?;
    let status = run_serve(&rt, alloc, 4567, 3, &mut out, clock, &mut door);
    let left = Left::new(alloc, status, out)?;
    let other = left.other(alloc, 8, b"listening\n", "door fault\n")?;
    assert!(rt; other.is_empty(), "{other}");
    for place in [0usize, 1] {
        let written = door.written(alloc, place)?;
        assert_eq!(rt; written.as_slice(), LISTED.as_bytes(), "of {place}");
    }
    Ok(())
}

/// Returns a clock that gives the times 1000, 2000, 3000 and 4000, in milliseconds, one after another.
fn four_moments(alloc: Global) -> Result<MemClock, Fail> {
    let mut moments = Items::new(alloc);
    moments.push(Moment::new(1000).ok_or("moment")?)?;
    moments.push(Moment::new(2000).ok_or("moment")?)?;
    moments.push(Moment::new(3000).ok_or("moment")?)?;
    moments.push(Moment::new(4000).ok_or("moment")?)?;
    Ok(MemClock::new(moments))
}

/// Four connections are served one after the other, by a server that serves at most two at a time. The input of the
/// first connection ends inside a request, and a read on the second one fails. The third connection puts a record. The
/// fourth connection reads this record and its arrival time. The end of one connection has no effect on the others. The
/// server ends when the door, its listening socket, fails.
#[test]
fn connections_end_each_alone(rt: HostRuntime) -> Result<(), Fail> {
    let alloc = rt.alloc();
    let (cut, _) = PUT.split_at_checked(PUT.len() - 1).ok_or("cut")?;
    let mut second = Items::new(alloc);
    second.push(2)?;
    let mut door = RowDoor::new(alloc, rt);
    door.add(alloc, joined(alloc, [LIST, cut, ""])?, Items::new(alloc))?;
    door.add(alloc, joined(alloc, [CREATE, "", ""])?, second)?;
    door.add(alloc, joined(alloc, [PUT, "", ""])?, Items::new(alloc))?;
    door.add(alloc, joined(alloc, [READ, "", ""])?, Items::new(alloc))?;
    let mut out = MemSink::new(alloc, 64, 64, Items::new(alloc))?;
    let clock = four_moments(alloc)?;
    let status = run_serve(&rt, alloc, 4567, 2, &mut out, clock, &mut door);
    let left = Left::new(alloc, status, out)?;
    let other = left.other(alloc, 8, b"listening\n", "door fault\n")?;
    assert!(rt; other.is_empty(), "{other}");
    let wanted = [LISTED, CREATED, FIRST, FIRST_READ];
    for place in 0..wanted.len() {
        let written = door.written(alloc, place)?;
        assert_eq!(rt; written.as_slice(), wanted[place].as_bytes(), "of {place}");
    }
    Ok(())
}
