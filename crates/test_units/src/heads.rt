//! Tests of the heads of HTTP requests, including heads at and beyond the limits of the service, and tests of the text
//! of responses.
use kds_base::Octets;
use kds_head::{Found, head, response};
use std::test::Fail;

/// Returns a status: the HTTP status of the refusal if the head is refused, 0 if the head needs more bytes, and 200 if
/// the head is complete and accepted.
fn status(found: &Found) -> u16 {
    match found {
        Found::Need => 0,
        Found::Refused(status) => *status,
        Found::Whole(_) => 200,
    }
}

#[test]
fn first_case_decides(rt: HostRuntime) -> Result<(), Fail> {
    let cases: [(&str, u16); 10] = [
        ("GET / HTTP/1.1\r\n\r\n", 411),
        ("GET / HTTP/1.1\r\nContent-Length: 0\r\n\r\n", 405),
        ("POST /x HTTP/1.1\r\nContent-Length: 0\r\n\r\n", 404),
        ("POST / HTTP/1.1\r\nContent-Length: 16777216\r\n\r\n", 200),
        ("POST / HTTP/1.1\r\nContent-Length: 16777217\r\n\r\n", 413),
        ("GET /x HTTP/1.1\r\ntransfer-encoding: gzip\r\n\r\n", 501),
        (
            "POST / HTTP/1.1\r\nContent-Length: 2\r\ncontent-length: 2\r\n\r\n",
            400,
        ),
        ("POST / HTTP/1.1\r\nContent-Length: +2\r\n\r\n", 400),
        ("POST / HTTP/2.0\r\n", 400),
        ("POST / HTTP/1.1\r\nContent-Length: 2\r\n", 0),
    ];
    for (text, want) in cases {
        let found = head(rt.alloc(), text.as_bytes())?;
        assert_eq!(rt; status(&found), want, "at {text}");
    }
    Ok(())
}

#[test]
fn headers_are_counted(rt: HostRuntime) -> Result<(), Fail> {
    let cases: [(usize, u16); 3] = [(64, 200), (65, 400), (100, 400)];
    for (headers, want) in cases {
        let mut text = Octets::of(
            rt.alloc(),
            b"POST / HTTP/1.1\r\nContent-Length: 2\r\n".as_slice(),
        )?;
        for _ in 1..headers {
            text.extend(b"A:\n".as_slice())?;
        }
        let open = head(rt.alloc(), text.as_slice())?;
        assert_eq!(rt; status(&open), 0, "of {headers}");
        text.extend(b"\r\n".as_slice())?;
        let found = head(rt.alloc(), text.as_slice())?;
        assert_eq!(rt; status(&found), want, "of {headers}");
    }
    Ok(())
}

#[test]
fn a_whole_head_gives_its_fields(rt: HostRuntime) -> Result<(), Fail> {
    let text =
        b"\r\nPOST / HTTP/1.1\r\nx-amz-target: Kinesis_20131202.ListStreams\r\nContent-Type: application/x-amz-json-1.1; charset=utf-8\r\nCONNECTION: Close\r\nContent-Length: 02\r\n\r\n{}".as_slice();
    match head(rt.alloc(), text)? {
        Found::Whole(found) => {
            assert_eq!(rt; found.length + 2, text.len());
            assert_eq!(rt; found.body, 2);
            assert_eq!(rt; found.operation.as_slice(), b"ListStreams".as_slice());
            assert_eq!(rt; (found.json, found.close), (true, true));
        }
        other => assert_eq!(rt; status(&other), 200),
    }
    Ok(())
}

#[test]
fn a_response_has_its_length(rt: HostRuntime) -> Result<(), Fail> {
    let mut text = Octets::new(rt.alloc());
    let names = b"{\"HasMoreStreams\":false,\"StreamNames\":[]}".as_slice();
    response(rt.alloc(), 200, names, true, false, &mut text)?;
    response(rt.alloc(), 400, b"{}".as_slice(), true, true, &mut text)?;
    response(rt.alloc(), 411, b"".as_slice(), false, true, &mut text)?;
    let want =
        b"HTTP/1.1 200 OK\r\nContent-Type: application/x-amz-json-1.1\r\nContent-Length: 41\r\n\r\n{\"HasMoreStreams\":false,\"StreamNames\":[]}HTTP/1.1 400 Bad Request\r\nContent-Type: application/x-amz-json-1.1\r\nContent-Length: 2\r\nConnection: close\r\n\r\n{}HTTP/1.1 411 Length Required\r\nContent-Length: 0\r\nConnection: close\r\n\r\n".as_slice();
    assert_eq!(rt; text.as_slice(), want);
    Ok(())
}
