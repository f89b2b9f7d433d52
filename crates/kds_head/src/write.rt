//! Writes the text of responses (RFC 9112, section 4).
ghost use Rattle.std.specs.Prelude.{◌≡◌, ◌≤◌, ◌+◌, ◌++◌, codes, decimal, drop, length, OnOk, OnErr, true};
ghost use Rattle.std.specs.Vec.{vec_len, vec_capacity};
ghost use Rattle.kds_head.specs.Response.{line, reason_phrase, content_type, connection, is_status, IsResponse};
ghost use Rattle.kds_head.specs.Response.{response_text};

use itoa::Buffer;
use kds_base::{Memory, Octets};
use std::alloc::Global;

/// An upper bound for the number of bytes in a response before its body.
pub const RESPONSE_HEAD_BYTES: usize = 256;

/// Returns the status line of a response with the status `status`.
fn status_line(status: u16) -> &'static [u8]
    requires { is_status status ≡ true }
    ensures line { result.now ≡ line (codes "HTTP/1.1 " ++ decimal status ++ codes " " ++ reason_phrase status) }
    ensures short { length result.now ≤ 50 }
{
    match status {
        200 => b"HTTP/1.1 200 OK\r\n",
        400 => b"HTTP/1.1 400 Bad Request\r\n",
        404 => b"HTTP/1.1 404 Not Found\r\n",
        405 => b"HTTP/1.1 405 Method Not Allowed\r\n",
        411 => b"HTTP/1.1 411 Length Required\r\n",
        413 => b"HTTP/1.1 413 Content Too Large\r\n",
        431 => b"HTTP/1.1 431 Request Header Fields Too Large\r\n",
        _ => b"HTTP/1.1 501 Not Implemented\r\n",
    }
}

/// Returns the Content-Type line if `json` is true, and no bytes otherwise.
fn content_type_line(json: bool) -> &'static [u8]
    ensures line { result.now ≡ content_type json }
    ensures short { length result.now ≤ 50 }
{
    if json {
        b"Content-Type: application/x-amz-json-1.1\r\n"
    } else {
        b""
    }
}

/// Returns the line `Connection: close` if `close` is true, and no bytes otherwise.
fn connection_line(close: bool) -> &'static [u8]
    ensures line { result.now ≡ connection close }
    ensures short { length result.now ≤ 50 }
{
    if close { b"Connection: close\r\n" } else { b"" }
}

/// Appends `bytes` to `to`. Precondition: the capacity of `to` suffices.
fn add(to: &mut Vec<u8>, bytes: &[u8])
    requires { vec_len to.old + length bytes.now ≤ vec_capacity to.old }
    ensures items { to.new.items ≡ to.old.items ++ bytes.now }
    ensures len { vec_len to.new ≡ vec_len to.old + length bytes.now }
    ensures capacity { vec_capacity to.old ≤ vec_capacity to.new }
{
    match to.extend_from_slice(bytes) {
        Ok(()) => {}
        Err(_) => unreachable!(),
    }
}

/// Appends a response to `to`. If memory runs out, nothing is added.
#[tactic(auto, unfolding(crate::specs::Response::response_text))]
fn add_response(
    status: u16,
    body: &[u8],
    json: bool,
    close: bool,
    to: &mut Vec<u8>,
) -> Result<(), Memory>
    requires { IsResponse status body.now json close }
    ensures ok { OnOk result (to.new.items ≡ to.old.items ++ response_text status body.now json close) }
    ensures err { OnErr result (to.new.items ≡ to.old.items) }
{
    let mut digits = Buffer::new();
    to.reserve(RESPONSE_HEAD_BYTES + body.len())?;
    add(to, status_line(status));
    add(to, content_type_line(json));
    add(to, b"Content-Length: ".as_slice());
    add(to, digits.format(body.len()).as_bytes());
    add(to, b"\r\n".as_slice());
    add(to, connection_line(close));
    add(to, b"\r\n".as_slice());
    add(to, body);
    Ok(())
}

/// Appends a response. If `json` is true, the response is an answer of the service, with the status 200 or 400 and a
/// JSON body. If `json` is false, the response refuses the connection: it has no body, and the connection closes after
/// it (RFC 9112, section 9.6). The body is copied only once. If memory runs out, nothing is added.
pub fn response(
    _alloc: Global,
    status: u16,
    body: &[u8],
    json: bool,
    close: bool,
    to: &mut Octets,
) -> Result<(), Memory>
    requires { IsResponse status body.now json close }
    ensures ok { OnOk result (to.new ≡ to.old ++ response_text status body.now json close) }
    ensures err { OnErr result (to.new ≡ to.old) }
{
    let mut text = to.take_vec()?;
    let added = add_response(status, body, json, close, &mut text);
    *to = Octets::unshared(text);
    added
}

/// Writes the bytes `piece` into `text`, directly before the index `at`. Returns the index at which these bytes start.
fn write_before(text: &mut [u8], at: usize, piece: &[u8]) -> usize
    requires within { at ≤ length text.old }
    requires room { length piece.now ≤ at }
    ensures begins { result + length piece.now ≡ at }
    ensures text { drop result text.new ≡ piece.now ++ drop at text.old }
    ensures len { length text.new ≡ length text.old }
{
    let start = at - piece.len();
    text[start..at].copy_from_slice(piece);
    start
}

/// Writes the status line and the headers of a response into the bytes directly before its body, so that the body
/// needn't be copied. The body is in `text` from the index `body_at` to the end. Returns the index at which the
/// response begins. Preconditions: `status`, `json`, `close` and the body meet the precondition of `response`, and at
/// least `RESPONSE_HEAD_BYTES` bytes precede the body.
#[tactic(auto, unfolding(crate::specs::Response::response_text))]
pub fn put_response_head(
    status: u16,
    json: bool,
    close: bool,
    text: &mut [u8],
    body_at: usize,
) -> usize
    requires response { IsResponse status (drop body_at text.old) json close }
    requires room { 256 ≤ body_at }
    requires within { body_at ≤ length text.old }
    ensures begins { result ≤ length text.new }
    ensures text { drop result text.new ≡ response_text status (drop body_at text.old) json close }
{
    let mut digits = Buffer::new();
    let size = text.len() - body_at;
    let at = write_before(text, body_at, b"\r\n".as_slice());
    let at = write_before(text, at, connection_line(close));
    let at = write_before(text, at, b"\r\n".as_slice());
    let at = write_before(text, at, digits.format(size).as_bytes());
    let at = write_before(text, at, b"Content-Length: ".as_slice());
    let at = write_before(text, at, content_type_line(json));
    write_before(text, at, status_line(status))
}
