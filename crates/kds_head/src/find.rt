//! Finds the head of a request at the beginning of a connection's bytes. The head is the part of a request before its
//! body.
ghost use Rattle.std.specs.Prelude.{◌≡◌, length, take, None, IfOk, IfSome};
ghost use Rattle.httparse.specs.Spans.{RequestExceeds};
ghost use Rattle.kds_head.specs.Find.{IsFoundIn, IsFound, IsWithinLimits};
ghost use Rattle.kds_head.specs.Find as spec;

use crate::found::Found;
use crate::judge::judge;
use crate::numbers::{HEAD_BYTES, HEADERS};
use crate::target::ends_in_target;
use httparse::spans::{EMPTY_HEADER_SPAN, HeaderSpan, parse_request};
use httparse::{Error, Status};
use kds_base::Memory;
use std::alloc::Global;

/// The number of headers for which the first parse of a head has space. The number is small because initialising the
/// space takes time. Most heads have fewer headers. A head with more headers is parsed again with more space.
const FEW_HEADERS: usize = 16;

/// Returns the first `HEAD_BYTES` bytes, or all bytes if there are fewer. A whole head must lie within these bytes.
fn head_bytes(bytes: &[u8]) -> &[u8]
    ensures { result.now ≡ take HEAD_BYTES bytes.now }
{
    if bytes.len() > HEAD_BYTES {
        let (front, _) = bytes.split_at(HEAD_BYTES);
        front
    } else {
        bytes
    }
}

/// Returns what is found if the bytes aren't a whole head, but could become one with more bytes. The result is a
/// refusal with the status 431 if there are already `HEAD_BYTES` bytes. Otherwise it is `Need`.
fn undecided(front: &[u8]) -> Found
    ensures { result ≡ spec.undecided (length front.now) }
{
    if front.len() == HEAD_BYTES {
        Found::Refused(431)
    } else {
        Found::Need
    }
}

/// Returns what is found in `front`, the first bytes of a connection. `None` means that the head has more headers than
/// `spans` has elements.
fn find_in(alloc: Global, front: &[u8], spans: &mut [HeaderSpan]) -> Result<Option<Found>, Memory>
    ensures found { IfOk result (λ o. IfSome o (IsFoundIn front.now)) }
    ensures few_spans { IfOk result (λ o. o ≡ None → RequestExceeds (length spans.old) front.now) }
{
    match parse_request(front, spans) {
        Ok(Status::Complete(found)) => {
            let (headers, _) = spans.split_at(found.headers);
            Ok(Some(judge(alloc, front, headers, &found)?))
        }
        Ok(Status::Partial) => Ok(Some(undecided(front))),
        Err(Error::TooManyHeaders) => Ok(None),
        Err(_) => {
            // A request's target must be valid UTF-8. An incomplete target isn't refused for this reason, because its
            // last character may be cut off.
            if ends_in_target(front) {
                Ok(Some(undecided(front)))
            } else {
                Ok(Some(Found::Refused(400)))
            }
        }
    }
}

/// Returns what is found in `front`, for any number of headers. There is space for one header per three bytes. This
/// suffices, since each header has at least three bytes: a name, a colon and a line feed.
fn find_long(alloc: Global, front: &[u8]) -> Result<Found, Memory>
    ensures { IfOk result (IsFoundIn front.now) }
{
    let mut spans = vec![in alloc; EMPTY_HEADER_SPAN; front.len() / 3]?;
    match find_in(alloc, front, spans.as_mut_slice())? {
        Some(found) => Ok(found),
        None => unreachable!(),
    }
}

/// Returns what is found in `front`, for a head with more than `FEW_HEADERS` headers. The head is first parsed with
/// space for `HEADERS` + 1 headers. If it has even more headers, it is parsed again with more space.
fn find_many(alloc: Global, front: &[u8]) -> Result<Found, Memory>
    ensures { IfOk result (IsFoundIn front.now) }
{
    let mut spans = [EMPTY_HEADER_SPAN; HEADERS + 1];
    match find_in(alloc, front, spans.as_mut_slice())? {
        Some(found) => Ok(found),
        None => find_long(alloc, front),
    }
}

/// Returns what the bytes of a connection begin with: the head of a request that the service accepts (`Whole`), bytes
/// that the service refuses with a status (`Refused`), or too few bytes to decide (`Need`) (RFC 9112, sections 2 to 6).
///
/// The error means that memory ran out. Memory is allocated for the operation's name, and for the headers if there are
/// more than `HEADERS` + 1. The contract doesn't state that these are the only causes of the error.
pub fn head(alloc: Global, bytes: &[u8]) -> Result<Found, Memory>
    ensures found { IfOk result (IsFound bytes.now) }
    ensures limits { IfOk result (IsWithinLimits bytes.now) }
{
    let front = head_bytes(bytes);
    let mut spans = [EMPTY_HEADER_SPAN; FEW_HEADERS];
    match find_in(alloc, front, spans.as_mut_slice())? {
        Some(found) => Ok(found),
        None => find_many(alloc, front),
    }
}
