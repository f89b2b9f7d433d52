//! Decides whether a whole head of a request is accepted or refused. The head is the part of a request before its body.
ghost use Rattle.std.specs.Prelude.{◌≡◌, length, map, slice_range, IfOk, nat_lt, codes};
ghost use Rattle.std.specs.Str.{bytes_eq};
ghost use Rattle.httparse.specs.Spans.{header_bytes};
ghost use Rattle.kds_head.specs.Table.{judged_in};

use crate::fields::covered;
use crate::findings::read_headers;
use crate::found::{Found, Head};
use crate::numbers::{BODY_BYTES, HEADERS};
use crate::values::{body_length, closes, operation, says_json};
use httparse::spans::{HeaderSpan, RequestSpans, Span};
use kds_base::{Memory, Octets};
use std::alloc::Global;

fn too_many(front: &[u8], headers: &[HeaderSpan]) -> bool
    ensures { result ≡ nat_lt HEADERS (length (map (header_bytes front.now) headers.now)) }
{
    headers.len() > HEADERS
}

fn is_post(front: &[u8], method: Span) -> bool
    ensures { result ≡ bytes_eq (slice_range front.now method.start method.end) (codes "POST") }
{
    covered(front, method) == b"POST".as_slice()
}

fn is_root(front: &[u8], target: Span) -> bool
    ensures { result ≡ bytes_eq (slice_range front.now target.start target.end) (codes "/") }
{
    covered(front, target) == b"/".as_slice()
}

/// Decides whether a whole head is accepted. The checks are made in the order of the definition `judged_by`. The first
/// check that fails determines the status of the refusal.
pub fn judge(
    alloc: Global,
    front: &[u8],
    headers: &[HeaderSpan],
    spans: &RequestSpans,
) -> Result<Found, Memory>
    ensures { IfOk result (λ found. found ≡ judged_in front.now headers.now spans.now) }
{
    if too_many(front, headers) {
        return Ok(Found::Refused(400));
    }
    let found = read_headers(front, headers);
    if found.encoding.is_somewhere() {
        return Ok(Found::Refused(501));
    }
    if !found.content_length.is_somewhere() {
        return Ok(Found::Refused(411));
    }
    let body = match body_length(front, found.content_length) {
        Some(body) => body,
        None => return Ok(Found::Refused(400)),
    };
    if body > BODY_BYTES {
        return Ok(Found::Refused(413));
    }
    if !is_post(front, spans.method) {
        return Ok(Found::Refused(405));
    }
    if !is_root(front, spans.path) {
        return Ok(Found::Refused(404));
    }
    let operation = Octets::of(alloc, operation(front, found.target))?;
    Ok(Found::Whole(Head {
        length: spans.len,
        body,
        operation,
        json: says_json(front, found.media_type),
        close: closes(spans.version, found.close),
    }))
}
