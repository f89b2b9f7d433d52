//! The names and values of the headers of a request. The head is the part of a request before its body. The parser
//! returns each name and each value as a span, which is a range of the head's bytes.
ghost use Rattle.std.specs.Prelude.{◌≡◌, slice_range};
ghost use Rattle.kds_head.specs.Headers as spec;

use httparse::spans::Span;

/// Returns the bytes that `span` covers in `front`, the first bytes of a connection.
pub fn covered(front: &[u8], span: Span) -> &[u8]
    ensures { result.now ≡ slice_range front.now span.start span.end }
{
    let end = span.end.min(front.len());
    let start = span.start.min(end);
    &front[start..end]
}

/// Whether two words are equal if ASCII case is ignored. Header names are compared in this way (RFC 9110, section 5.1).
pub fn same_word(word: &[u8], other: &[u8]) -> bool
    ensures { result ≡ spec.same_word word.now other.now }
{
    word.eq_ignore_ascii_case(other)
}
