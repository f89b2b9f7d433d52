//! Finds the headers that the service reads, in one pass over all headers of a head. The head is the part of a request
//! before its body.
ghost use Rattle.std.specs.Prelude.{◌≡◌, map, fold};
ghost use Rattle.std.specs.Option.{option_map};
ghost use Rattle.httparse.specs.Spans.{header_bytes};
ghost use Rattle.kds_head.specs.Headers.{same_word};
ghost use Rattle.kds_head.specs.Findings.{seen_after, findings_after, no_findings, is_somewhere, value_in, AreFindings};

use crate::fields::{covered, same_word};
use httparse::spans::{HeaderSpan, Span};

/// How many headers with a certain name were seen: none, exactly one (with its value), or several.
#[derive(Clone, Copy)]
pub enum Seen {
    /// No header has the name.
    Nowhere,
    /// Exactly one header has the name, with this value.
    Once(Span),
    /// More than one header has the name.
    Often,
}

impl Seen {
    /// Counts one more header, and returns the new value. `named` is true if this header has the name, and `value` is
    /// its value.
    fn seen_after(self, named: bool, value: Span) -> Seen
        ensures { result ≡ seen_after self named value }
    {
        if !named {
            return self;
        }
        match self {
            Seen::Nowhere => Seen::Once(value),
            _ => Seen::Often,
        }
    }

    /// Whether at least one header has the name.
    pub fn is_somewhere(self) -> bool
        ensures { result ≡ is_somewhere self }
    {
        match self {
            Seen::Nowhere => false,
            _ => true,
        }
    }
}

/// What was seen so far of the headers that the service reads.
#[derive(Clone, Copy)]
pub struct Findings {
    /// What was seen of Transfer-Encoding headers.
    pub encoding: Seen,
    /// What was seen of Content-Length headers.
    pub content_length: Seen,
    /// What was seen of X-Amz-Target headers.
    pub target: Seen,
    /// What was seen of Content-Type headers.
    pub media_type: Seen,
    /// Whether a Connection header with the value `close` was seen.
    pub close: bool,
}

/// The findings before the first header.
const NO_FINDINGS: Findings = Findings {
    encoding: Seen::Nowhere,
    content_length: Seen::Nowhere,
    target: Seen::Nowhere,
    media_type: Seen::Nowhere,
    close: false,
};

/// Whether `word` is the header name `name`, ignoring ASCII case. Most names differ in length, so the lengths are
/// compared first.
fn is_name(word: &[u8], name: &[u8]) -> bool
    ensures { result ≡ same_word word.now name.now }
{
    word.len() == name.len() && same_word(word, name)
}

/// Returns the findings `found`, updated with the header `header`.
fn findings_after(front: &[u8], found: Findings, header: &HeaderSpan) -> Findings
    ensures { result ≡ findings_after front.now found header.now }
{
    let name = covered(front, header.name);
    let value = header.value;
    Findings {
        encoding: found
            .encoding
            .seen_after(is_name(name, b"Transfer-Encoding".as_slice()), value),
        content_length: found
            .content_length
            .seen_after(is_name(name, b"Content-Length".as_slice()), value),
        target: found
            .target
            .seen_after(is_name(name, b"X-Amz-Target".as_slice()), value),
        media_type: found
            .media_type
            .seen_after(is_name(name, b"Content-Type".as_slice()), value),
        close: found.close
            || (is_name(name, b"Connection".as_slice())
                && same_word(covered(front, value), b"close".as_slice())),
    }
}

fn all_read(front: &[u8], headers: &[HeaderSpan]) -> Findings
    ensures { result ≡ fold (findings_after front.now) no_findings headers.now }
{
    headers.iter().fold(
        NO_FINDINGS,
        |found, header| findings_after(front, found, header),
    )
}

/// Returns the findings after all of `headers`. Each header is read once.
pub fn read_headers(front: &[u8], headers: &[HeaderSpan]) -> Findings
    ensures { AreFindings front.now (map (header_bytes front.now) headers.now) result }
{
    all_read(front, headers)
}

/// Returns the value of the only header with a certain name. `seen` says how many such headers there are. If there
/// isn't exactly one, the result is `None`.
pub fn only_value(front: &[u8], seen: Seen) -> Option<&[u8]>
    ensures { option_map (λ v. v.now) result ≡ value_in front.now seen }
{
    match seen {
        Seen::Once(value) => Some(covered(front, value)),
        _ => None,
    }
}
