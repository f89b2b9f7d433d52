//! What is found at the beginning of a connection's bytes.

use kds_base::Octets;

/// The whole head of a request that the service accepts (RFC 9112, section 2.1).
#[derive(Drop)]
pub struct Head {
    /// The number of bytes of the head, from the first unread byte of the connection to the end of the empty line that
    /// closes the head.
    pub length: usize,
    /// The number of bytes of the body, given by Content-Length (RFC 9110, section 8.6).
    pub body: u64,
    /// The text after `Kinesis_20131202.` in the X-Amz-Target header. It is empty if there isn't exactly one such
    /// header, or if the value of this header doesn't begin with `Kinesis_20131202.`.
    pub operation: Octets,
    /// Whether there is exactly one Content-Type header, and its value is `application/x-amz-json-1.1`, alone or
    /// followed by `;` and parameters (RFC 9110, section 8.3).
    pub json: bool,
    /// Whether the head asks to close the connection after the response: the request is HTTP/1.0, or a Connection
    /// header has the value `close` (RFC 9112, section 9.3).
    pub close: bool,
}

/// What the bytes of a connection begin with.
#[derive(Drop)]
pub enum Found {
    /// Nothing can be decided yet: more bytes are needed.
    Need,
    /// The connection is refused with this status (RFC 9110, section 15):
    ///
    /// - 400: the bytes can't become a request's head, the head has more than `HEADERS` headers, there is more than one
    ///   Content-Length, or the Content-Length isn't a number of 1 to `LENGTH_DIGITS` digits.
    /// - 404: the target isn't `/`.
    /// - 405: the method isn't POST.
    /// - 411: there is no Content-Length.
    /// - 413: the Content-Length is above `BODY_BYTES`.
    /// - 431: the first `HEAD_BYTES` bytes contain no whole head (RFC 6585, section 5).
    /// - 501: there is a Transfer-Encoding.
    Refused(u16),
    /// A whole head. Its body may still be incomplete.
    Whole(Head),
}
