//! The limits of a session.

/// The maximum number of requests on one connection. The connection closes after the response to the last of them (RFC
/// 9112, section 9.6).
pub const REQUESTS: u32 = 1_000_000;

/// The greatest number of bytes in a piece. A piece is the bytes that one read from the connection returns. If a
/// session is live and has no whole message among its unread bytes, it can be fed at least this many bytes.
pub const PIECE_BYTES: usize = 65_536;

/// The greatest capacity of a buffer for requests that is kept for the next request. A larger buffer is freed as soon
/// as no byte is unread. What the buffer was before it grew stays with the allocator, and is about as much again.
pub const KEPT_BUFFER_BYTES: usize = 655_360;

/// The greatest number of unread bytes of a session. It is the sum of the largest sizes of a head, of a body and of a
/// piece.
pub const UNREAD_BYTES: usize = 16_859_136;
