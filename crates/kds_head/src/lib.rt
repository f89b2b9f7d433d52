//! Finds the heads of HTTP/1.x requests at the beginning of a connection's bytes, decides which heads the service
//! refuses, and writes the text of responses (RFC 9110, RFC 9112). The head is the part of a request before its body.
#![tactic(auto)]

mod fields;
mod find;
mod findings;
mod found;
mod judge;
mod laws;
mod numbers;
mod target;
mod values;
mod write;

pub use find::head;
pub use found::{Found, Head};
pub use laws::{decided_stays, found_within_limits, no_bytes_need_more, one_finding};
pub use numbers::{BODY_BYTES, HEAD_BYTES, HEADERS, LENGTH_DIGITS, limits};
pub use write::{RESPONSE_HEAD_BYTES, put_response_head, response};
