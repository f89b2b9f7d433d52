//! Decides whether the bytes that have arrived so far end inside a request's target (RFC 9112, section 3.2).
ghost use Rattle.std.specs.Prelude.{◌≡◌, ◌↔◌, IsTrue, fold};
ghost use Rattle.httparse.specs.Grammar.{EndsInTarget};
ghost use Rattle.kds_head.specs.Target.{after_byte};

use httparse::{is_header_name_token, is_uri_token};

/// The part of a request in which the bytes so far end.
#[derive(Clone, Copy)]
pub enum Reached {
    /// Among the empty lines before the request, or before the first byte.
    Blank,
    /// After the CR of an empty line, before its LF.
    CarriageReturn,
    /// Inside the method, after at least one of its bytes.
    Method,
    /// Inside the target, after zero or more of its bytes.
    Target,
    /// After the target, or in bytes that aren't a request.
    Other,
}

/// Returns the part of the request that is reached after the next byte `b`.
fn after_byte(reached: Reached, b: u8) -> Reached
    ensures { result ≡ after_byte reached b }
{
    match reached {
        Reached::Blank => {
            if b == b'\n' {
                Reached::Blank
            } else if b == b'\r' {
                Reached::CarriageReturn
            } else if is_header_name_token(b) {
                Reached::Method
            } else {
                Reached::Other
            }
        }
        Reached::CarriageReturn => {
            if b == b'\n' {
                Reached::Blank
            } else {
                Reached::Other
            }
        }
        Reached::Method => {
            if b == b' ' {
                Reached::Target
            } else if is_header_name_token(b) {
                Reached::Method
            } else {
                Reached::Other
            }
        }
        Reached::Target => {
            if is_uri_token(b) {
                Reached::Target
            } else {
                Reached::Other
            }
        }
        Reached::Other => Reached::Other,
    }
}

fn reached_by(bytes: &[u8]) -> Reached
    ensures { result ≡ fold after_byte Reached.Blank bytes.now }
{
    bytes
        .iter()
        .fold(Reached::Blank, |reached, b| after_byte(reached, *b))
}

/// Whether the bytes end inside the target of a request.
pub fn ends_in_target(bytes: &[u8]) -> bool
    ensures { IsTrue result ↔ EndsInTarget bytes.now }
{
    match reached_by(bytes) {
        Reached::Target => true,
        _ => false,
    }
}
