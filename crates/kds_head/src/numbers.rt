//! The limits on the heads and bodies of requests.
ghost use Rattle.std.specs.Prelude.{◌≡◌};
ghost use Rattle.kds_head.specs.declared.numbers.TheConstants as number;

/// The most bytes that a request's head may have (RFC 9112, section 3). A longer head is refused with the status 431
/// (RFC 6585, section 5).
pub const HEAD_BYTES: usize = 16_384;

/// The most headers that a request's head may have (RFC 9110, section 5.4).
pub const HEADERS: usize = 64;

/// The most bytes that a request's body may have (RFC 9110, section 15.5.14).
pub const BODY_BYTES: u64 = 16_777_216;

/// The most digits that the value of Content-Length may have (RFC 9110, section 8.6). A number of 19 digits always fits
/// into 64 bits.
pub const LENGTH_DIGITS: usize = 19;

/// States the limits as plain numbers, because the definitions in contracts use only the names of these constants.
pub fn limits()
    ensures head { number.HEAD_BYTES ≡ 16384 }
    ensures headers { number.HEADERS ≡ 64 }
    ensures body { number.BODY_BYTES ≡ 16777216 }
    ensures digits { number.LENGTH_DIGITS ≡ 19 }
{}
