//! Encodes and decodes bytes in standard base64 with padding.
ghost use Rattle.std.specs.Prelude.{◌≡◌, option_map, IfOk};
ghost use Rattle.base64.specs.Engines.{standard};
ghost use Rattle.base64.specs.GeneralPurpose.{decoded_of, encode_of};

use base64::DecodeAllocError;
use base64::engine::general_purpose::STANDARD;
use kds_base::{Memory, Octets};
use std::alloc::Global;

/// Returns the base64 text of `bytes`, with padding (RFC 4648, section 4).
pub fn encoded(alloc: Global, bytes: &[u8]) -> Result<Octets, Memory>
    ensures { IfOk result (λ o. o ≡ encode_of standard bytes.now) }
{
    let text = STANDARD.encode(alloc, bytes)?;
    Ok(Octets::unshared(text.into_bytes()))
}

/// Decodes a base64 text, and returns its bytes as a vector (RFC 4648, section 4). Returns `None` if and only if the
/// text isn't valid base64.
pub fn bytes_of(alloc: Global, text: &[u8]) -> Result<Option<Vec<u8>>, Memory>
    ensures { IfOk result (λ o. option_map (λ v. v.items) o ≡ decoded_of standard text.now) }
{
    match STANDARD.decode(alloc, text) {
        Ok(bytes) => Ok(Some(bytes)),
        Err(DecodeAllocError::OutOfMemory) => Err(Memory),
        Err(DecodeAllocError::DecodeError(_)) => Ok(None),
    }
}

/// Decodes a base64 text, and returns its bytes (RFC 4648, section 4). Returns `None` if and only if the text isn't
/// valid base64.
pub fn decoded(alloc: Global, text: &[u8]) -> Result<Option<Octets>, Memory>
    ensures { IfOk result (λ o. o ≡ decoded_of standard text.now) }
{
    match bytes_of(alloc, text)? {
        Some(bytes) => Ok(Some(Octets::from_vec(bytes))),
        None => Ok(None),
    }
}
