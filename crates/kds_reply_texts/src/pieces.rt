//! Appends pieces of JSON text to the body of a reply, which is a vector of bytes.
ghost use Rattle.std.specs.Prelude.{◌≡◌, ◌+◌, ◌++◌, ℕ, List, length, take, vec_len, decimal, IsUtf8, OnOk, IfOk};
ghost use Rattle.std.specs.Bool.{OnTrue};
ghost use Rattle.std.specs.Str.Lossy.{utf8_lossy};
ghost use Rattle.base64.specs.Engines.{standard};
ghost use Rattle.base64.specs.GeneralPurpose.{encode_of};
ghost use Rattle.json.specs.Print.{escape, quoted};
ghost use Rattle.serde_json.specs.Written.{comma_if};

use base64::encoded_len;
use base64::engine::general_purpose::STANDARD;
use itoa::Buffer;
use json::Writer;
use kds_base::{Memory, Seq};
use std::alloc::Global;

/// One block of zero bytes. `push_zeros` appends such blocks.
static ZEROS: [u8; 1024] = [0; 1024];

/// Reserves memory for `size` bytes beyond those that the vector has.
pub fn reserve(out: &mut Vec<u8>, size: usize) -> Result<(), Memory>
    ensures front { take (vec_len out.old) out.new.items ≡ out.old.items }
    ensures ok { OnOk result (out.new.items ≡ out.old.items) }
{
    out.reserve(size)?;
    Ok(())
}

/// Appends the bytes `piece`.
#[inline(always)]
pub fn push_piece(out: &mut Vec<u8>, piece: &[u8]) -> Result<(), Memory>
    ensures front { take (vec_len out.old) out.new.items ≡ out.old.items }
    ensures ok { OnOk result (out.new.items ≡ out.old.items ++ piece.now) }
{
    out.extend_from_slice(piece)?;
    Ok(())
}

/// Appends a comma if `later` is true.
#[inline(always)]
pub fn put_comma(out: &mut Vec<u8>, later: bool) -> Result<(), Memory>
    ensures front { take (vec_len out.old) out.new.items ≡ out.old.items }
    ensures ok { OnOk result (out.new.items ≡ out.old.items ++ comma_if later) }
{
    if later { push_piece(out, b",") } else { Ok(()) }
}

/// Appends the number `n` in decimal.
#[inline(always)]
pub fn put_decimal(out: &mut Vec<u8>, n: u64) -> Result<(), Memory>
    ensures front { take (vec_len out.old) out.new.items ≡ out.old.items }
    ensures ok { OnOk result (out.new.items ≡ out.old.items ++ decimal n) }
{
    let mut digits = Buffer::new();
    push_piece(out, digits.format(n).as_bytes())?;
    Ok(())
}

/// Appends the number `n` in decimal as a part of a JSON string, in which no digit needs escaping.
#[inline(always)]
fn put_digits(out: &mut Vec<u8>, n: u64) -> Result<(), Memory>
    ensures front { take (vec_len out.old) out.new.items ≡ out.old.items }
    ensures ok { OnOk result (out.new.items ≡ out.old.items ++ escape (decimal n)) }
{
    put_decimal(out, n)?;
    Ok(())
}

/// Appends a sequence number in decimal as a part of a JSON string.
#[inline(always)]
pub fn put_seq(out: &mut Vec<u8>, seq: Seq) -> Result<(), Memory>
    ensures front { take (vec_len out.old) out.new.items ≡ out.old.items }
    ensures ok { OnOk result (out.new.items ≡ out.old.items ++ escape (decimal seq)) }
{
    put_digits(out, seq.0)?;
    Ok(())
}

/// Appends `size` zero bytes, which the caller overwrites. Whole blocks are copied, because this is faster than
/// `resize`, which stores byte by byte.
pub fn push_zeros(out: &mut Vec<u8>, size: usize) -> Result<(), Memory>
    ensures front { take (vec_len out.old) out.new.items ≡ out.old.items }
    ensures len { OnOk result (vec_len out.new ≡ vec_len out.old + size) }
{
    let mut left = size;
    while left > 0 {
        let step = left.min(ZEROS.len());
        out.extend_from_slice(&ZEROS[..step])?;
        left -= step;
    }
    Ok(())
}

/// Appends `bytes` as base64 (RFC 4648, section 4), as a part of a JSON string, in which no character of base64 needs
/// escaping.
pub fn put_base64(out: &mut Vec<u8>, bytes: &[u8]) -> Result<(), Memory>
    ensures front { take (vec_len out.old) out.new.items ≡ out.old.items }
    ensures ok { OnOk result (out.new.items ≡ out.old.items ++ escape (encode_of standard bytes.now)) }
{
    let Some(size) = encoded_len(bytes.len(), true) else {
        return Err(Memory);
    };
    let at = out.len();
    push_zeros(out, size)?;
    match STANDARD.encode_slice(bytes, &mut out.as_mut_slice()[at..]) {
        Ok(_) => Ok(()),
        Err(_) => unreachable!(),
    }
}

/// Whether `bytes` are valid UTF-8. This function is called only if some byte isn't ASCII.
fn is_text(bytes: &[u8]) -> bool
    ensures { OnTrue result (IsUtf8 bytes.now) }
{
    match str::from_utf8(bytes) {
        Ok(_) => true,
        Err(_) => false,
    }
}

/// Whether `bytes` can be copied into a JSON string unchanged. This is so if no byte needs escaping (RFC 8259, section
/// 7), and the bytes are valid UTF-8, so that no character is replaced. One loop looks for bytes that need escaping and
/// for bytes that aren't ASCII. Most texts are ASCII. Only a text that isn't ASCII is then checked for valid UTF-8.
pub fn stands_as_it_is(bytes: &[u8]) -> bool
    ensures { OnTrue result (escape (utf8_lossy bytes.now) ≡ bytes.now) }
{
    let mut plain = true;
    let mut ascii = true;
    for &byte in bytes {
        plain = plain & (byte >= 0x20) & (byte != b'"') & (byte != b'\\');
        ascii = ascii & (byte < 0x80);
    }
    plain && (ascii || is_text(bytes))
}

/// Appends `bytes` as a part of a JSON string, with characters escaped and invalid UTF-8 replaced. This function is
/// called only if `bytes` can't be copied unchanged.
pub fn put_replaced(out: &mut Vec<u8>, alloc: Global, bytes: &[u8]) -> Result<(), Memory>
    ensures front { take (vec_len out.old) out.new.items ≡ out.old.items }
    ensures ok { OnOk result (out.new.items ≡ out.old.items ++ escape (utf8_lossy bytes.now)) }
{
    let string = string_of(alloc, bytes)?;
    let string = string.as_slice();
    push_piece(out, &string[1..string.len() - 1])?;
    Ok(())
}

/// Appends `bytes` as a part of a JSON string. Characters are escaped if JSON requires it, and invalid UTF-8 is
/// replaced.
fn put_escaped(out: &mut Vec<u8>, alloc: Global, bytes: &[u8]) -> Result<(), Memory>
    ensures front { take (vec_len out.old) out.new.items ≡ out.old.items }
    ensures ok { OnOk result (out.new.items ≡ out.old.items ++ escape (utf8_lossy bytes.now)) }
{
    if stands_as_it_is(bytes) {
        push_piece(out, bytes)
    } else {
        put_replaced(out, alloc, bytes)
    }
}

/// Appends the string `text` as a part of a JSON string. Characters are escaped if JSON requires it.
pub fn put_str(out: &mut Vec<u8>, alloc: Global, text: &str) -> Result<(), Memory>
    ensures front { take (vec_len out.old) out.new.items ≡ out.old.items }
    ensures ok { OnOk result (out.new.items ≡ out.old.items ++ escape text.now) }
{
    put_escaped(out, alloc, text.as_bytes())?;
    Ok(())
}

/// Returns `bytes` as a JSON string, with its quotes. Characters are escaped and invalid UTF-8 is replaced. This
/// function is called only if a character is escaped or replaced.
#[inline(never)]
fn string_of(alloc: Global, bytes: &[u8]) -> Result<Vec<u8>, Memory>
    ensures { IfOk result (λ s. s.items ≡ quoted (utf8_lossy bytes.now)) }
{
    let text = String::from_utf8_lossy(alloc, bytes)?;
    let mut out = Writer::new(Vec::new(alloc));
    out.string(text.as_str())?;
    Ok(out.into_inner())
}
