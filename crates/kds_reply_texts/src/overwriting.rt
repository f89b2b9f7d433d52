//! Writes pieces of JSON text over existing bytes of a buffer. The text that is already written ends at the index `at`,
//! and the buffer is longer than this text.
ghost use Rattle.std.specs.Prelude.{◌≡◌, ◌+◌, ◌≤◌, ◌++◌, true, length, take, decimal};
ghost use Rattle.base64.specs.Engines.{standard};
ghost use Rattle.base64.specs.GeneralPurpose.{encode_of};
ghost use Rattle.base64.specs.Rfc4648.{encoded_size};
ghost use Rattle.json.specs.Print.{escape};
ghost use Rattle.serde_json.specs.Written.{comma_if};

use base64::engine::general_purpose::GeneralPurpose;
use itoa::Buffer;
use kds_base::Seq;

/// Writes the bytes `piece` at the index `at`, and returns the index after them.
#[inline(always)]
pub fn write_piece(buffer: &mut [u8], at: usize, piece: &[u8]) -> usize
    requires { at + length piece.now ≤ length buffer.old }
    ensures end { result ≡ at + length piece.now }
    ensures text { take result buffer.new ≡ take at buffer.old ++ piece.now }
    ensures len { length buffer.new ≡ length buffer.old }
{
    let end = at + piece.len();
    buffer[at..end].copy_from_slice(piece);
    end
}

/// Writes a comma at the index `at` if `later` is true. Returns the index after the comma, or `at` if no comma was
/// written.
#[inline(always)]
pub fn write_comma(buffer: &mut [u8], at: usize, later: bool) -> usize
    requires { at + 1 ≤ length buffer.old }
    ensures within { result ≤ at + 1 }
    ensures text { take result buffer.new ≡ take at buffer.old ++ comma_if later }
    ensures len { length buffer.new ≡ length buffer.old }
{
    if later {
        write_piece(buffer, at, b",")
    } else {
        at
    }
}

/// Writes the number `n` in decimal at the index `at`, and returns the index after the number. The number has at most
/// 20 digits.
#[inline(always)]
pub fn write_decimal(buffer: &mut [u8], at: usize, n: u64) -> usize
    requires { at + 20 ≤ length buffer.old }
    ensures within { result ≤ at + 20 }
    ensures text { take result buffer.new ≡ take at buffer.old ++ decimal n }
    ensures len { length buffer.new ≡ length buffer.old }
{
    let mut digits = Buffer::new();
    write_piece(buffer, at, digits.format(n).as_bytes())
}

/// Writes the number `n` in decimal at the index `at`, as a part of a JSON string, in which no digit needs escaping.
/// Returns the index after the number.
#[inline(always)]
fn write_digits(buffer: &mut [u8], at: usize, n: u64) -> usize
    requires { at + 20 ≤ length buffer.old }
    ensures within { result ≤ at + 20 }
    ensures text { take result buffer.new ≡ take at buffer.old ++ escape (decimal n) }
    ensures len { length buffer.new ≡ length buffer.old }
{
    write_decimal(buffer, at, n)
}

/// Writes a sequence number in decimal at the index `at`, as a part of a JSON string, and returns the index after the
/// number.
#[inline(always)]
pub fn write_seq(buffer: &mut [u8], at: usize, seq: Seq) -> usize
    requires { at + 20 ≤ length buffer.old }
    ensures within { result ≤ at + 20 }
    ensures text { take result buffer.new ≡ take at buffer.old ++ escape (decimal seq) }
    ensures len { length buffer.new ≡ length buffer.old }
{
    write_digits(buffer, at, seq.0)
}

/// Writes `bytes` as base64 (RFC 4648, section 4) at the index `at`, as a part of a JSON string, and returns the index
/// after the text. The engine is a parameter because otherwise its tables would be copied for each text.
#[inline(always)]
pub fn write_base64(buffer: &mut [u8], at: usize, engine: &GeneralPurpose, bytes: &[u8]) -> usize
    requires standard { engine.now ≡ standard }
    requires fits { at + encoded_size (length bytes.now) true ≤ length buffer.old }
    ensures end { result ≡ at + encoded_size (length bytes.now) true }
    ensures text { take result buffer.new ≡ take at buffer.old ++ escape (encode_of standard bytes.now) }
    ensures len { length buffer.new ≡ length buffer.old }
{
    match engine.encode_slice(bytes, &mut buffer[at..]) {
        Ok(size) => at + size,
        Err(_) => unreachable!(),
    }
}
