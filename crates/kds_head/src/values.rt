//! Reads header values: the length of the body, the operation, whether the body is JSON, and whether the connection
//! closes.
ghost use Rattle.std.specs.Prelude.{◌≡◌, ◌==◌, ◌||◌, [], false, option_and_then};
ghost use Rattle.std.specs.Option.{option_map_or};
ghost use Rattle.kds_head.specs.Findings.{value_in};
ghost use Rattle.kds_head.specs.Values as value;

use crate::findings::{Seen, only_value};
use crate::numbers::LENGTH_DIGITS;
use kds_base::read_digits;

/// Reads a number of 1 to `LENGTH_DIGITS` digits. `None` means that `text` isn't such a number.
fn byte_count(text: &[u8]) -> Option<u64>
    ensures { result ≡ value.byte_count text.now }
{
    if text.len() > LENGTH_DIGITS {
        None
    } else {
        read_digits(text)
    }
}

/// Returns the number of bytes of the body, as Content-Length states it. The result is `None` if there isn't exactly
/// one such header, or if its value isn't a number of 1 to `LENGTH_DIGITS` digits.
pub fn body_length(front: &[u8], lengths: Seen) -> Option<u64>
    ensures { result ≡ option_and_then value.byte_count (value_in front.now lengths) }
{
    match only_value(front, lengths) {
        Some(text) => byte_count(text),
        None => None,
    }
}

/// Returns the operation's name in the value of an X-Amz-Target header: the text after `Kinesis_20131202.`. The name is
/// empty if the value begins differently.
fn named_operation(target: &[u8]) -> &[u8]
    ensures { result.now ≡ value.named_operation target.now }
{
    if target.starts_with(b"Kinesis_20131202.".as_slice()) {
        let (_, name) = target.split_at(17);
        name
    } else {
        b"".as_slice()
    }
}

/// Returns the operation's name in the only X-Amz-Target header. The name is empty if there isn't exactly one such
/// header, or if its value names no operation.
pub fn operation(front: &[u8], targets: Seen) -> &[u8]
    ensures { result.now ≡ option_map_or value.named_operation (value_in front.now targets) [] }
{
    match only_value(front, targets) {
        Some(target) => named_operation(target),
        None => b"".as_slice(),
    }
}

fn is_json(media_type: &[u8]) -> bool
    ensures { result ≡ value.is_json media_type.now }
{
    media_type == b"application/x-amz-json-1.1".as_slice()
        || media_type.starts_with(b"application/x-amz-json-1.1;".as_slice())
}

/// Whether there is exactly one Content-Type header, and its value is the service's JSON type,
/// `application/x-amz-json-1.1`, alone or followed by `;`.
pub fn says_json(front: &[u8], media_types: Seen) -> bool
    ensures { result ≡ option_map_or value.is_json (value_in front.now media_types) false }
{
    match only_value(front, media_types) {
        Some(media_type) => is_json(media_type),
        None => false,
    }
}

/// Whether the connection closes after the response. It closes if the minor version of HTTP (`minor`) is 0, or if
/// `said` is true, which means that a Connection header has the value `close`.
pub fn closes(minor: u8, said: bool) -> bool
    ensures { result ≡ (minor == 0 || said) }
{
    minor == 0 || said
}
