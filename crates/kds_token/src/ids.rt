//! Writes and parses the ids of shards, without allocating memory.
ghost use Rattle.std.specs.Prelude.{◌≡◌, ◌<◌, ◌≤◌, ◌-◌, ◌+◌, ◌++◌, ◌^◌, ℕ, List, Some, codes, length, replicate};
ghost use Rattle.arrayvec.specs.ArrayString.{array_string_len};
ghost use Rattle.kds_token.specs.Ids.{shard_id as id_text, id_of};

use arrayvec::ArrayString;
use itoa::Buffer;
use kds_base::{ShardNo, read_digits};

/// The prefix of every shard id. The number of the shard comes after this prefix.
const PREFIX: &[u8] = b"shardId-";

/// The least number of digits after the prefix of a shard id. A shard number with fewer digits is padded with zeros.
const DIGITS: usize = 12;

/// Returns the part of a shard id that comes before the digits of the shard's number, if this number has `digits`
/// digits. This part is `shardId-`, followed by the zeros that pad the number.
fn before(digits: usize) -> ArrayString<28>
    requires { digits ≤ 20 }
    ensures bytes { result.bytes ≡ codes "shardId-" ++ replicate (12 - digits) 48 }
    ensures room { array_string_len result + digits ≤ 28 }
{
    let mut id = ArrayString::new();
    id.push_str("shardId-");
    let mut known = digits;
    while known < DIGITS {
        id.push('0');
        known += 1;
    }
    id
}

/// Returns the id of a shard: `shardId-`, followed by the shard's number, which is padded with zeros to twelve digits
/// (Kinesis API Reference, Shard, ShardId).
pub fn shard_id(shard: ShardNo) -> ArrayString<28>
    ensures { result.bytes ≡ id_text shard }
{
    let mut buffer = Buffer::new();
    let digits = buffer.format(shard.0);
    let mut id = before(digits.len());
    id.push_str(digits);
    id
}

/// Returns the decimal number after the prefix in `text`. If `text` is a shard id, the result is the number of that
/// shard. The result can be a number even if `text` isn't a shard id, for example because a padding zero is missing.
fn number_of(text: &[u8]) -> Option<u64>
    ensures { (n : ℕ) → n < 2 ^ 64 → text.now ≡ id_text n → result ≡ Some n }
{
    let digits = text.strip_prefix(PREFIX)?;
    read_digits(digits)
}

/// Parses a shard id, and returns the number of the shard. Returns `None` if and only if `text` isn't a text that
/// `shard_id` writes.
pub fn read_shard_id(text: &[u8]) -> Option<ShardNo>
    ensures { result ≡ id_of text.now }
{
    match number_of(text) {
        Some(number) => {
            if shard_id(ShardNo(number)).as_bytes() == text {
                Some(ShardNo(number))
            } else {
                None
            }
        }
        None => None,
    }
}

/// States that each shard has exactly one id. If the id of a shard is parsed, the result is the number of the shard. If
/// parsing a text returns a number, the text is the id of the shard with this number.
pub fn one_id()
    ensures reads { (n : ℕ) → n < 2 ^ 64 → id_of (id_text n) ≡ Some n }
    ensures spells { (text : List ℕ) (n : ℕ) → id_of text ≡ Some n → text ≡ id_text n }
{}
