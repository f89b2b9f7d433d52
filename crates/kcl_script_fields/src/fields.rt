//! Reads the fields of a line, and the numbers, workers and lease keys in these fields. If a text can't be read, the
//! result is `None`.
ghost use Rattle.std.specs.Prelude.{◌≡◌, ◌∷◌, option_map};
ghost use Rattle.kcl_script_fields.specs.Fields.{parted, field as field_of, two, number, from_one_to};
ghost use Rattle.kcl_script_fields.specs.Fields.{count_of, worker_of, key_of};

use kds_base::{ShardNo, ShardRef, StreamNo, WorkerNo, read_u64};
use memchr::memchr;

/// Splits `text` at the first byte `sep`, and returns the part before this byte and the part after it. Returns `None`
/// if `text` has no such byte.
pub fn part(text: &[u8], sep: u8) -> Option<(&[u8], &[u8])>
    ensures { option_map (λ p. (p.0.now, p.1.now)) result ≡ parted sep text.now }
{
    match memchr(sep, text) {
        Some(at) => {
            let (front, _) = text.split_at(at);
            let (_, back) = text.split_at(at + 1);
            Some((front, back))
        }
        None => None,
    }
}

/// Splits `text` at the first space, and returns the part before the space and the part after it. Returns `None` if
/// `text` has no space.
pub fn field(text: &[u8]) -> Option<(&[u8], &[u8])>
    ensures { option_map (λ p. (p.0.now, p.1.now)) result ≡ field_of text.now }
{
    part(text, b' ')
}

fn from_one(n: u64, most: u32) -> Option<u32>
    ensures { result ≡ from_one_to most n }
{
    if 1 <= n && n <= most as u64 {
        Some(n as u32)
    } else {
        None
    }
}

/// Reads a decimal number from 1 to `most`.
pub fn count(text: &[u8], most: u32) -> Option<u32>
    ensures { result ≡ count_of most text.now }
{
    from_one(read_u64(text)?, most)
}

/// Reads two decimal numbers with the byte `sep` between them.
#[tactic(auto, unfolding(crate::specs::Fields::two))]
pub fn two_numbers(text: &[u8], sep: u8) -> Option<(u64, u64)>
    ensures { result ≡ two sep number number text.now }
{
    let (front, back) = part(text, sep)?;
    let first = read_u64(front)?;
    let second = read_u64(back)?;
    Some((first, second))
}

/// Reads a worker, written as `w` and the worker's number, which is at least 1.
pub fn worker(text: &[u8]) -> Option<WorkerNo>
    ensures { result ≡ worker_of text.now }
{
    match text.split_first() {
        Some((b, digits)) => numbered(*b, digits),
        None => None,
    }
}

fn numbered(letter: u8, digits: &[u8]) -> Option<WorkerNo>
    ensures { result ≡ worker_of (letter ∷ digits.now) }
{
    if letter == b'w' {
        let number = count(digits, u32::MAX)?;
        Some(WorkerNo(number))
    } else {
        None
    }
}

/// Reads the key of a lease, written as the numbers STREAM/SHARD.
pub fn key_of(text: &[u8]) -> Option<ShardRef>
    ensures { result ≡ key_of text.now }
{
    let (stream, shard) = two_numbers(text, b'/')?;
    Some(ShardRef {
        stream: StreamNo(stream),
        shard: ShardNo(shard),
    })
}
