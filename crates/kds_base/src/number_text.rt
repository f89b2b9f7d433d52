//! Reads and writes numbers as decimal text. For each number, `read_u64` and `read_u128` accept exactly one text: the
//! text that `write_u64` and `write_u128` write for this number. Writing a number makes no temporary allocation.
ghost use Rattle.std.specs.Prelude.{◌≡◌, ◌++◌, ◌+◌, ◌-◌, ◌*◌, ◌<◌, ◌≤◌, ◌^◌, ◌==◌, ◌&&◌, ℕ, length, nat_lt};
ghost use Rattle.std.specs.Prelude.{slice_index, true, decimal, OnOk, OnErr, IfSome, IfNone};
ghost use Rattle.std.specs.Char.{is_ascii_digit};
ghost use Rattle.kds_base.specs.NumberText.{digits_of, number_of};

use crate::memory::Memory;
use crate::octets::Octets;
use itoa::Buffer;
use std::alloc::Global;

/// Whether the text starts with the digit 0 and has more than one byte.
fn has_needless_zero(text: &[u8]) -> bool
    ensures { result ≡ (nat_lt 1 (length text.now) && slice_index text.now 0 == 48) }
{
    text.len() > 1 && text[0] == b'0'
}

/// 2^64 / 10, rounded down. Appending a digit to a decimal number below this bound never overflows a `u64`.
const ROOM_FOR_A_DIGIT: u64 = 1_844_674_407_370_955_161;

/// Returns `number` with the decimal digit `digit`, an ASCII byte, appended. If the result would be 2^64 or more,
/// returns `None` instead.
fn with_digit(number: u64, digit: u8) -> Option<u64>
    requires { is_ascii_digit digit ≡ true }
    ensures some { IfSome result (λ more. more ≡ number * 10 + (digit - 48)) }
    ensures small { IfSome result (λ more. more < 2 ^ 64) }
    ensures none { IfNone result (2 ^ 64 ≤ number * 10 + (digit - 48)) }
{
    let value = u64::from(digit - b'0');
    if number < ROOM_FOR_A_DIGIT {
        Some(number * 10 + value)
    } else {
        number.checked_mul(10)?.checked_add(value)
    }
}

/// Reads a text of decimal digits as a number. Leading zeros are allowed. Returns `None` in three cases only: the text
/// is empty, a byte of the text isn't a digit, or the number is 2^64 or more.
pub fn read_digits(text: &[u8]) -> Option<u64>
    ensures { result ≡ digits_of 64 text.now }
{
    if text.is_empty() {
        return None;
    }
    let mut number = 0u64;
    for &byte in text {
        if !byte.is_ascii_digit() {
            return None;
        }
        number = with_digit(number, byte)?;
    }
    Some(number)
}

/// Reads a text of decimal digits as a number. Returns `None` in four cases only: the text is empty, a byte of the text
/// isn't a digit, the text begins with `0` and has more than one digit, or the number is 2^64 or more.
pub fn read_u64(text: &[u8]) -> Option<u64>
    ensures { result ≡ number_of 64 text.now }
{
    if has_needless_zero(text) {
        None
    } else {
        read_digits(text)
    }
}

/// Appends `n` to `to` as decimal text. If memory runs out, `to` is unchanged.
pub fn write_u64(_alloc: Global, n: u64, to: &mut Octets) -> Result<(), Memory>
    ensures ok { OnOk result (to.new ≡ to.old ++ decimal n) }
    ensures err { OnErr result (to.new ≡ to.old) }
{
    let mut digits = Buffer::new();
    to.extend(digits.format(n).as_bytes())
}

/// The number of digits in a block. `read_wide` reads a long text block by block. Every number of 19 digits fits in a
/// `u64`, but not every number of 20 digits does.
const BLOCK_DIGITS: usize = 19;

/// 10 to the power of `BLOCK_DIGITS`: the least number that has more digits than a block.
const BLOCK_END: u128 = 10_000_000_000_000_000_000;

/// The greatest number of digits that a number below 2^128 can have, without leading zeros.
const MOST_DIGITS: usize = 39;

/// Returns `number * 10^19 + block`, which is `number` with the 19 digits of `block` appended. If the result would be
/// 2^128 or more, returns `None` instead.
fn with_block(number: u128, block: u64) -> Option<u128>
    ensures some { IfSome result (λ more. more ≡ number * 10 ^ 19 + block) }
    ensures small { IfSome result (λ more. more < 2 ^ 128) }
    ensures none { IfNone result (2 ^ 128 ≤ number * 10 ^ 19 + block) }
{
    number
        .checked_mul(BLOCK_END)?
        .checked_add(u128::from(block))
}

/// Reads a text of decimal digits as a number. Leading zeros are allowed. Returns `None` in three cases only: the text
/// is empty, a byte of the text isn't a digit, or the number is 2^128 or more. The function reads the digits in blocks
/// of at most 19, because arithmetic on 128 bits costs many times as much as arithmetic on 64 bits.
fn read_wide(text: &[u8]) -> Option<u128>
    ensures { result ≡ digits_of 128 text.now }
{
    if text.len() <= BLOCK_DIGITS {
        return match read_digits(text) {
            Some(number) => Some(u128::from(number)),
            None => None,
        };
    }
    let (front, block) = text.split_at(text.len() - BLOCK_DIGITS);
    let number = read_wide(front)?;
    let block = read_digits(block)?;
    with_block(number, block)
}

/// Reads a text of decimal digits as a number. Returns `None` in four cases only: the text is empty, a byte of the text
/// isn't a digit, the text begins with `0` and has more than one digit, or the number is 2^128 or more.
pub fn read_u128(text: &[u8]) -> Option<u128>
    ensures { result ≡ number_of 128 text.now }
{
    if text.len() > MOST_DIGITS {
        return None;
    }
    if has_needless_zero(text) {
        None
    } else {
        read_wide(text)
    }
}

/// Appends `n` to `to` as decimal text. If memory runs out, `to` is unchanged.
pub fn write_u128(_alloc: Global, n: u128, to: &mut Octets) -> Result<(), Memory>
    ensures ok { OnOk result (to.new ≡ to.old ++ decimal n) }
    ensures err { OnErr result (to.new ≡ to.old) }
{
    let mut digits = Buffer::new();
    to.extend(digits.format(n).as_bytes())
}
