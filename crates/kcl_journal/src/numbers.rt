//! Reads the numbers in the entries of a journal (an event log), the sizes in a `put` entry, and the batch in a `read`
//! entry. A batch is the list of records that one read returned.
ghost use Rattle.std.specs.Prelude.{◌≡◌, ◌≤◌, IfOk, option_and_then};
ghost use Rattle.kcl_script_fields.specs.Fields.{two};
ghost use Rattle.kcl_journal.specs.Entries.{batch_of, counter_of, ended_of, fitting, numbers_of, sizes_of, switch_of};
ghost use Rattle.kcl_journal.specs.Entries.{within, within_of, words};

use crate::line::{FIRST_RECORD_BYTES, FIRST_VERSION, KEY_BYTES};
use kcl_script_fields::field;
use kds_base::{Items, Memory, Seq, read_u64};
use kds_defs::limits::RECORD_BYTES;
use std::alloc::Global;

fn if_within(n: u64, least: u64, most: u64) -> Option<u64>
    ensures { result ≡ within least most n }
{
    if least <= n && n <= most {
        Some(n)
    } else {
        None
    }
}

/// Reads a number from `least` to `most`, both included. `None` means that `text` isn't such a number.
fn within64(text: &[u8], least: u64, most: u64) -> Option<u64>
    ensures { result ≡ within_of least most text.now }
{
    if_within(read_u64(text)?, least, most)
}

fn if_within32(n: u64, least: u32, most: u32) -> Option<u32>
    ensures { result ≡ within least most n }
{
    if least as u64 <= n && n <= most as u64 {
        Some(n as u32)
    } else {
        None
    }
}

/// Reads a 32-bit number from `least` to `most`, both included. `None` means that `text` isn't such a number.
pub fn within32(text: &[u8], least: u32, most: u32) -> Option<u32>
    ensures { result ≡ within_of least most text.now }
{
    if_within32(read_u64(text)?, least, most)
}

/// Reads the counter that a row of the lease table has after a change. The counter is at least 1. `None` means that
/// `text` isn't such a counter.
pub fn counter_of(text: &[u8]) -> Option<u64>
    ensures { result ≡ counter_of text.now }
{
    within64(text, 1, u64::MAX)
}

fn if_fitting(bytes: u64, key_bytes: u64) -> Option<(u64, u64)>
    requires payload { bytes ≤ RECORD_BYTES }
    requires key { key_bytes ≤ KEY_BYTES }
    ensures { result ≡ fitting (bytes, key_bytes) }
{
    if bytes + key_bytes <= RECORD_BYTES {
        Some((bytes, key_bytes))
    } else {
        None
    }
}

/// Reads the sizes, in bytes, of a record's payload and of its partition key, as version 2 writes them. Together the
/// two sizes are at most `RECORD_BYTES`.
#[tactic(auto, unfolding(kcl_script_fields::specs::Fields::two))]
fn both_sizes(text: &[u8]) -> Option<(u64, u64)>
    ensures { result ≡ option_and_then fitting (two 32 (within_of 0 RECORD_BYTES) (within_of 1 KEY_BYTES) text.now) }
{
    let (first, second) = field(text)?;
    let bytes = within64(first, 0, RECORD_BYTES)?;
    let key_bytes = within64(second, 1, KEY_BYTES)?;
    if_fitting(bytes, key_bytes)
}

/// Reads the sizes, in bytes, of a record's payload and of its partition key, as the version `version` writes them. The
/// first version doesn't state the size of the key, so the size of the key is returned as 0.
pub fn sizes(version: u8, text: &[u8]) -> Option<(u64, u64)>
    ensures { result ≡ sizes_of version text.now }
{
    if version == FIRST_VERSION {
        let bytes = within64(text, 0, FIRST_RECORD_BYTES)?;
        Some((bytes, 0))
    } else {
        both_sizes(text)
    }
}

/// Reads the word that says whether the throughput limits of a stream are on. The word `on` is read as `true`, and
/// `off` as `false`.
pub fn switch(text: &[u8]) -> Option<bool>
    ensures { result ≡ switch_of text.now }
{
    if text == b"on".as_slice() {
        Some(true)
    } else if text == b"off".as_slice() {
        Some(false)
    } else {
        None
    }
}

/// Reads the word that says whether a read reached the end of its shard. The word `end` is read as `true`, and `more`
/// as `false`.
fn ended(text: &[u8]) -> Option<bool>
    ensures { result ≡ ended_of text.now }
{
    if text == b"end".as_slice() {
        Some(true)
    } else if text == b"more".as_slice() {
        Some(false)
    } else {
        None
    }
}

/// Reads a list of at least one sequence number, with single spaces between the numbers.
fn numbers(alloc: Global, text: &[u8]) -> Result<Option<Items<Seq>>, Memory>
    ensures { IfOk result (λ o. o ≡ numbers_of (words text.now)) }
{
    let mut numbers = Items::new(alloc);
    let mut rest = text;
    while let Some((front, back)) = field(rest) {
        let Some(n) = read_u64(front) else {
            return Ok(None);
        };
        numbers.push(Seq(n))?;
        rest = back;
    }
    let Some(n) = read_u64(rest) else {
        return Ok(None);
    };
    numbers.push(Seq(n))?;
    Ok(Some(numbers))
}

/// Reads the last fields of a `read` entry: whether the read reached the end of its shard (`end` or `more`), and the
/// sequence numbers of the records that the read returned, if any.
pub fn batch(alloc: Global, text: &[u8]) -> Result<Option<(bool, Items<Seq>)>, Memory>
    ensures { IfOk result (λ o. o ≡ batch_of text.now) }
{
    let Some((word, rest)) = field(text) else {
        match ended(text) {
            Some(end) => return Ok(Some((end, Items::new(alloc)))),
            None => return Ok(None),
        }
    };
    let Some(end) = ended(word) else {
        return Ok(None);
    };
    let Some(numbers) = numbers(alloc, rest)? else {
        return Ok(None);
    };
    Ok(Some((end, numbers)))
}
