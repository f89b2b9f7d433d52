//! Writes records directly as JSON text. If the partition key of a record needs no escaping, the record is written over
//! zero bytes that were appended for many records at once. The capacity then isn't checked for each piece of the
//! record. Nearly all records are written in this way.
ghost use Rattle.std.specs.Prelude.{◌≡◌, ◌+◌, ◌/◌, ◌^◌, ◌<◌, ◌≤◌, ◌++◌, length, take, vec_len, IfOk, OnOk};
ghost use Rattle.base64.specs.Engines.{standard};
ghost use Rattle.serde_json.specs.Written.{comma_if, compact_text};
ghost use Rattle.kds_reply_texts.specs.Bodies.{list_data};
ghost use Rattle.kds_reply_texts.specs.Records.{record_data};
ghost use Rattle.kds_reply_texts.specs.Room.{front_text, record_room, written_record};

use crate::moments::seconds;
use crate::overwriting::{write_base64, write_comma, write_decimal, write_piece, write_seq};
use crate::pieces::{
    push_piece, push_zeros, put_base64, put_comma, put_decimal, put_replaced, put_seq,
    stands_as_it_is,
};
use base64::engine::general_purpose::{GeneralPurpose, STANDARD};
use kds_base::{Memory, Seq};
use kds_defs::Stored;
use std::alloc::Global;

/// The greatest number of bytes that a record's JSON text has before the payload: 20 digits and 40 other bytes.
const FRONT_BYTES: usize = 60;

/// An upper bound on the bytes of a record's JSON text besides its key and payload: a comma, the text before the
/// payload, 38 bytes for the names of two members with their punctuation, 20 digits, a quote and a brace.
const RECORD_OVERHEAD: usize = 128;

/// How many zero bytes are appended at once, if the capacity allows and no record needs more. The number is so small
/// that the bytes are still in the first-level cache when text is written over them.
const BLOCK_BYTES: usize = 4096;

/// Returns an upper bound on the bytes of a record's JSON text if the record's key needs no escaping. Base64 has four
/// characters for every three bytes of the payload.
#[inline(always)]
pub fn record_size(payload: &[u8], key: &[u8]) -> usize
    ensures { result < 2 ^ 63 → record_room payload.now key.now ≤ result }
{
    ((payload.len() + 2) / 3 * 4).saturating_add(key.len() + RECORD_OVERHEAD)
}

/// Writes the part of a record's JSON text that comes before the payload, and returns the length of this part. `second`
/// is the arrival time of the record in whole seconds.
#[tactic(auto, unfolding(crate::specs::Room::front_text))]
fn write_front(front: &mut [u8], second: u64) -> usize
    requires { 60 ≤ length front.old }
    ensures within { result ≤ 60 }
    ensures text { take result front.new ≡ front_text second }
    ensures len { length front.new ≡ length front.old }
{
    let at = write_piece(front, 0, b"{\"ApproximateArrivalTimestamp\":");
    let at = write_decimal(front, at, second);
    write_piece(front, at, b",\"Data\":\"")
}

/// Makes `front` begin with the text that comes before a record's payload, and returns the length of this text.
/// `second` is the arrival time of the record in whole seconds. Before the call, `front` begins with the text for the
/// arrival time `last`. If the two times are equal, nothing is written, because records that arrived in the same second
/// of time share the text.
#[inline(always)]
fn renew_front(front: &mut [u8], size: usize, last: u64, second: u64) -> usize
    requires room { 60 ≤ length front.old }
    requires within { size ≤ 60 }
    requires text { take size front.old ≡ front_text last }
    ensures within { result ≤ 60 }
    ensures text { take result front.new ≡ front_text second }
    ensures len { length front.new ≡ length front.old }
{
    if second == last {
        size
    } else {
        write_front(front, second)
    }
}

/// Writes the JSON text of a record into `buffer` at the index `at`, and returns the index after the text. The record's
/// key needs no escaping.
#[inline(always)]
fn write_record(
    buffer: &mut [u8],
    at: usize,
    engine: &GeneralPurpose,
    front: &[u8],
    payload: &[u8],
    key: &[u8],
    seq: Seq,
) -> usize
    requires standard { engine.now ≡ standard }
    requires fits { at + record_room payload.now key.now ≤ length buffer.old + 1 }
    requires short { length front.now ≤ 60 }
    ensures within { result ≤ length buffer.new }
    ensures text { take result buffer.new ≡ take at buffer.old ++ written_record front.now payload.now key.now seq }
    ensures len { length buffer.new ≡ length buffer.old }
{
    let at = write_piece(buffer, at, front);
    let at = write_base64(buffer, at, engine, payload);
    let at = write_piece(buffer, at, b"\",\"PartitionKey\":\"");
    let at = write_piece(buffer, at, key);
    let at = write_piece(buffer, at, b"\",\"SequenceNumber\":\"");
    let at = write_seq(buffer, at, seq);
    write_piece(buffer, at, b"\"}")
}

/// Ensures that the vector has at least `size` bytes from the index `at` on, so that they can be overwritten. If the
/// vector is too short, zero bytes are appended. If the capacity allows, more zero bytes are appended than needed.
#[inline(always)]
fn ensure_length(out: &mut Vec<u8>, at: usize, size: usize) -> Result<(), Memory>
    requires { at ≤ vec_len out.old }
    ensures front { take at out.new.items ≡ take at out.old.items }
    ensures room { OnOk result (at + size ≤ vec_len out.new) }
{
    let left = out.len() - at;
    if left >= size {
        return Ok(());
    }
    let spare = out.capacity().saturating_sub(out.len());
    push_zeros(out, spare.min(BLOCK_BYTES).max(size - left))
}

/// Appends the JSON text of a record whose key may need escaping.
fn append_record(out: &mut Vec<u8>, alloc: Global, stored: &Stored) -> Result<(), Memory>
    ensures front { take (vec_len out.old) out.new.items ≡ out.old.items }
    ensures ok { OnOk result (out.new.items ≡ out.old.items ++ compact_text (record_data stored.now)) }
{
    push_piece(out, b"{\"ApproximateArrivalTimestamp\":")?;
    put_decimal(out, seconds(stored.arrival))?;
    push_piece(out, b",\"Data\":\"")?;
    put_base64(out, stored.payload.as_slice())?;
    push_piece(out, b"\",\"PartitionKey\":\"")?;
    put_replaced(out, alloc, stored.key.as_slice())?;
    push_piece(out, b"\",\"SequenceNumber\":\"")?;
    put_seq(out, stored.seq)?;
    push_piece(out, b"\"}")?;
    Ok(())
}

/// Truncates the vector at the index `at`, appends a comma if `later` is true, appends a record as `append_record`
/// does, and returns the index after the record.
#[inline(never)]
fn add_escaped_record(
    out: &mut Vec<u8>,
    at: usize,
    later: bool,
    alloc: Global,
    stored: &Stored,
) -> Result<usize, Memory>
    requires { at ≤ vec_len out.old }
    ensures front { take at out.new.items ≡ take at out.old.items }
    ensures within { IfOk result (λ end. end ≤ vec_len out.new) }
    ensures text { IfOk result (λ end. take end out.new.items ≡ take at out.old.items
        ++ (comma_if later ++ compact_text (record_data stored.now))) }
{
    out.truncate(at);
    put_comma(out, later)?;
    append_record(out, alloc, stored)?;
    Ok(out.len())
}

/// Writes a record at the index `at` of the vector, with a comma before it if `later` is true, and returns the index
/// after the record. `front` is the complete text that comes before the record's payload.
#[inline(always)]
fn add_record(
    out: &mut Vec<u8>,
    at: usize,
    later: bool,
    alloc: Global,
    engine: &GeneralPurpose,
    front: &[u8],
    stored: &Stored,
) -> Result<usize, Memory>
    requires at { at ≤ vec_len out.old }
    requires standard { engine.now ≡ standard }
    requires short { length front.now ≤ 60 }
    requires front { front.now ≡ front_text (stored.now.arrival / 1000) }
    ensures front { take at out.new.items ≡ take at out.old.items }
    ensures within { IfOk result (λ end. end ≤ vec_len out.new) }
    ensures text { IfOk result (λ end. take end out.new.items ≡ take at out.old.items
        ++ (comma_if later ++ compact_text (record_data stored.now))) }
{
    let (payload, key) = (stored.payload.as_slice(), stored.key.as_slice());
    if !stands_as_it_is(key) {
        return add_escaped_record(out, at, later, alloc, stored);
    }
    ensure_length(out, at, record_size(payload, key))?;
    let buffer = out.as_mut_slice();
    let at = write_comma(buffer, at, later);
    Ok(write_record(buffer, at, engine, front, payload, key, stored.seq))
}

/// Appends the records as a JSON array. `engine` is the standard base64 engine.
fn fill_records(
    out: &mut Vec<u8>,
    alloc: Global,
    engine: &GeneralPurpose,
    batch: &[Stored],
) -> Result<(), Memory>
    requires { engine.now ≡ standard }
    ensures front { take (vec_len out.old) out.new.items ≡ out.old.items }
    ensures ok { OnOk result (out.new.items ≡ out.old.items ++ compact_text (list_data record_data batch.now)) }
{
    push_piece(out, b"[")?;
    let mut front = [0u8; FRONT_BYTES];
    let mut second = 0;
    let mut size = write_front(&mut front, second);
    let mut at = out.len();
    let mut later = false;
    for stored in batch {
        let arrival = seconds(stored.arrival);
        size = renew_front(&mut front, size, second, arrival);
        second = arrival;
        at = add_record(out, at, later, alloc, engine, &front[..size], stored)?;
        later = true;
    }
    out.truncate(at);
    push_piece(out, b"]")?;
    Ok(())
}

/// Returns the standard base64 engine (RFC 4648, section 4).
fn standard_engine() -> GeneralPurpose
    ensures { result ≡ standard }
{
    STANDARD
}

/// Appends the records as a JSON array.
pub fn append_records(out: &mut Vec<u8>, alloc: Global, batch: &[Stored]) -> Result<(), Memory>
    ensures front { take (vec_len out.old) out.new.items ≡ out.old.items }
    ensures ok { OnOk result (out.new.items ≡ out.old.items ++ compact_text (list_data record_data batch.now)) }
{
    let engine = standard_engine();
    fill_records(out, alloc, &engine, batch)
}
