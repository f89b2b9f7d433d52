//! Writes the replies to PutRecord and PutRecords directly as JSON text.
ghost use Rattle.std.specs.Prelude.{◌≡◌, ◌++◌, take, vec_len, OnOk};
ghost use Rattle.serde_json.specs.Written.{compact_text};
ghost use Rattle.kds_reply_texts.specs.Bodies.{list_data, place_data, failed_data, outcome_data, has_failed};
ghost use Rattle.kds_reply_texts.specs.Bodies.{failed_count as count_of_failed, outcomes_data};

use crate::pieces::{push_piece, put_comma, put_decimal, put_seq, put_str, reserve};
use crate::refusals::{refusal_message, refusal_name};
use kds_base::Memory;
use kds_defs::{Outcome, Place, Refusal};
use kds_token::shard_id;
use std::alloc::Global;

/// An upper bound on the bytes of the result of one record. The text around the results of a PutRecords request also
/// has at most this many bytes.
const PLACE_BYTES: usize = 96;

fn failed(outcome: &Outcome) -> bool
    ensures { result ≡ has_failed outcome.now }
{
    matches!(outcome, Outcome::Throttled(_))
}

/// Returns how many records of the request weren't stored.
fn failed_count(outcomes: &[Outcome]) -> u64
    ensures { result ≡ count_of_failed outcomes.now }
{
    let mut count = 0u64;
    for outcome in outcomes {
        if failed(outcome) {
            count += 1;
        }
    }
    count
}

/// Appends the sequence number and the shard ID of a stored record as a JSON object (Kinesis API Reference, PutRecord,
/// Response Elements).
fn put_place(out: &mut Vec<u8>, alloc: Global, place: &Place) -> Result<(), Memory>
    ensures front { take (vec_len out.old) out.new.items ≡ out.old.items }
    ensures ok { OnOk result (out.new.items ≡ out.old.items ++ compact_text (place_data place.now)) }
{
    let shard = shard_id(place.shard);
    push_piece(out, b"{\"SequenceNumber\":\"")?;
    put_seq(out, place.seq)?;
    push_piece(out, b"\",\"ShardId\":\"")?;
    put_str(out, alloc, shard.as_str())?;
    push_piece(out, b"\"}")?;
    Ok(())
}

/// Appends the result of a record of PutRecords that wasn't stored: a JSON object with the error's name and message.
fn put_failed(out: &mut Vec<u8>, alloc: Global, name: &str, message: &str) -> Result<(), Memory>
    ensures front { take (vec_len out.old) out.new.items ≡ out.old.items }
    ensures ok { OnOk result (out.new.items ≡ out.old.items ++ compact_text (failed_data name.now message.now)) }
{
    push_piece(out, b"{\"ErrorCode\":\"")?;
    put_str(out, alloc, name)?;
    push_piece(out, b"\",\"ErrorMessage\":\"")?;
    put_str(out, alloc, message)?;
    push_piece(out, b"\"}")?;
    Ok(())
}

/// Appends the result of one record of PutRecords as a JSON object (Kinesis API Reference, PutRecordsResultEntry).
fn put_outcome(out: &mut Vec<u8>, alloc: Global, outcome: &Outcome) -> Result<(), Memory>
    ensures front { take (vec_len out.old) out.new.items ≡ out.old.items }
    ensures ok { OnOk result (out.new.items ≡ out.old.items ++ compact_text (outcome_data outcome.now)) }
{
    match outcome {
        Outcome::Stored(place) => put_place(out, alloc, place),
        Outcome::Throttled(shard) => {
            let refusal = Refusal::Throttled(*shard);
            put_failed(
                out,
                alloc,
                refusal_name(&refusal),
                refusal_message(&refusal),
            )
        }
    }
}

/// Appends the results of the records of PutRecords as a JSON array.
fn put_outcomes(out: &mut Vec<u8>, alloc: Global, outcomes: &[Outcome]) -> Result<(), Memory>
    ensures front { take (vec_len out.old) out.new.items ≡ out.old.items }
    ensures ok { OnOk result (out.new.items ≡ out.old.items ++ compact_text (list_data outcome_data outcomes.now)) }
{
    let mut later = false;
    push_piece(out, b"[")?;
    for outcome in outcomes {
        put_comma(out, later)?;
        put_outcome(out, alloc, outcome)?;
        later = true;
    }
    push_piece(out, b"]")?;
    Ok(())
}

/// Appends the body of the reply to PutRecord.
pub fn add_place(out: &mut Vec<u8>, alloc: Global, place: &Place) -> Result<(), Memory>
    ensures front { take (vec_len out.old) out.new.items ≡ out.old.items }
    ensures ok { OnOk result (out.new.items ≡ out.old.items ++ compact_text (place_data place.now)) }
{
    reserve(out, PLACE_BYTES)?;
    put_place(out, alloc, place)
}

/// Appends the body of the reply to PutRecords (Kinesis API Reference, PutRecords, Response Elements).
pub fn add_outcomes(out: &mut Vec<u8>, alloc: Global, outcomes: &[Outcome]) -> Result<(), Memory>
    ensures front { take (vec_len out.old) out.new.items ≡ out.old.items }
    ensures ok { OnOk result (out.new.items ≡ out.old.items ++ compact_text (outcomes_data outcomes.now)) }
{
    let size = outcomes.len().saturating_mul(PLACE_BYTES);
    reserve(out, size.saturating_add(PLACE_BYTES))?;
    push_piece(out, b"{\"FailedRecordCount\":")?;
    put_decimal(out, failed_count(outcomes))?;
    push_piece(out, b",\"Records\":")?;
    put_outcomes(out, alloc, outcomes)?;
    push_piece(out, b"}")?;
    Ok(())
}
