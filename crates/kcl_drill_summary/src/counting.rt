//! Counts a shard's records and their payload bytes.
ghost use Rattle.std.specs.Prelude.{◌≡◌, ◌+◌, ◌<◌, ◌^◌, List, length, map, Option, Some, Ok, IfOk, IfSome};
ghost use Rattle.kds_defs.specs.declared.command.Turn.{Turn as Asked};
ghost use Rattle.kds_defs.specs.declared.reply.Iter.{Iter};
ghost use Rattle.kds_defs.specs.declared.reply.Stored.{Stored};
ghost use Rattle.kds_defs.specs.Records.{logged, records};
ghost use Rattle.kcl_drill_summary.specs.Summing.{Absorbs, CountsFrom, ReadsOn};
ghost use Rattle.kcl_drill_summary.specs.Reads.{HasRead};
ghost use Rattle.kcl_drill_summary.specs.Counting.{next_above};
ghost use Rattle.kcl_drill.specs.Summed.{bytes_of};

use crate::asking::ask;
use kds_base::{Memory, Moment};
use kds_defs::limits::MOST;
use kds_defs::{Answer, Command, Iter, Machine, Reply, Stored};

/// A number of records, and the total number of their payload bytes.
#[derive(Clone, Copy)]
pub struct Count {
    pub count: u64,
    pub bytes: u128,
}

/// Returns the total number of payload bytes of the records in a batch.
fn payload_bytes(batch: &[Stored]) -> u128
    ensures { bytes_of (map logged batch.now) < 2 ^ 128 → result ≡ bytes_of (map logged batch.now) }
{
    let mut bytes: u128 = 0;
    for r in batch {
        bytes = bytes.saturating_add(r.payload.as_slice().len() as u128);
    }
    bytes
}

/// Returns `count`, increased by the records of a batch and by their payload bytes.
fn with_batch(count: Count, batch: &[Stored]) -> Count
    ensures count { count.count + length batch.now < 2 ^ 64 → result.count ≡ count.count + length batch.now }
    ensures bytes { count.bytes + bytes_of (map logged batch.now) < 2 ^ 128
        → result.bytes ≡ count.bytes + bytes_of (map logged batch.now) }
{
    Count {
        count: count.count.saturating_add(batch.len() as u64),
        bytes: count.bytes.saturating_add(payload_bytes(batch)),
    }
}

/// Returns the iterator `next` if its position is above `position`, and `None` otherwise.
fn above(position: u64, next: Option<Iter>) -> Option<Iter>
    ensures { result ≡ next_above position next }
{
    match next {
        Some(next) => {
            if next.position > position {
                Some(next)
            } else {
                None
            }
        }
        None => None,
    }
}

/// Adds the batch in an answer to `count`, and returns the sum. Also returns the next iterator in this answer, if the
/// iterator's position is above `position`.
fn absorb(count: Count, position: u64, answer: &Answer) -> (Count, Option<Iter>)
    ensures batch { Absorbs count.count count.bytes position answer.now result.0.count result.0.bytes result.1 }
    ensures rises { IfSome result.1 (λ next. position < next.position) }
{
    match answer {
        Ok(Reply::Records { batch, next, .. }) => (
            with_batch(count, batch.as_slice()),
            above(position, *next),
        ),
        _ => (count, None),
    }
}

/// Reads one batch at the iterator `iter`. Adds the batch to `count`, and returns the sum and the next iterator. The
/// next iterator is returned only if its position is above the position of `iter`. So counting ends, whatever the
/// machine answers.
fn count_batch<M: Machine>(
    machine: &mut M,
    by: u32,
    at: Moment,
    iter: Iter,
    count: Count,
) -> Result<(Count, Option<Iter>), Memory>
    ensures ok { ReadsOn (M.stands_for machine.old) by at iter count result }
    ensures read { (h : List Asked) → HasRead (M.stands_for machine.old) by at h
        → HasRead (M.stands_for machine.new) by at h }
    ensures rises { IfOk result (λ r. IfSome r.1 (λ next. iter.position < next.position)) }
{
    let position = iter.position;
    let answer = ask(machine, by, at, Command::Records { iter, limit: MOST })?;
    let seen = absorb(count, position, &answer);
    Ok(seen)
}

/// Counts the records, and their payload bytes, from an iterator to the end of its shard.
pub fn count_from<M: Machine>(
    machine: &mut M,
    by: u32,
    at: Moment,
    from: Iter,
) -> Result<Count, Memory>
    ensures ok { CountsFrom (M.stands_for machine.old) by at from result }
    ensures read { (h : List Asked) → HasRead (M.stands_for machine.old) by at h
        → HasRead (M.stands_for machine.new) by at h }
{
    let mut iter = from;
    let mut count = Count { count: 0, bytes: 0 };
    loop {
        let (now, next) = count_batch(machine, by, at, iter, count)?;
        count = now;
        match next {
            Some(next) => iter = next,
            None => return Ok(count),
        }
    }
}
