//! Finds the position at which the reading of a shard begins, and reads a batch of records at a position. A position is
//! the least sequence number that the next read can return.
ghost use Rattle.std.specs.Prelude.{◌≡◌, ◌&&◌, is_some, ◌-◌, ◌^◌, ◌<◌, ◌≤◌, map, if◌then◌else◌, IfOk, Some, None, true};
ghost use Rattle.std.specs.List.{AllByRecursion};
ghost use Rattle.kds_defs.specs.Listings.{is_good_after, is_good_at, is_good_start, last_no};
ghost use Rattle.kds_defs.specs.Origins.{iterator_start};
ghost use Rattle.kds_defs.specs.Records.{first_at, left_among, numbers_of, position_after, stored};
ghost use Rattle.kds_defs.specs.Shards.{ShardState, shown};
ghost use Rattle.kds_defs.specs.Streams.{floor_of};
ghost use Rattle.kds_log.specs.Log.{log_of};
ghost use Rattle.kds_stream_logs.specs.Batches.{batch_among, behind_by, position_from};
ghost use Rattle.kds_stream_logs.specs.Logs.{IsBelow, IsUnder};

use kds_base::{Items, Memory, Moment, Seq, ShardNo};
use kds_defs::{Origin, Shard, Start, Stored, position_after};
use kds_log::ShardLog;
use std::alloc::Global;

/// Whether the reading of the shard may begin at the sequence number `q`. The number must be at least the shard's
/// starting sequence number. If the shard is closed, the number must be at most the shard's ending sequence number. If
/// the shard is open, the number must be at most the stream's next sequence number `next`.
fn is_good_at(q: Seq, next: Seq, shard: &Shard) -> bool
    ensures { (x : ShardState) → shard.now ≡ shown x → result ≡ is_good_at x.start next q x.closing }
{
    shard.start <= q
        && match shard.end {
            Some(end) => q <= end,
            None => q <= next,
        }
}

/// Whether the reading of the shard may begin after the sequence number `q`. The number must be at least the shard's
/// starting sequence number. If the shard is closed, the number must be at most the shard's ending sequence number. If
/// the shard is open, the number must be below the stream's next sequence number `next`.
fn is_good_after(q: Seq, next: Seq, shard: &Shard) -> bool
    ensures below { IsUnder next shard.now.end → result ≡ true → q < next }
    ensures value { (x : ShardState) → shard.now ≡ shown x → result ≡ is_good_after x.start next q x.closing }
{
    shard.start <= q
        && match shard.end {
            Some(end) => q <= end,
            None => q < next,
        }
}

/// Returns the sequence number of the first untrimmed record in the log that arrived at or after `moment`, or the
/// stream's next sequence number `next` if there is no such record. `cut` is the trim horizon.
fn first_since(log: &ShardLog, cut: Option<Moment>, moment: Moment, next: Seq) -> u64
    ensures { result ≡ first_at (left_among (floor_of cut) 0 log.now.kept) moment next }
{
    match log.at_time(cut, moment) {
        Some(seq) => seq.0,
        None => next.0,
    }
}

/// Returns the position at which the reading of a shard begins, as a sequence number. `from` selects TRIM_HORIZON
/// (position 0), LATEST, or a time. `next` is the stream's next sequence number. `log` is the shard's log, and `cut` is
/// the trim horizon.
pub fn origin_position(from: Origin, next: Seq, log: &ShardLog, cut: Option<Moment>) -> u64
    ensures { result ≡ position_from next (left_among (floor_of cut) 0 log.now.kept) (iterator_start from) }
{
    match from {
        Origin::TrimHorizon => 0,
        Origin::Latest => next.0,
        Origin::Time(moment) => first_since(log, cut, moment, next),
    }
}

/// Returns the position of a new shard iterator, as a sequence number. `from` has the type of the iterator
/// (ShardIteratorType), and the sequence number or time that belongs to this type, if any. Returns `None` if and only
/// if `from` has a sequence number and `is_good_at` or `is_good_after` rejects this number. `next` is the stream's next
/// sequence number. `log` is the shard's log, and `cut` is the trim horizon.
pub fn position(
    from: Start,
    next: Seq,
    shard: &Shard,
    log: &ShardLog,
    cut: Option<Moment>,
) -> Option<u64>
    requires { IsUnder next shard.now.end }
    ensures { (x : ShardState) → shard.now ≡ shown x
        → result ≡ (if is_good_start from next x then Some
        (position_from next (left_among (floor_of cut) 0 log.now.kept) from) else None) }
{
    let latest = next.0;
    match from {
        Start::At(q) => is_good_at(q, next, shard).then_some(q.0),
        Start::After(q) => {
            if is_good_after(q, next, shard) {
                Some(q.0 + 1)
            } else {
                None
            }
        }
        Start::TrimHorizon => Some(0),
        Start::Latest => Some(latest),
        Start::Time(moment) => Some(first_since(log, cut, moment, next)),
    }
}

/// Reads the log at `position`. Returns the batch of at most `limit` untrimmed records, and the position at which the
/// next read begins. `cut` is the trim horizon.
pub fn batch_at(
    log: &ShardLog,
    alloc: Global,
    cut: Option<Moment>,
    position: u64,
    limit: u32,
) -> Result<(Items<Stored>, u64), Memory>
    requires { IsBelow (2 ^ 64 - 1) (log_of log.now) }
    ensures batch { IfOk result (λ r. r.0 ≡ map stored (batch_among (floor_of cut) position limit log.now.kept)) }
    ensures numbers { IfOk result (λ r. AllByRecursion (λ x. x.seq < 2 ^ 64 - 1) r.0) }
    ensures reach { IfOk result
        (λ r. r.1 ≡ position_after position (numbers_of (batch_among (floor_of cut) position limit log.now.kept))) }
{
    let batch = log.batch(alloc, cut, position, limit)?;
    let reach = position_after(position, batch.as_slice());
    Ok((batch, reach))
}

/// Whether a reader has reached the end of the shard: the shard is closed, and no record is left to read.
pub fn is_end(shard: &Shard, none_left: bool) -> bool
    ensures { result ≡ (is_some shard.now.end && none_left) }
{
    shard.end.is_some() && none_left
}

/// Returns the lag of a reader in milliseconds (MillisBehindLatest): how long before `clock` the first unread record
/// arrived. `first_left` is the arrival time of this record. If it is `None`, no record is unread, and the lag is 0.
pub fn millis_behind(clock: Moment, first_left: Option<Moment>) -> u64
    ensures { result ≡ behind_by clock first_left }
{
    match first_left {
        Some(arrival) => clock.ms().saturating_sub(arrival.ms()),
        None => 0,
    }
}

/// Returns the number of the last shard in `shards`, or 0 if `shards` is empty. `shards` is a page of ListShards.
pub fn last_no(shards: &[Shard]) -> ShardNo
    ensures { result ≡ last_no shards.now }
{
    match shards.last() {
        Some(shard) => shard.no,
        None => ShardNo(0),
    }
}
