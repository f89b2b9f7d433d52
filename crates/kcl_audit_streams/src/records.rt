//! What the judge asks of a list of records: the batch of a read, the first record since a moment, and whether the
//! throughput limits leave room for a further record. The judge checks the entries of a journal, which is an event log.
//! A record is trimmed once its retention period is over.
ghost use Rattle.std.specs.Prelude.{ℕ, ◌≡◌, ◌==◌, ◌&&◌, max, IfOk};
ghost use Rattle.std.specs.List.Sorted.{IsNonDecreasingBy};
ghost use Rattle.kds_defs.specs.Rates.{is_same_second, is_throttled, is_too_much};
ghost use Rattle.kds_defs.specs.declared.limits.TheConstants.{BATCH_BYTES};
ghost use Rattle.kds_defs.specs.Listings.{are_none};
ghost use Rattle.kds_defs.specs.Records.{beginning, first_at, is_left, left_among, numbers_of};
ghost use Rattle.kcl_audit_streams.specs.Standing.{logged, puts_in, records_in};

use kds_base::{Items, Memory, Moment, Seq, ShardNo};
use kds_defs::limits::{BATCH_BYTES, SECOND, SECOND_BYTES, SECOND_RECORDS};
use std::alloc::Global;

/// What the model keeps of a record: its shard, its sequence number, its arrival time, and the size of its payload and
/// partition key together, in bytes.
#[derive(Clone, Copy, Debug, PartialEq, Eq)]
pub struct Sized {
    pub shard: ShardNo,
    pub seq: Seq,
    pub arrival: Moment,
    pub bytes: u64,
}

/// Whether a read of `shard` at `position` can return the record: the record belongs to the shard, isn't trimmed, and
/// has a sequence number of at least `position`. Records that arrived before the moment `floor` are trimmed.
fn is_left(item: &Sized, shard: ShardNo, floor: u64, position: u64) -> bool
    ensures { result ≡ (item.now.shard == shard && is_left floor position (logged item.now)) }
{
    item.shard == shard && item.arrival.ms() >= floor && item.seq.0 >= position
}

/// Returns the tail of `records` that begins with the first record whose sequence number is at least `position`.
/// Precondition: `records` is sorted by sequence number.
pub fn from_position(records: &[Sized], position: u64) -> &[Sized]
    requires { IsNonDecreasingBy (λ r. r.seq) records.now }
    ensures { (shard floor : ℕ) → left_among floor position (records_in result.now shard)
        ≡ left_among floor position (records_in records.now shard) }
{
    let start = records.partition_point(|item| item.seq.0 < position);
    &records[start..]
}

/// Returns the tail of `records` that begins with the first record whose sequence number is at least `position` and
/// that arrived at the moment `floor` or later. Precondition: `records` is sorted by sequence number and by arrival
/// time.
pub fn from_left(records: &[Sized], floor: u64, position: u64) -> &[Sized]
    requires seqs { IsNonDecreasingBy (λ r. r.seq) records.now }
    requires arrivals { IsNonDecreasingBy (λ r. r.arrival) records.now }
    ensures { (shard : ℕ) → left_among floor position (records_in result.now shard)
        ≡ left_among floor position (records_in records.now shard) }
{
    let below = records.partition_point(|item| item.seq.0 < position);
    let before = records.partition_point(|item| item.arrival.ms() < floor);
    if below < before {
        &records[before..]
    } else {
        &records[below..]
    }
}

/// Returns the tail of `records` that begins with the first record that arrived at the moment `least` or later.
/// Precondition: `records` is sorted by arrival time.
pub fn from_arrival(records: &[Sized], least: u64) -> &[Sized]
    requires { IsNonDecreasingBy (λ r. r.arrival) records.now }
    ensures { (shard floor moment otherwise : ℕ) → max floor moment ≡ least
        → first_at (left_among floor 0 (records_in result.now shard)) moment otherwise
        ≡ first_at (left_among floor 0 (records_in records.now shard)) moment otherwise }
{
    let start = records.partition_point(|item| item.arrival.ms() < least);
    &records[start..]
}

/// Returns the sequence numbers of the batch that a read of `shard` at `position` returns (Kinesis API Reference,
/// GetRecords). The batch contains the shard's first untrimmed records from `position` on, at most `limit` records and
/// `BATCH_BYTES` bytes. Records that arrived before the moment `floor` are trimmed.
pub fn batch(
    alloc: Global,
    records: &[Sized],
    shard: ShardNo,
    floor: u64,
    position: u64,
    limit: u32,
) -> Result<Items<Seq>, Memory>
    ensures { IfOk result
        (λ ns. ns ≡ numbers_of
        (beginning limit BATCH_BYTES (left_among floor position (records_in records.now shard)))) }
{
    let mut numbers = Items::new(alloc);
    let mut left = limit;
    let mut room = BATCH_BYTES;
    for item in records {
        if !is_left(item, shard, floor, position) {
            continue;
        }
        if left == 0 || item.bytes > room {
            return Ok(numbers);
        }
        numbers.push(item.seq)?;
        left -= 1;
        room -= item.bytes;
    }
    Ok(numbers)
}

/// Whether `shard` has no untrimmed record whose sequence number is at least `position`. Records that arrived before
/// the moment `floor` are trimmed.
pub fn none_left(records: &[Sized], shard: ShardNo, floor: u64, position: u64) -> bool
    ensures { result ≡ are_none (left_among floor position (records_in records.now shard)) }
{
    for item in records {
        if is_left(item, shard, floor, position) {
            return false;
        }
    }
    true
}

/// Returns the sequence number of the shard's first untrimmed record that arrived at or after `moment` (Kinesis API
/// Reference, GetShardIterator, AT_TIMESTAMP). If there is no such record, returns the value `otherwise`. Records that
/// arrived before the moment `floor` are trimmed.
pub fn first_since(
    records: &[Sized],
    shard: ShardNo,
    floor: u64,
    moment: Moment,
    otherwise: u64,
) -> u64
    ensures { result ≡ first_at (left_among floor 0 (records_in records.now shard)) moment otherwise }
{
    for item in records {
        if is_left(item, shard, floor, 0) && item.arrival >= moment {
            return item.seq.0;
        }
    }
    otherwise
}

/// Whether both moments lie in the same second of the clock.
fn is_same_second(one: Moment, other: Moment) -> bool
    ensures { result ≡ is_same_second one other }
{
    one.ms() / SECOND == other.ms() / SECOND
}

/// Whether another record of `bytes` bytes would exceed the limits on what a shard accepts in one second. `records` and
/// `held` are the numbers of records and bytes that the shard has already accepted in this second. The first record of
/// a second never exceeds the limits.
fn is_too_much(records: u64, held: u64, bytes: u64) -> bool
    ensures { result ≡ is_too_much records held bytes }
{
    records >= SECOND_RECORDS || (records > 0 && held.saturating_add(bytes) > SECOND_BYTES)
}

/// Whether the throughput limits prevent `shard` from accepting a record of `bytes` bytes (payload and partition key
/// together) at the time `clock`, by these records alone.
pub fn is_throttled_by(records: &[Sized], shard: ShardNo, clock: Moment, bytes: u64) -> bool
    ensures { result ≡ is_throttled (puts_in records.now shard) clock bytes }
{
    let mut count = 0;
    let mut held: u64 = 0;
    for item in records {
        if item.shard == shard && is_same_second(item.arrival, clock) {
            count += 1;
            held = held.saturating_add(item.bytes);
        }
    }
    is_too_much(count, held, bytes)
}
