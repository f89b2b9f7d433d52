//! The records of one shard in the judge's model of the streams. The judge checks the entries of a journal, which is an
//! event log. Beside the records stands what makes the judge's questions cheap: where the latest second begins, and
//! whether the records arrived in the order in which they were put. Neither is a condition on the journal. If records
//! arrived in another order, the answers are the same, and take longer.
ghost use Rattle.std.specs.Prelude.{ℕ, ◌≡◌, ◌∷◌, ◌++◌, [], OnErr, OnOk, true};
ghost use Rattle.std.specs.List.Sorted.{IsNonDecreasingBy};
ghost use Rattle.kds_defs.specs.Rates.{is_throttled};
ghost use Rattle.kds_defs.specs.Records.{first_at, left_among};
ghost use Rattle.kcl_audit_streams.specs.Standing.{puts_in, records_in};
ghost use Rattle.kcl_audit_streams.specs.declared.records.Sized.{Sized};

use crate::records::{Sized, from_arrival, from_left, from_position, is_throttled_by};
use kds_base::{Memory, Moment, ShardNo};
use kds_defs::limits::SECOND;
use std::alloc::Global;
use std::marker::Model;

/// The records of a shard, in the order in which they were put.
#[derive(Drop)]
pub struct ShardRecords {
    items: Vec<Sized>,
    /// The latest second of the clock in which a record arrived, in seconds, or 0 if there is no record.
    second: u64,
    /// How many records there were when the first record of this second arrived. These arrived in earlier seconds.
    start: usize,
    /// Whether no record arrived before one that was put earlier.
    rising: bool,
}

impl Model for ShardRecords {
    ghost use Rattle.std.specs.Prelude.{List};
    ghost use Rattle.kcl_audit_streams.specs.declared.records.Sized.{Sized};
    ghost use Rattle.kcl_audit_streams.specs.Seconds.{AreTimed};

    ghost Value = { List Sized };

    ghost invariant = { λ s. AreTimed s.second s.start s.rising s.items.items };

    ghost view = { λ s. s.items.items };
}

/// Whether the records are sorted by arrival time with a further record that arrived at the moment `arrival`. `rising`
/// says whether `records` are sorted by arrival time.
fn stays_rising(records: &[Sized], rising: bool, arrival: Moment) -> bool
    ensures { (item : Sized) → item.arrival ≡ arrival → (rising ≡ true → IsNonDecreasingBy (λ r. r.arrival) records.now)
        → result ≡ true → IsNonDecreasingBy (λ r. r.arrival) (records.now ++ item ∷ []) }
{
    if !rising {
        return false;
    }
    match records.last() {
        Some(last) => last.arrival <= arrival,
        None => true,
    }
}

impl ShardRecords {
    /// Returns the list without records.
    pub fn new(alloc: Global) -> ShardRecords
        ensures { result ≡ [] }
    {
        ShardRecords {
            items: Vec::new(alloc),
            second: 0,
            start: 0,
            rising: true,
        }
    }

    /// Returns the records in order.
    pub fn as_slice(&self) -> &[Sized]
        ensures { result.now ≡ self.now }
    {
        self.items.as_slice()
    }

    /// Adds `item` at the end. If memory runs out, the records are unchanged.
    pub fn push(&mut self, item: Sized) -> Result<(), Memory>
        ensures ok { OnOk result (self.new ≡ self.old ++ item ∷ []) }
        ensures err { OnErr result (self.new ≡ self.old) }
    {
        let count = self.items.len();
        let second = item.arrival.ms() / SECOND;
        let rising = stays_rising(&self.items, self.rising, item.arrival);
        self.items.push(item)?;
        self.rising = rising;
        if second > self.second {
            self.second = second;
            self.start = count;
        }
        Ok(())
    }

    /// Returns a tail of the records that has all of them whose sequence number is at least `position` and that arrived
    /// at the moment `floor` or later. Precondition: the records are sorted by sequence number.
    pub fn ahead(&self, floor: u64, position: u64) -> &[Sized]
        requires { IsNonDecreasingBy (λ r. r.seq) self.now }
        ensures { (shard : ℕ) → left_among floor position (records_in result.now shard)
            ≡ left_among floor position (records_in self.now shard) }
    {
        if self.rising {
            from_left(&self.items, floor, position)
        } else {
            from_position(&self.items, position)
        }
    }

    /// Returns the records, or a tail of them, in which the shard's first record that arrived at or after both `floor`
    /// and `moment` is the same.
    pub fn since(&self, floor: u64, moment: Moment) -> &[Sized]
        ensures { (shard otherwise : ℕ)
            → first_at (left_among floor 0 (records_in result.now shard)) moment otherwise
            ≡ first_at (left_among floor 0 (records_in self.now shard)) moment otherwise }
    {
        if self.rising {
            from_arrival(&self.items, floor.max(moment.ms()))
        } else {
            self.items.as_slice()
        }
    }

    /// Whether the throughput limits prevent `shard` from accepting a record of `bytes` bytes (payload and partition
    /// key together) at the time `clock` (Kinesis API Reference, ProvisionedThroughputExceededException).
    pub fn is_throttled(&self, shard: ShardNo, clock: Moment, bytes: u64) -> bool
        ensures { result ≡ is_throttled (puts_in self.now shard) clock bytes }
    {
        if clock.ms() / SECOND < self.second {
            return is_throttled_by(&self.items, shard, clock, bytes);
        }
        is_throttled_by(&self.items[self.start..], shard, clock, bytes)
    }
}
