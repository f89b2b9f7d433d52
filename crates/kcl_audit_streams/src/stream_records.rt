//! The records of a stream in the judge's model of the streams, kept for each shard apart. So what the judge asks of a
//! shard doesn't go over the records of the other shards (decision 66).
ghost use Rattle.std.specs.Prelude.{ℕ, ◌≡◌, ◌∷◌, ◌++◌, ◌<◌, [], length, slice_get, OnErr, OnOk};
ghost use Rattle.std.specs.List.{filter};
ghost use Rattle.std.specs.Option.{option_map};
ghost use Rattle.std.specs.List.Sorted.{IsNonDecreasingBy};
ghost use Rattle.kds_defs.specs.Rates.{is_throttled};
ghost use Rattle.kds_defs.specs.Records.{first_at, left_among};
ghost use Rattle.kcl_audit_streams.specs.Apart.{records_at};
ghost use Rattle.kcl_audit_streams.specs.Standing.{is_in, puts_in, records_in};

use crate::puts::Puts;
use crate::records::Sized;
use crate::shard_records::ShardRecords;
use kds_base::{Memory, Moment, ShardNo};
use std::alloc::Global;
use std::marker::Model;

/// The records of a stream. In contracts, the value is the list of the records in the order in which they were put.
#[derive(Drop)]
pub struct Records {
    /// The records of each shard. The records of shard n have the index n. The list ends with the last shard that ever
    /// got a record.
    shards: Vec<ShardRecords>,
    all: Puts,
}

impl Model for Records {
    ghost use Rattle.std.specs.Prelude.{List};
    ghost use Rattle.kcl_audit_streams.specs.declared.records.Sized.{Sized};
    ghost use Rattle.kcl_audit_streams.specs.Apart.{AreApart};

    ghost Value = { List Sized };

    ghost invariant = { λ s. AreApart s.shards.items s.all.items };

    ghost view = { λ s. s.all.items };
}

/// Returns the records of `shard`, or `None` if neither the shard nor one behind it ever got one.
fn records_of(shards: &[ShardRecords], shard: ShardNo) -> Option<&ShardRecords>
    ensures { option_map (λ r. r.now) result ≡ slice_get shards.now shard }
{
    shards.get(shard.0 as usize)
}

/// Adds shards without records at the end of `shards`, until it has the index of `shard`. If memory runs out, some of
/// these shards may be missing.
fn make_room(alloc: Global, shards: &mut Vec<ShardRecords>, shard: ShardNo) -> Result<(), Memory>
    ensures same { (sh : ℕ) → records_at shards.new.items sh ≡ records_at shards.old.items sh }
    ensures there { OnOk result (shard < length shards.new.items) }
{
    while shards.len() as u64 <= shard.0 {
        shards.push(ShardRecords::new(alloc))?;
    }
    Ok(())
}

impl Records {
    /// Returns the list without records.
    pub fn new(alloc: Global) -> Records
        ensures { result ≡ [] }
    {
        Records {
            shards: Vec::new(alloc),
            all: Puts::new(),
        }
    }

    /// Adds `item` at the end. If memory runs out, the records are unchanged.
    pub fn push(&mut self, item: Sized) -> Result<(), Memory>
        ensures ok { OnOk result (self.new ≡ self.old ++ item ∷ []) }
        ensures err { OnErr result (self.new ≡ self.old) }
    {
        make_room(*self.shards.allocator(), &mut self.shards, item.shard)?;
        self.shards[item.shard.0 as usize].push(item)?;
        self.all = self.all.then(&item);
        Ok(())
    }

    /// Returns a tail of the records of `shard` that has all of them whose sequence number is at least `position` and
    /// that arrived at the moment `floor` or later. Precondition: the stream's records are sorted by sequence number.
    pub fn ahead(&self, shard: ShardNo, floor: u64, position: u64) -> &[Sized]
        requires { IsNonDecreasingBy (λ r. r.seq) self.now }
        ensures { left_among floor position (records_in result.now shard)
            ≡ left_among floor position (records_in self.now shard) }
    {
        match records_of(&self.shards, shard) {
            Some(records) => records.ahead(floor, position),
            None => &[],
        }
    }

    /// Returns records of `shard` in which the first one that arrived at or after both `floor` and `moment` is the
    /// first one of the shard.
    pub fn since(&self, shard: ShardNo, floor: u64, moment: Moment) -> &[Sized]
        ensures { (otherwise : ℕ) → first_at (left_among floor 0 (records_in result.now shard)) moment otherwise
            ≡ first_at (left_among floor 0 (records_in self.now shard)) moment otherwise }
    {
        match records_of(&self.shards, shard) {
            Some(records) => records.since(floor, moment),
            None => &[],
        }
    }

    /// Whether the throughput limits prevent `shard` from accepting a record of `bytes` bytes (payload and partition
    /// key together) at the time `clock` (Kinesis API Reference, ProvisionedThroughputExceededException).
    pub fn is_throttled(&self, shard: ShardNo, clock: Moment, bytes: u64) -> bool
        ensures { result ≡ is_throttled (puts_in self.now shard) clock bytes }
    {
        match records_of(&self.shards, shard) {
            Some(records) => records.is_throttled(shard, clock, bytes),
            None => false,
        }
    }
}
