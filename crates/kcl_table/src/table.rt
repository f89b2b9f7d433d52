//! The lease table. Each row is the lease of one shard, and each write of a row raises the row's counter. A tenure is
//! one worker's hold on a lease, from the moment the lease is taken until it is freed or taken again.
ghost use Rattle.std.specs.Prelude.{◌≡◌, ◌≢◌, ◌≤◌, [], is_some, if◌then◌else◌, None, Err, Ok, IfOk, OnErr, OnOk};
ghost use Rattle.std.specs.Option.{option_map};
ghost use Rattle.kds_defs.specs.declared.reply.Refusal.TheVariants as refusal;
ghost use Rattle.kds_defs.specs.Leases.{marked_row, new_row, taken_row};
ghost use Rattle.kcl_table.specs.Rows.{changed, row_of, with_row, without_row};
ghost use Rattle.kcl_table.specs.Writes.{cut_answer, mark_answer, write_answer, take_answer, written_row};

use crate::search::{insertion_index, row_of};
use crate::writes::{
    Change, held_row, marked, take_counter, taken, target_counter, write_counter, written,
};
use kds_base::{Checkpoint, Items, Memory, Seq, ShardNo, ShardRef, TenureNo, WorkerNo};
use kds_defs::{Refusal, Row, Target};
use std::alloc::Global;
use std::marker::Model;

/// The lease table (Kinesis Client Library, lease table). In contracts, a table is the list of its rows in the order of
/// their keys.
#[derive(Drop)]
pub struct Table {
    rows: Vec<Row>,
}

impl Model for Table {
    ghost use Rattle.std.specs.Prelude.{List};
    ghost use Rattle.kds_defs.specs.declared.reply.Row.{Row};
    ghost use Rattle.kcl_table.specs.Rows.{IsTable};

    ghost Value = { List Row };

    ghost view = { λ t. t.rows.items };

    ghost invariant = { λ t. IsTable t.rows.items };
}

impl Table {
    /// Returns a table without rows.
    pub fn new(alloc: Global) -> Table
        ensures { result ≡ [] }
    {
        Table {
            rows: Vec::new(alloc),
        }
    }

    /// Returns the row with the key `key`, or `None` if and only if there is no such row.
    pub fn row(&self, key: ShardRef) -> Option<&Row>
        ensures { option_map (λ r. r.now) result ≡ row_of self.now key }
    {
        row_of(&self.rows, &key)
    }

    /// Returns a list of all rows, in the order of their keys. The error means that memory ran out.
    pub fn rows(&self) -> Result<Items<Row>, Memory>
        ensures { IfOk result (λ rows. rows ≡ self.now) }
    {
        let mut rows = Items::new(*self.rows.allocator());
        for row in &self.rows {
            rows.push(*row)?;
        }
        Ok(rows)
    }

    /// Replaces the row that has the same key as `row` with `row`. The table must have a row with this key.
    fn put(&mut self, row: Row)
        requires there { (row_of self.old row.key ≡ None) → ⊥ }
        requires counted { row.switches ≤ row.counter }
        ensures { self.new ≡ changed (λ _. row) row.key self.old }
    {
        let index = insertion_index(&self.rows, &row.key);
        self.rows[index] = row;
    }

    /// Adds a row for the shard `key`, without an owner. `floor` is the sequence number at which the row's records
    /// begin. `start` is the row's first checkpoint, at which the row's first tenure begins (Kinesis Client Library,
    /// lease, initial position in stream). The refusal is `LeaseThere` if and only if the shard already has a row. If
    /// memory runs out, the error is `Memory`, and no row is added.
    pub fn create(
        &mut self,
        key: ShardRef,
        floor: Seq,
        start: Checkpoint,
        parent: Option<ShardNo>,
        adjacent: Option<ShardNo>,
    ) -> Result<Result<(), Refusal>, Memory>
        ensures value { IfOk result
            (λ a. a ≡ (if is_some (row_of self.old key) then Err refusal.LeaseThere else Ok tt)) }
        ensures made { IfOk result
            (λ a. OnOk a (self.new ≡ with_row (new_row key floor start parent adjacent) self.old)) }
        ensures same { IfOk result (λ a. OnErr a (self.new ≡ self.old)) }
        ensures kept { OnErr result (self.new ≡ self.old) }
    {
        let None = row_of(&self.rows, &key) else {
            return Ok(Err(Refusal::LeaseThere));
        };
        let index = insertion_index(&self.rows, &key);
        self.rows
            .insert(index, first(key, floor, start, parent, adjacent))?;
        Ok(Ok(()))
    }

    /// Takes the row of `key` for the worker `owner`, so that the new tenure `tenure` holds the row. Returns the row's
    /// new counter. Refusals: `NoLease` if there is no row, `Moved` if the row's counter isn't `counter`, `Ended` if
    /// the row's checkpoint is the shard's end, `Spent` if the row's counter is the greatest `u64`.
    pub fn take(
        &mut self,
        key: ShardRef,
        counter: u64,
        owner: WorkerNo,
        tenure: TenureNo,
    ) -> Result<u64, Refusal>
        requires { tenure ≢ 0 }
        ensures value { result ≡ take_answer (row_of self.old key) counter }
        ensures taken { OnOk result (self.new ≡ changed (taken_row tenure owner) key self.old) }
        ensures same { OnErr result (self.new ≡ self.old) }
    {
        let Some(row) = row_of(&self.rows, &key) else {
            return Err(Refusal::NoLease);
        };
        let row = *row;
        let next = take_counter(&row, counter)?;
        self.put(taken(&row, tenure, owner));
        Ok(next)
    }

    /// Renews or frees the row that the tenure `tenure` holds, as `change` says. Returns the row's new counter.
    /// Refusals: `Lost` if the tenure doesn't hold the row of `key`, `Moved` if the row's counter isn't `counter`,
    /// `Spent` if the row's counter is the greatest `u64`.
    pub fn write(
        &mut self,
        key: ShardRef,
        tenure: TenureNo,
        counter: u64,
        change: Change,
    ) -> Result<u64, Refusal>
        requires { tenure ≢ 0 }
        ensures value { result ≡ write_answer (row_of self.old key) tenure counter }
        ensures written { OnOk result (self.new ≡ changed (written_row change) key self.old) }
        ensures same { OnErr result (self.new ≡ self.old) }
    {
        let row = held_row(&self.rows, &key, tenure, counter)?;
        let next = write_counter(&row)?;
        self.put(written(&row, change));
        Ok(next)
    }

    /// Sets the checkpoint of the row that the tenure `tenure` holds to the target `to` (Kinesis Client Library,
    /// checkpoint). Returns the row's new counter. `delivered` is the position up to which the tenure's processor has
    /// processed records, and `at_end` says whether the processor has processed the shard to the end. The refusals
    /// `Lost` and `Moved` are as in `write`. If the target is a sequence number, there are three further refusals:
    /// `Ended` (the row's checkpoint is already the shard's end), `Beyond` (the number isn't below `delivered`), and
    /// `Below` (the number is less than the least number to which the checkpoint may be set). If the target is the
    /// shard's end, there is one further refusal: `NotAtEnd` (`at_end` is false). After these checks, the refusal is
    /// `Spent` if the row's counter is the greatest `u64`.
    pub fn mark(
        &mut self,
        key: ShardRef,
        tenure: TenureNo,
        counter: u64,
        to: Target,
        delivered: u64,
        at_end: bool,
    ) -> Result<u64, Refusal>
        requires { tenure ≢ 0 }
        ensures value { result ≡ mark_answer (row_of self.old key) tenure counter to delivered at_end }
        ensures marked { OnOk result (self.new ≡ changed (marked_row to) key self.old) }
        ensures same { OnErr result (self.new ≡ self.old) }
    {
        let row = held_row(&self.rows, &key, tenure, counter)?;
        let next = target_counter(&row, &to, delivered, at_end)?;
        self.put(marked(&row, &to));
        Ok(next)
    }

    /// Removes the row of `key`. Refusals: `NoLease` if there is no row, `Moved` if the row's counter isn't `counter`,
    /// `ShardListed` if `listed` says that ListShards still returns the shard.
    pub fn cut(&mut self, key: ShardRef, counter: u64, listed: bool) -> Result<(), Refusal>
        ensures value { result ≡ cut_answer (row_of self.old key) counter listed }
        ensures cut { OnOk result (self.new ≡ without_row key self.old) }
        ensures same { OnErr result (self.new ≡ self.old) }
    {
        let Some(row) = row_of(&self.rows, &key) else {
            return Err(Refusal::NoLease);
        };
        if row.counter != counter {
            return Err(Refusal::Moved(row.counter));
        }
        if listed {
            return Err(Refusal::ShardListed);
        }
        let index = insertion_index(&self.rows, &key);
        self.rows.remove(index);
        Ok(())
    }
}

/// Returns a new row for the shard `key`, without an owner and with the counter 0.
fn first(
    key: ShardRef,
    floor: Seq,
    start: Checkpoint,
    parent: Option<ShardNo>,
    adjacent: Option<ShardNo>,
) -> Row
    ensures { result ≡ new_row key floor start parent adjacent }
{
    Row {
        key,
        owner: None,
        counter: 0,
        checkpoint: start,
        switches: 0,
        tenure: TenureNo(0),
        floor,
        parent,
        adjacent,
    }
}
