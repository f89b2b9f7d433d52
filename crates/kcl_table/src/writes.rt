//! The conditions under which a row of the lease table may be written, and the row after each write. Each write raises
//! the row's counter. A tenure is one worker's hold on a lease.
ghost use Rattle.std.specs.Prelude.{◌≡◌, ◌≢◌, ◌<◌, ◌≤◌, ◌-◌, ◌^◌, ℕ, Some, IfErr, IfOk, Result, Err};
ghost use Rattle.kds_defs.specs.declared.reply.Refusal.{Refusal};
ghost use Rattle.kds_defs.specs.RowWrites.{least};
ghost use Rattle.kds_defs.specs.Leases.{checkpoint_at, marked_row, taken_row};
ghost use Rattle.kcl_table.specs.Rows.{AreInOrder, row_of};
ghost use Rattle.kcl_table.specs.Writes.{next_counter, held_answer, take_answer, target_answer, written_row};

use crate::search::row_of;
use kds_base::{Checkpoint, Seq, ShardRef, TenureNo, WorkerNo};
use kds_defs::{Refusal, Row, Target};

/// A change that a tenure makes to the row that it holds. A row that is freed has no owner and no tenure afterwards.
#[derive(Clone, Copy, Debug, PartialEq, Eq)]
pub enum Change {
    Renewed,
    Freed,
}

/// Returns the counter that a row has after its next write. The refusal is `Spent` if the present counter, `counter`,
/// is the greatest `u64`.
fn next_counter(counter: u64) -> Result<u64, Refusal>
    ensures { result ≡ next_counter counter }
{
    if counter == u64::MAX {
        return Err(Refusal::Spent);
    }
    Ok(counter + 1)
}

/// Returns the counter that the row has after a worker takes it. The refusals `Moved`, `Ended` and `Spent` are as in
/// `Table::take`.
pub fn take_counter(row: &Row, counter: u64) -> Result<u64, Refusal>
    ensures { result ≡ take_answer (Some row.now) counter }
{
    if row.counter != counter {
        return Err(Refusal::Moved(row.counter));
    }
    if row.checkpoint.is_end() {
        return Err(Refusal::Ended);
    }
    next_counter(row.counter)
}

/// Returns the row of `key` if the tenure `tenure` holds the row and the row's counter is `counter`. The refusals
/// `Lost` and `Moved` are as in `Table::write`.
pub fn held_row(
    rows: &[Row],
    key: &ShardRef,
    tenure: TenureNo,
    counter: u64,
) -> Result<Row, Refusal>
    requires order { AreInOrder rows.now }
    requires some { tenure ≢ 0 }
    ensures same { (next : Result ℕ Refusal)
        → IfErr result (λ r. held_answer (row_of rows.now key.now) tenure counter next ≡ Err r) }
    ensures held { (next : Result ℕ Refusal)
        → IfOk result (λ r. held_answer (row_of rows.now key.now) tenure counter next ≡ next) }
    ensures row { IfOk result (λ r. row_of rows.now key.now ≡ Some r) }
{
    let Some(row) = row_of(rows, key) else {
        return Err(Refusal::Lost(TenureNo(0)));
    };
    if row.tenure != tenure {
        return Err(Refusal::Lost(row.tenure));
    }
    if row.counter != counter {
        return Err(Refusal::Moved(row.counter));
    }
    Ok(*row)
}

/// Returns the counter that the row has after it is renewed or freed. The refusal `Spent` is as in `Table::write`.
pub fn write_counter(row: &Row) -> Result<u64, Refusal>
    ensures { result ≡ next_counter row.now.counter }
{
    next_counter(row.counter)
}

/// Returns the least sequence number to which the row's checkpoint may be set. It is the present checkpoint if this
/// checkpoint is a sequence number. Otherwise it is the row's floor, at which the row's records begin.
fn least(row: &Row) -> Seq
    ensures { result ≡ least row.now.checkpoint row.now.floor }
{
    match row.checkpoint {
        Checkpoint::At(q) => q,
        _ => row.floor,
    }
}

/// Returns the counter that the row has after its checkpoint is set to the target `to`. The refusals `Ended`, `Beyond`,
/// `Below`, `NotAtEnd` and `Spent` are as in `Table::mark`.
pub fn target_counter(row: &Row, to: &Target, delivered: u64, at_end: bool) -> Result<u64, Refusal>
    ensures { result ≡ target_answer (Some row.now) to.now delivered at_end }
{
    match to {
        Target::At(q) => {
            let q = *q;
            if row.checkpoint.is_end() {
                return Err(Refusal::Ended);
            }
            if delivered <= q.0 {
                return Err(Refusal::Beyond(delivered));
            }
            let lowest = least(row);
            if q < lowest {
                return Err(Refusal::Below(lowest));
            }
        }
        Target::End => {
            if !at_end {
                return Err(Refusal::NotAtEnd);
            }
        }
    }
    next_counter(row.counter)
}

/// Returns the row as it is after the worker `owner` takes it and the tenure `tenure` begins.
pub fn taken(row: &Row, tenure: TenureNo, owner: WorkerNo) -> Row
    requires counter { row.now.counter < 2 ^ 64 - 1 }
    requires switches { row.now.switches ≤ row.now.counter }
    ensures { result ≡ taken_row tenure owner row.now }
{
    let moved = match row.owner {
        Some(before) => before != owner,
        None => false,
    };
    Row {
        owner: Some(owner),
        counter: row.counter + 1,
        switches: if moved {
            row.switches + 1
        } else {
            row.switches
        },
        tenure,
        ..*row
    }
}

/// Returns the row as it is after it is renewed or freed.
pub fn written(row: &Row, change: Change) -> Row
    requires { row.now.counter < 2 ^ 64 - 1 }
    ensures { result ≡ written_row change row.now }
{
    match change {
        Change::Renewed => Row {
            counter: row.counter + 1,
            ..*row
        },
        Change::Freed => Row {
            owner: None,
            counter: row.counter + 1,
            tenure: TenureNo(0),
            ..*row
        },
    }
}

/// Returns the checkpoint that a row has after this checkpoint is set to the target `to`.
fn checkpoint_at(to: &Target) -> Checkpoint
    ensures { result ≡ checkpoint_at to.now }
{
    match to {
        Target::At(q) => Checkpoint::At(*q),
        Target::End => Checkpoint::ShardEnd,
    }
}

/// Returns the row as it is after its checkpoint is set to the target `to`.
pub fn marked(row: &Row, to: &Target) -> Row
    requires { row.now.counter < 2 ^ 64 - 1 }
    ensures { result ≡ marked_row to.now row.now }
{
    Row {
        counter: row.counter + 1,
        checkpoint: checkpoint_at(to),
        switches: 0,
        ..*row
    }
}
