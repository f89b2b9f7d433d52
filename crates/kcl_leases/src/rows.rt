//! The commands that make, take, renew, free and remove rows of the lease table. A tenure is one worker's hold on a
//! lease. Each write of a row raises the row's counter. A tenure begins when the lease's row is taken, and ends when
//! the row is freed or taken again. A shard is listed until it has been closed for the retention period.
ghost use Rattle.std.specs.Prelude.{◌≡◌, ◌≤◌, ℕ, List, length, IfOk, OnErr};
ghost use Rattle.kds_defs.specs.declared.command.Command.TheVariants as command;
ghost use Rattle.kds_defs.specs.StreamCommands.{last_number};
ghost use Rattle.kcl_book.specs.Tenures.{TenureValue};
ghost use Rattle.kcl_table.specs.Rows.{row_of};
ghost use Rattle.kcl_leases.specs.Conditions.{start_answer, write_command};
ghost use Rattle.kcl_leases.specs.Standing.{AreBounded, LeadsOver};

use crate::actors::own_tenure;
use crate::origins::{effective_origin, floor_from, start_from};
use crate::shards::Shards;
use kcl_book::Book;
use kcl_table::{Change, Table};
use kds_base::{Checkpoint, Memory, ShardRef, TenureNo, WorkerNo};
use kds_defs::{Answer, Origin, Refusal, Reply};

/// Makes a row for the listed shard `key`. The function `effective_origin` decides the row's origin. The origin decides
/// the row's first checkpoint and the row's floor, which is the sequence number at which reading of the shard begins.
/// If memory runs out, no row is made.
pub fn make<L: Shards>(
    shards: &L,
    table: &mut Table,
    key: &ShardRef,
    from: Origin,
) -> Result<Answer, Memory>
    ensures leads { (actor : ℕ) (ts : List TenureValue)
        → IfOk result (LeadsOver (L.clock shards.now) (L.shows shards.now) table.old ts table.new ts actor
        (command.MakeLease key.now from)) }
    ensures kept { OnErr result (table.new ≡ table.old) }
{
    shards.lease_lines();
    let Some(shard) = shards.shard(*key) else {
        return Ok(Err(Refusal::ShardGone));
    };
    if !shards.is_listed(*key) {
        return Ok(Err(Refusal::ShardGone));
    }
    let counts = effective_origin(shards, table, key.stream, shard, from);
    // The origin is borrowed, so that it can be passed on more than once.
    let from = &counts;
    let floor = floor_from(shards, key, shard.start, *from);
    let start = start_from(*from, floor);
    match table.create(*key, floor, start, shard.parent, shard.adjacent)? {
        Ok(()) => Ok(Ok(Reply::Leased(*from))),
        Err(refusal) => Ok(Err(refusal)),
    }
}

/// Returns the checkpoint at which the new tenure begins if a worker takes the row of `key`. Refusals: `NoLease` if
/// there is no row, `Moved` if the row's counter isn't `counter`, `Ended` if the row's checkpoint is the shard's end,
/// `Spent` if the row's counter is the greatest `u64` or if `spent` says that no tenure number is left.
pub fn take_start(
    table: &Table,
    key: &ShardRef,
    counter: u64,
    spent: bool,
) -> Result<Checkpoint, Refusal>
    ensures { result ≡ start_answer (row_of table.now key.now) counter spent }
{
    let Some(row) = table.row(*key) else {
        return Err(Refusal::NoLease);
    };
    if row.counter != counter {
        return Err(Refusal::Moved(row.counter));
    }
    if matches!(row.checkpoint, Checkpoint::ShardEnd) {
        return Err(Refusal::Ended);
    }
    if row.counter == u64::MAX || spent {
        return Err(Refusal::Spent);
    }
    Ok(row.checkpoint)
}

/// Takes the row of `key` for the worker `owner`. The row's counter must be `counter`. A new tenure of the actor `by`
/// begins. If memory runs out, the rows and the tenures are unchanged.
pub fn take<L: Shards>(
    shards: &L,
    table: &mut Table,
    book: &mut Book,
    by: u32,
    key: &ShardRef,
    counter: u64,
    owner: WorkerNo,
) -> Result<Answer, Memory>
    requires bounded { AreBounded table.old }
    requires few { length book.old.tenures ≤ last_number }
    ensures leads { IfOk result
        (LeadsOver (L.clock shards.now) (L.shows shards.now) table.old book.old.tenures table.new book.new.tenures
        by (command.Take key.now counter owner)) }
    ensures kept { OnErr result ((table.new ≡ table.old) × (book.new.tenures ≡ book.old.tenures)) }
{
    shards.lease_lines();
    let start = match take_start(table, key, counter, book.spent()) {
        Ok(start) => start,
        Err(refusal) => return Ok(Err(refusal)),
    };
    // The checkpoint is borrowed, so that it can be passed on more than once.
    let from = &start;
    book.reserve()?;
    let tenure = book.begin(by, *key, *from);
    match table.take(*key, counter, owner, tenure) {
        Ok(counter) => Ok(Ok(Reply::Taken {
            tenure,
            counter,
            start: *from,
        })),
        Err(_) => unreachable!(),
    }
}

/// Renews or frees the row that the tenure `tenure` holds, as `change` says. The row's counter must be `counter`.
fn write<L: Shards>(
    shards: &L,
    table: &mut Table,
    book: &Book,
    by: u32,
    tenure: TenureNo,
    counter: u64,
    change: Change,
) -> Answer
    ensures { LeadsOver (L.clock shards.now) (L.shows shards.now) table.old book.now.tenures table.new book.now.tenures
        by (write_command change tenure counter) result }
{
    shards.lease_lines();
    let own = own_tenure(book, by, tenure)?;
    let next = table.write(own.key, tenure, counter, change)?;
    Ok(Reply::Counter(next))
}

/// Renews the row that the tenure `tenure` holds. The row's counter must be `counter`.
pub fn renew<L: Shards>(
    shards: &L,
    table: &mut Table,
    book: &Book,
    by: u32,
    tenure: TenureNo,
    counter: u64,
) -> Answer
    ensures { LeadsOver (L.clock shards.now) (L.shows shards.now) table.old book.now.tenures table.new book.now.tenures
        by (command.Renew tenure counter) result }
{
    write(shards, table, book, by, tenure, counter, Change::Renewed)
}

/// Frees the row that the tenure `tenure` holds. The row's counter must be `counter`.
pub fn free<L: Shards>(
    shards: &L,
    table: &mut Table,
    book: &Book,
    by: u32,
    tenure: TenureNo,
    counter: u64,
) -> Answer
    ensures { LeadsOver (L.clock shards.now) (L.shows shards.now) table.old book.now.tenures table.new book.now.tenures
        by (command.Free tenure counter) result }
{
    write(shards, table, book, by, tenure, counter, Change::Freed)
}

/// Removes the row of the shard `key`. The shard must not be listed, and the row's counter must be `counter`.
pub fn cut<L: Shards>(shards: &L, table: &mut Table, key: &ShardRef, counter: u64) -> Answer
    ensures { (actor : ℕ) (ts : List TenureValue)
        → LeadsOver (L.clock shards.now) (L.shows shards.now) table.old ts table.new ts actor
        (command.CutLease key.now counter) result }
{
    shards.lease_lines();
    let listed = shards.is_listed(*key);
    table.cut(*key, counter, listed)?;
    Ok(Reply::Done)
}
