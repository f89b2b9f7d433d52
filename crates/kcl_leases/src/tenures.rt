//! The commands that open a tenure, count its reads as delivered, and set the checkpoint of its row in the lease table.
//! A tenure is one worker's hold on a lease. A read counts as delivered once the record processor has processed the
//! read's batch. Until then, the read is pending.
ghost use Rattle.std.specs.Prelude.{◌≡◌, ℕ, List, IfOk, OnErr};
ghost use Rattle.kds_defs.specs.declared.command.Command.TheVariants as command;
ghost use Rattle.kds_defs.specs.declared.reply.Row.{Row};
ghost use Rattle.kds_defs.specs.Journal.{Journal};
ghost use Rattle.kcl_leases.specs.Standing.{LeadsOver};

use crate::actors::{holding_tenure, own_tenure, past_parent};
use crate::shards::Shards;
use kcl_book::Book;
use kcl_table::Table;
use kds_base::{Memory, TenureNo};
use kds_defs::{Answer, Refusal, Reply, Target};

/// Opens the tenure `tenure`, which may read its shard from then on. Each parent of the shard must have been processed
/// to its end or have expired.
pub fn open<L: Shards>(
    shards: &L,
    table: &Table,
    book: &mut Book,
    by: u32,
    tenure: TenureNo,
) -> Answer
    ensures { LeadsOver (L.clock shards.now) (L.shows shards.now) table.now book.old.tenures table.now book.new.tenures
        by (command.OpenShard tenure) result }
{
    shards.lease_lines();
    let own = holding_tenure(table, book, by, tenure)?;
    if own.opened {
        return Err(Refusal::OpenedBefore);
    }
    // The key is borrowed, so that it can be passed on more than once.
    let key = &own.key;
    let Some(shard) = shards.shard(*key) else {
        return Err(Refusal::ShardGone);
    };
    if !shards.is_listed(*key) {
        return Err(Refusal::ShardGone);
    }
    past_parent(shards, table, key.stream, shard.parent)?;
    past_parent(shards, table, key.stream, shard.adjacent)?;
    book.open_tenure(tenure)?;
    Ok(Reply::Done)
}

/// Counts the oldest pending read of the tenure `tenure` as delivered, because the record processor has processed the
/// read's batch.
pub fn give<L: Shards>(shards: &L, book: &mut Book, by: u32, tenure: TenureNo) -> Answer
    ensures { (rows : List Row)
        → LeadsOver (L.clock shards.now) (L.shows shards.now) rows book.old.tenures rows book.new.tenures by
        (command.Give tenure) result }
{
    shards.lease_lines();
    own_tenure(book, by, tenure)?;
    let delivered = book.give(tenure)?;
    Ok(Reply::Given { delivered })
}

/// Sets the checkpoint of the row that the tenure `tenure` holds to the target `to`. The row's counter must be
/// `counter`.
pub fn mark<L: Shards>(
    shards: &L,
    table: &mut Table,
    book: &Book,
    by: u32,
    tenure: TenureNo,
    counter: u64,
    to: Target,
) -> Answer
    ensures { LeadsOver (L.clock shards.now) (L.shows shards.now) table.old book.now.tenures table.new book.now.tenures
        by (command.Mark tenure counter to) result }
{
    shards.lease_lines();
    let own = own_tenure(book, by, tenure)?;
    let next = table.mark(own.key, tenure, counter, to, own.delivered, own.at_end)?;
    Ok(Reply::Counter(next))
}
