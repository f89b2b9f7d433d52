//! Takes the leases of shards one after another, and reads each of these shards to its end. A row is a lease in the
//! lease table.
ghost use Rattle.kcl_drill_drain.specs.Leased.{KeepsLeased};
ghost use Rattle.kcl_drill_drain.specs.Steps.{DrainsKeys, DrainsRow, DrainsTaken};

use crate::laws;
use crate::reading::read_on;
use crate::turns::{open, take};
use kcl_drill_summary::row_among;
use kds_base::{Memory, Moment, ShardRef};
use kds_defs::{Machine, Row};

/// Takes the lease of the shard `key`, and reads the shard to its end. The lease's counter must be `counter`.
fn drain_taken<M: Machine>(
    machine: &mut M,
    by: u32,
    at: Moment,
    key: ShardRef,
    counter: u64,
) -> Result<(), Memory>
    ensures ok { DrainsTaken (M.stands_for machine.old) (M.stands_for machine.new) by at key counter result }
    ensures kept { KeepsLeased (M.stands_for machine.old) (M.stands_for machine.new) by at }
{
    match take(machine, by, at, key, counter)? {
        Some(held) => {
            open(machine, by, at, &held)?;
            read_on(machine, by, at, held)
        }
        None => Ok(()),
    }
}

/// Takes the lease of the shard `key`, whose row is `row`, and reads the shard to its end. Does nothing if `row` is
/// `None`, or if the row's checkpoint is already the shard's end.
fn drain_row<M: Machine>(
    machine: &mut M,
    by: u32,
    at: Moment,
    key: ShardRef,
    row: Option<Row>,
) -> Result<(), Memory>
    ensures ok { DrainsRow (M.stands_for machine.old) (M.stands_for machine.new) by at key row result }
    ensures kept { KeepsLeased (M.stands_for machine.old) (M.stands_for machine.new) by at }
{
    laws::drain_laws();
    match row {
        Some(row) => {
            if row.checkpoint.is_end() {
                Ok(())
            } else {
                drain_taken(machine, by, at, key, row.counter)
            }
        }
        None => Ok(()),
    }
}

/// Takes the lease of each shard in `keys`, one after another, and reads the shard to its end. The row of each lease is
/// looked up in `among`. In `keys`, parents come before their children.
pub fn drain_keys<M: Machine>(
    machine: &mut M,
    by: u32,
    at: Moment,
    keys: &[ShardRef],
    among: &[Row],
) -> Result<(), Memory>
    ensures ok { DrainsKeys (M.stands_for machine.old) (M.stands_for machine.new) by at keys.now among.now result }
    ensures kept { KeepsLeased (M.stands_for machine.old) (M.stands_for machine.new) by at }
{
    for key in keys {
        drain_row(machine, by, at, *key, row_among(among, key))?;
    }
    Ok(())
}
