//! Makes a row in the lease table for each listed shard that has no row yet. A shard is listed if ListShards returns
//! it. A survey is the machine's answer with all listed shards and all rows.
ghost use Rattle.std.specs.Prelude.{◌≡◌};
ghost use Rattle.kcl_drill_drain.specs.Leased.{KeepsLeased};
ghost use Rattle.kcl_drill_drain.specs.Steps.{MakesKeys, MakesRow};

use crate::asking::ask;
use crate::laws;
use kcl_drill_summary::row_among;
use kds_base::{Memory, Moment, ShardRef};
use kds_defs::{Command, Machine, Origin, Row};

/// Makes a row in the lease table for the shard `key`, if `seen` is `None`. `seen` is the shard's row in a survey of
/// the lease table. With the new row, reading of the shard begins at the trim horizon.
fn make_row<M: Machine>(
    machine: &mut M,
    by: u32,
    at: Moment,
    key: ShardRef,
    seen: Option<Row>,
) -> Result<(), Memory>
    ensures ok { MakesRow (M.stands_for machine.old) (M.stands_for machine.new) by at key seen result }
    ensures kept { KeepsLeased (M.stands_for machine.old) (M.stands_for machine.new) by at }
{
    laws::drain_laws();
    if seen.is_none() {
        let from = Origin::TrimHorizon;
        let _answer = ask(machine, by, at, Command::MakeLease { key, from })?;
    }
    Ok(())
}

/// Makes a row in the lease table for each shard in `keys` that has no row in `among`, the rows of a survey.
pub fn make_keys<M: Machine>(
    machine: &mut M,
    by: u32,
    at: Moment,
    keys: &[ShardRef],
    among: &[Row],
) -> Result<(), Memory>
    ensures ok { MakesKeys (M.stands_for machine.old) (M.stands_for machine.new) by at keys.now among.now result }
    ensures kept { KeepsLeased (M.stands_for machine.old) (M.stands_for machine.new) by at }
{
    for key in keys {
        make_row(machine, by, at, *key, row_among(among, key))?;
    }
    Ok(())
}
