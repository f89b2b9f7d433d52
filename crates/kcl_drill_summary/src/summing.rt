//! Computes the totals of each shard of the drill's stream. A drill is a self-test whose input is generated from a
//! number.
ghost use Rattle.std.specs.Prelude.{ℕ, ◌≡◌, ◌==◌, ◌++◌, List, Some, Ok, IfOk, OnOk};
ghost use Rattle.kds_base.specs.declared.lease_key.ShardRef.{ShardRef};
ghost use Rattle.kds_defs.specs.declared.command.Turn.{Turn as Asked};
ghost use Rattle.kds_defs.specs.Histories.{journal};
ghost use Rattle.kds_defs.specs.Leases.{rows};
ghost use Rattle.kcl_drill_summary.specs.Counting.{iterator_in, told_of};
ghost use Rattle.kcl_drill_summary.specs.Summing.{CanTell, FindsCount, IsTold};
ghost use Rattle.kcl_drill_summary.specs.Reads.{HasRead};

use crate::asking::ask;
use crate::counting::{Count, count_from};
use crate::rows::checkpoint_among;
use kcl_drill::stream_name;
use kds_base::{Checkpoint, Memory, Moment, ShardNo, ShardRef, StreamNo};
use kds_defs::{Answer, Command, Iter, Machine, Reply, Row, Start};
use std::alloc::Global;
use std::marker::Model;

/// The totals of a shard: the shard's number, the number of its records, the total number of their payload bytes, and
/// the checkpoint in the shard's row of the lease table. In contracts, the totals are these four fields.
#[derive(Clone, Copy)]
pub struct ShardSum {
    pub no: ShardNo,
    pub count: u64,
    pub bytes: u128,
    pub checkpoint: Checkpoint,
}

impl Model for ShardSum {
    ghost use Rattle.kcl_drill.specs.Summed.{Summed};

    ghost Value = { Summed };

    ghost view = { λ x. record { no = x.no; count = x.count; bytes = x.bytes; checkpoint = x.checkpoint } };

    ghost inverse = { λ x. record { no = x.no; count = x.count; bytes = x.bytes; checkpoint = x.checkpoint } };
}

/// Returns the iterator in an answer if the iterator belongs to `stream`, and `None` otherwise.
fn iterator_of(answer: &Answer, stream: StreamNo) -> Option<Iter>
    ensures { result ≡ iterator_in answer.now stream }
{
    match answer {
        Ok(Reply::Iterator(iter)) => {
            if iter.stream == stream {
                Some(*iter)
            } else {
                None
            }
        }
        _ => None,
    }
}

/// Counts the records of the shard with this key, and their payload bytes. Returns `None` if the shard doesn't belong
/// to the drill's stream.
fn count_key<M: Machine>(
    alloc: Global,
    machine: &mut M,
    by: u32,
    at: Moment,
    key: &ShardRef,
) -> Result<Option<Count>, Memory>
    ensures ok { FindsCount (M.stands_for machine.old) by at key.now result }
    ensures read { (h : List Asked) → HasRead (M.stands_for machine.old) by at h
        → HasRead (M.stands_for machine.new) by at h }
{
    let name = stream_name(alloc)?;
    let from = Start::TrimHorizon;
    let shard = key.shard;
    let stream = key.stream;
    let answer = ask(machine, by, at, Command::GetIterator { name, shard, from })?;
    match iterator_of(&answer, stream) {
        Some(iter) => {
            let count = count_from(machine, by, at, iter)?;
            Ok(Some(count))
        }
        None => Ok(None),
    }
}

/// Adds the totals of the shard with this key to `sums`. `found` contains the numbers of the shard's records and bytes.
/// If `found` is `None`, nothing is added.
fn add_sum(
    sums: &mut Vec<ShardSum>,
    key: &ShardRef,
    found: Option<Count>,
    checkpoint: Checkpoint,
) -> Result<(), Memory>
    ensures { OnOk result (sums.new.items ≡ sums.old.items ++ told_of key.now found checkpoint) }
{
    if let Some(count) = found {
        sums.push(ShardSum {
            no: key.shard,
            count: count.count,
            bytes: count.bytes,
            checkpoint,
        })?;
    }
    Ok(())
}

/// Returns the totals of those shards among `keys` that belong to the drill's stream. The checkpoints are taken from
/// `among`, which are rows of the lease table.
pub fn sum_shards<M: Machine>(
    alloc: Global,
    machine: &mut M,
    by: u32,
    at: Moment,
    keys: &[ShardRef],
    among: &[Row],
) -> Result<Vec<ShardSum>, Memory>
    ensures ok { (h : List Asked) (s : ℕ) → CanTell (M.stands_for machine.old) by at h s keys.now among.now
        → IfOk result (λ sums. IsTold (journal h) s keys.now sums.items) }
    ensures read { (h : List Asked) → HasRead (M.stands_for machine.old) by at h
        → HasRead (M.stands_for machine.new) by at h }
{
    let mut sums = Vec::new(alloc);
    for key in keys {
        let found = count_key(alloc, machine, by, at, key)?;
        add_sum(&mut sums, key, found, checkpoint_among(among, key))?;
    }
    Ok(sums)
}
