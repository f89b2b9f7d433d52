//! Reads all listed shards to their ends with commands of one actor (one sender), without a worker (decision 81). A
//! shard is listed if ListShards returns it. A row is the item of a lease in the lease table.
ghost use Rattle.std.specs.Prelude.{◌≡◌, List, OnOk};
ghost use Rattle.kds_defs.specs.declared.command.Turn.{Turn as Asked};
ghost use Rattle.kcl_drill_drain.specs.Draining.{CanDrain};
ghost use Rattle.kcl_drill_drain.specs.Leased.{HasDrained, HasLeased, KeepsLeased};
ghost use Rattle.kcl_drill_drain.specs.Steps.{Drains, Makes};

use crate::asking::ask;
use crate::laws;
use crate::making::make_keys;
use crate::rows::drain_keys;
use kds_base::{Memory, Moment};
use kds_defs::{Answer, Command, Machine, Reply};

/// Makes a row in the lease table for each shard in `survey` that has no row yet. A survey is the machine's answer with
/// all listed shards and all rows.
fn make_missing<M: Machine>(
    machine: &mut M,
    by: u32,
    at: Moment,
    survey: &Answer,
) -> Result<(), Memory>
    ensures ok { Makes (M.stands_for machine.old) (M.stands_for machine.new) by at survey.now result }
    ensures kept { KeepsLeased (M.stands_for machine.old) (M.stands_for machine.new) by at }
{
    match survey {
        Ok(Reply::Survey { shards, rows }) => {
            make_keys(machine, by, at, shards.as_slice(), rows.as_slice())
        }
        _ => Ok(()),
    }
}

/// Takes the lease of each shard in `survey`, reads the shard to its end, and checkpoints there. A lease whose
/// checkpoint is already the shard's end is left as it is.
fn drain_listed<M: Machine>(
    machine: &mut M,
    by: u32,
    at: Moment,
    survey: &Answer,
) -> Result<(), Memory>
    ensures ok { Drains (M.stands_for machine.old) (M.stands_for machine.new) by at survey.now result }
    ensures kept { KeepsLeased (M.stands_for machine.old) (M.stands_for machine.new) by at }
{
    match survey {
        Ok(Reply::Survey { shards, rows }) => {
            drain_keys(machine, by, at, shards.as_slice(), rows.as_slice())
        }
        _ => Ok(()),
    }
}

/// Reads every listed shard to its end and checkpoints there (see Kinesis Client Library, leases). The sender of all
/// commands is the actor `by`, and their time is `at`. First, a row is made in the lease table for each listed shard
/// that has none. Then each lease whose checkpoint isn't the shard's end is taken, in the order of stream and shard
/// numbers, and its shard is read to the end. Afterwards the checkpoint of each closed shard is the shard's end. The
/// checkpoint of each open shard is the sequence number of its last record, or the trim horizon if the shard has no
/// record. This result is proved only for a machine whose history (the list of its commands so far) meets `CanDrain`.
/// The error means out of memory. Even then, all commands that the machine has answered since the call began are
/// commands on leases, with the sender `by` and the time `at`.
pub fn lone_drain<M: Machine>(machine: &mut M, by: u32, at: Moment) -> Result<(), Memory>
    ensures drained { (h : List Asked) → M.stands_for machine.old h → CanDrain h at
        → OnOk result (HasDrained (M.stands_for machine.new) by at h) }
    ensures begun { (h : List Asked) → M.stands_for machine.old h → HasLeased (M.stands_for machine.new) by at h }
{
    laws::drain_laws();
    let before = ask(machine, by, at, Command::Survey)?;
    make_missing(machine, by, at, &before)?;
    let after = ask(machine, by, at, Command::Survey)?;
    drain_listed(machine, by, at, &after)
}
