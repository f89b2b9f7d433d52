//! The commands of one tenure, a worker's hold on a lease. They take the lease, open its shard, read the records,
//! report them as processed, and set the checkpoint.
ghost use Rattle.std.specs.Prelude.{ℕ, ◌≡◌, Some, Ok};
ghost use Rattle.kds_base.specs.declared.lease_key.Checkpoint.{Checkpoint};
ghost use Rattle.kds_defs.specs.declared.reply.Reply.TheVariants as reply;
ghost use Rattle.kcl_defs.specs.Consumers.{first_position};
ghost use Rattle.kcl_drill_drain.specs.Leased.{KeepsLeased};
ghost use Rattle.kcl_drill_drain.specs.Steps.{Gives, Marks, Opens, Reads, Takes};

use crate::asking::ask;
use crate::held::{DrainTenure, READ};
use crate::laws;
use kcl_consumer::first_position;
use kds_base::{Memory, Moment, ShardRef, WorkerNo};
use kds_defs::{Answer, Command, Machine, Reply, Target};

/// Returns the new tenure in the answer to the command Take. Returns `None` if the lease wasn't taken.
fn taken_of(answer: &Answer) -> Option<DrainTenure>
    ensures { (t n : ℕ) (start : Checkpoint) → answer.now ≡ Ok (reply.Taken t n start)
        → result ≡ Some (record { tenure = t; position = first_position start; counter = n }) }
{
    match answer {
        Ok(
            Reply::Taken {
                tenure,
                counter,
                start,
            },
        ) => Some(DrainTenure {
            tenure: *tenure,
            position: first_position(*start),
            counter: *counter,
        }),
        _ => None,
    }
}

/// Mark is the command that sets a checkpoint. Returns the lease's new counter, which the answer to Mark states.
/// Returns `otherwise` if the answer has no counter.
fn counter_of(answer: &Answer, otherwise: u64) -> u64
    ensures { (n : ℕ) → answer.now ≡ Ok (reply.Counter n) → result ≡ n }
{
    match answer {
        Ok(Reply::Counter(counter)) => *counter,
        _ => otherwise,
    }
}

/// Takes the lease of the shard `key` for the worker 1. The lease's counter must be `counter`. Returns the new tenure,
/// or `None` if the lease wasn't taken.
pub fn take<M: Machine>(
    machine: &mut M,
    by: u32,
    at: Moment,
    key: ShardRef,
    counter: u64,
) -> Result<Option<DrainTenure>, Memory>
    ensures ok { Takes (M.stands_for machine.old) (M.stands_for machine.new) by at key counter result }
    ensures kept { KeepsLeased (M.stands_for machine.old) (M.stands_for machine.new) by at }
{
    laws::drain_laws();
    kcl_drill_laws::held_answers();
    let owner = WorkerNo(1);
    let what = Command::Take {
        key,
        counter,
        owner,
    };
    let answer = ask(machine, by, at, what)?;
    let held = taken_of(&answer);
    Ok(held)
}

/// Opens the shard of the tenure. The tenure may then read the shard.
pub fn open<M: Machine>(
    machine: &mut M,
    by: u32,
    at: Moment,
    held: &DrainTenure,
) -> Result<(), Memory>
    ensures ok { Opens (M.stands_for machine.old) (M.stands_for machine.new) by at held.now result }
    ensures kept { KeepsLeased (M.stands_for machine.old) (M.stands_for machine.new) by at }
{
    laws::drain_laws();
    kcl_drill_laws::held_answers();
    kcl_drill_laws::held_states();
    let tenure = held.tenure;
    let _answer = ask(machine, by, at, Command::OpenShard { tenure })?;
    Ok(())
}

/// Reads at most `READ` records, beginning at the tenure's read position. Returns the machine's answer.
pub fn read<M: Machine>(
    machine: &mut M,
    by: u32,
    at: Moment,
    held: &DrainTenure,
) -> Result<Answer, Memory>
    ensures ok { Reads (M.stands_for machine.old) (M.stands_for machine.new) by at held.now result }
    ensures kept { KeepsLeased (M.stands_for machine.old) (M.stands_for machine.new) by at }
{
    laws::drain_laws();
    kcl_drill_laws::held_answers();
    kcl_drill_laws::held_states();
    let what = Command::Read {
        tenure: held.tenure,
        position: held.position,
        limit: READ,
    };
    ask(machine, by, at, what)
}

/// Reports the tenure's oldest read that hasn't been reported yet. The records of this read then count as processed.
pub fn give<M: Machine>(
    machine: &mut M,
    by: u32,
    at: Moment,
    held: &DrainTenure,
) -> Result<(), Memory>
    ensures ok { Gives (M.stands_for machine.old) (M.stands_for machine.new) by at held.now result }
    ensures kept { KeepsLeased (M.stands_for machine.old) (M.stands_for machine.new) by at }
{
    kcl_drill_laws::held_answers();
    kcl_drill_laws::held_states();
    let tenure = held.tenure;
    let _answer = ask(machine, by, at, Command::Give { tenure })?;
    Ok(())
}

/// Sets the checkpoint of the tenure's lease to `to`. Returns the lease's new counter, or the counter in `held` if the
/// command was refused.
pub fn mark<M: Machine>(
    machine: &mut M,
    by: u32,
    at: Moment,
    held: &DrainTenure,
    to: Target,
) -> Result<u64, Memory>
    ensures ok { Marks (M.stands_for machine.old) (M.stands_for machine.new) by at held.now to result }
    ensures kept { KeepsLeased (M.stands_for machine.old) (M.stands_for machine.new) by at }
{
    laws::drain_laws();
    kcl_drill_laws::held_answers();
    kcl_drill_laws::held_states();
    let what = Command::Mark {
        tenure: held.tenure,
        counter: held.counter,
        to,
    };
    let answer = ask(machine, by, at, what)?;
    let counter = counter_of(&answer, held.counter);
    Ok(counter)
}
