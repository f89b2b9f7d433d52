//! Computes the summary of a drill, a self-test whose input is generated from a number. A survey is an answer of the
//! machine that contains all listed shards (those that ListShards returns) and all rows of the lease table. A turn is
//! one command, and an actor is the number of a command's sender.
ghost use Rattle.std.specs.Prelude.{ℕ, ◌≡◌, ◌++◌, List, max, Ok, IfOk, OnOk, OnErr};
ghost use Rattle.kds_base.specs.declared.lease_key.ShardRef.{ShardRef};
ghost use Rattle.kds_defs.specs.declared.command.Turn.{Turn as Asked};
ghost use Rattle.kds_defs.specs.declared.reply.Reply.TheVariants as reply;
ghost use Rattle.kds_defs.specs.declared.reply.Row.{Row};
ghost use Rattle.kds_defs.specs.Histories.{clock, journal};
ghost use Rattle.kds_defs.specs.Leases.{rows};
ghost use Rattle.kcl_drill.specs.Summed.{summary_text};
ghost use Rattle.kcl_drill_summary.specs.Counting.{CanSum};
ghost use Rattle.kcl_drill_summary.specs.Summing.{CanTell, IsTold};
ghost use Rattle.kcl_drill_summary.specs.Reads.{HasRead};

use crate::asking::ask;
use crate::summing::{ShardSum, sum_shards};
use crate::text::text_of;
use kds_base::{Memory, Moment, Octets};
use kds_defs::{Answer, Command, Machine, Reply};
use std::alloc::Global;

/// Returns the totals of each shard of the drill's stream that is in the survey.
fn sum_survey<M: Machine>(
    alloc: Global,
    machine: &mut M,
    by: u32,
    at: Moment,
    survey: &Answer,
) -> Result<Vec<ShardSum>, Memory>
    ensures ok { (h : List Asked) (s : ℕ) (keys : List ShardRef) (among : List Row)
        → survey.now ≡ Ok (reply.Survey keys among)
        → CanTell (M.stands_for machine.old) by at h s keys among
        → IfOk result (λ sums. IsTold (journal h) s keys sums.items) }
    ensures read { (h : List Asked) → HasRead (M.stands_for machine.old) by at h
        → HasRead (M.stands_for machine.new) by at h }
{
    match survey {
        Ok(Reply::Survey { shards, rows }) => {
            sum_shards(alloc, machine, by, at, shards.as_slice(), rows.as_slice())
        }
        _ => Ok(Vec::new(alloc)),
    }
}

/// Returns the text of the drill's summary.
fn find_text<M: Machine>(
    alloc: Global,
    machine: &mut M,
    by: u32,
    at: Moment,
) -> Result<Octets, Memory>
    ensures text { (h : List Asked) → HasRead (M.stands_for machine.old) by at h → CanSum h (max (clock h) at)
        → IfOk result (λ t. t ≡ summary_text (journal h) (max (clock h) at)) }
    ensures read { (h : List Asked) → HasRead (M.stands_for machine.old) by at h
        → HasRead (M.stands_for machine.new) by at h }
{
    kcl_laws::step();
    kcl_laws::shard_records();
    let answer = ask(machine, by, at, Command::Survey)?;
    let sums = sum_survey(alloc, machine, by, at, &answer)?;
    text_of(alloc, sums.as_slice())
}

/// Adds the summary of a drill to `to`: one line for each listed shard of the drill's stream, and then one line with
/// the numbers of records and payload bytes in all these shards. The summary is computed from the machine's answers to
/// turns of the actor `by` at the moment `at`. These turns don't change the journal, which is the machine's event log.
/// If memory runs out, nothing is added to `to`.
pub fn summary<M: Machine>(
    alloc: Global,
    machine: &mut M,
    by: u32,
    at: Moment,
    to: &mut Octets,
) -> Result<(), Memory>
    ensures text { (h : List Asked) → HasRead (M.stands_for machine.old) by at h → CanSum h (max (clock h) at)
        → OnOk result (to.new ≡ to.old ++ summary_text (journal h) (max (clock h) at)) }
    ensures err { OnErr result (to.new ≡ to.old) }
    ensures read { (h : List Asked) → HasRead (M.stands_for machine.old) by at h
        → HasRead (M.stands_for machine.new) by at h }
{
    let text = find_text(alloc, machine, by, at)?;
    to.extend(text.as_slice())
}
