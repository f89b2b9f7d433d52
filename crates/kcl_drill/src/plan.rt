//! Chooses the shard that a drill splits, or the two shards that it merges. A drill is a self-test whose input is
//! generated from a number.
ghost use Rattle.std.specs.Prelude.{◌≡◌, ◌<◌, IfOk, IfSome};
ghost use Rattle.kds_defs.specs.declared.command.Command.{Command};
ghost use Rattle.kds_defs.specs.Lawful.{IsLawfulCommand};
ghost use Rattle.kcl_drill.specs.Generated.{is_bit_clear, middle, merge_lowest, plan, command_of};
ghost use Rattle.kcl_drill.specs.Coming.{IsPossible};

use crate::limits::{MOST_OPEN, RESHARD_EVERY};
use crate::opens::{OpenShard, OpenShards};
use crate::records::stream_name;
use kds_base::{Memory, Range, ShardNo};
use kds_defs::Command;
use std::alloc::Global;

/// A planned change: a split of a shard in the middle of its range, or a merge of a shard with its neighbour.
#[derive(Clone, Copy)]
pub enum Plan {
    Split(OpenShard),
    Merge(OpenShard, OpenShard),
}

/// Returns the hash key that splits the range in the middle. The returned key is the first hash key of the upper part.
/// Precondition: the range has at least two hash keys.
pub fn middle_of(r: &Range) -> u128
    requires { r.now.start < r.now.end }
    ensures { result ≡ middle r.now }
{
    r.start + (r.end - r.start) / 2 + 1
}

/// Whether bit 40 of `x` is 0. The lowest bit is bit 0.
fn is_bit_40_clear(x: u64) -> bool
    ensures { result ≡ is_bit_clear 40 x }
{
    (x >> 40) % 2 == 0
}

/// Returns the plan to merge two open shards: the shard whose range starts first, and its upper neighbour, whose range
/// starts right after the first range ends. Returns `None` if fewer than two shards are open, or if there is no such
/// neighbour.
fn find_merge(opens: &OpenShards) -> Option<Plan>
    ensures is { result ≡ merge_lowest opens.now.all }
    ensures possible { IfSome result IsPossible }
{
    if opens.as_slice().len() < 2 {
        return None;
    }
    let x = opens.lowest()?;
    let y = opens.next_to(&x.range)?;
    Some(Plan::Merge(x, y))
}

/// Returns the change that is due now, or `None` if no change is due. `count` is the number of records made so far, and
/// `x` is the random number that was drawn last.
pub fn find_plan(count: u64, x: u64, opens: &OpenShards) -> Option<Plan>
    ensures is { result ≡ plan count x opens.now }
    ensures possible { IfSome result IsPossible }
{
    if count % RESHARD_EVERY != 0 {
        return None;
    }
    let first = opens.as_slice().first()?;
    if is_bit_40_clear(x)
        && opens.as_slice().len() < MOST_OPEN
        && first.range.start < first.range.end
    {
        Some(Plan::Split(*first))
    } else {
        find_merge(opens)
    }
}

impl Plan {
    /// Returns the command that makes the planned change.
    pub fn command(&self, alloc: Global) -> Result<Command, Memory>
        requires { IsPossible self.now }
        ensures is { IfOk result (λ c. c ≡ command_of self.now) }
        ensures lawful { IfOk result IsLawfulCommand }
    {
        let name = stream_name(alloc)?;
        Ok(match self {
            Plan::Split(x) => Command::Split {
                name,
                shard: ShardNo(x.no),
                at: middle_of(&x.range),
            },
            Plan::Merge(x, y) => Command::Merge {
                name,
                shard: ShardNo(x.no),
                other: ShardNo(y.no),
            },
        })
    }
}
