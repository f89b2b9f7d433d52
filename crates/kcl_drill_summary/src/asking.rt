//! A turn is one command, applied atomically to the machine. This file makes a turn that only reads. An actor is the
//! number of a command's sender.
ghost use Rattle.std.specs.Prelude.{◌≡◌, List, true, max, IfOk};
ghost use Rattle.kds_defs.specs.declared.command.Turn.{Turn as Asked};
ghost use Rattle.kds_defs.specs.Histories.{answer_of, clock, decide, journal};
ghost use Rattle.kds_defs.specs.Lawful.{IsLawfulCommand};
ghost use Rattle.kcl_drill_summary.specs.Reads.{HasRead, is_reading};

use kds_base::{Memory, Moment};
use kds_defs::{Answer, Command, Machine, Turn};

/// Applies `what`, a command that only reads (`Survey`, `GetIterator` or `Records`), to the machine, as a turn of the
/// actor `by` at the moment `at`. A turn that only reads doesn't change the answer to any later turn.
pub fn ask<M: Machine>(
    machine: &mut M,
    by: u32,
    at: Moment,
    what: Command,
) -> Result<Answer, Memory>
    requires reads { is_reading what ≡ true }
    requires lawful { IsLawfulCommand what }
    ensures ok { (h : List Asked) → HasRead (M.stands_for machine.old) by at h
        → IfOk result (λ a. a ≡ answer_of (decide (journal h) (max (clock h) at) by what)) }
    ensures read { (h : List Asked) → HasRead (M.stands_for machine.old) by at h
        → HasRead (M.stands_for machine.new) by at h }
{
    machine.apply(Turn { by, at, what })
}
