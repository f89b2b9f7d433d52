//! Sends one command on leases to the machine. The command, together with its sender and its time, is called a turn.
//! The sender is given as a number, the actor.
ghost use Rattle.std.specs.Prelude.{◌≡◌, ◌<◌, ◌^◌, false};
ghost use Rattle.kds_defs.specs.Kinds.{is_service};
ghost use Rattle.kds_defs.specs.Lawful.{IsLawfulCommand};
ghost use Rattle.kcl_drill_drain.specs.Leased.{Answers, KeepsLeased, turn_of};

use kds_base::{Memory, Moment};
use kds_defs::{Answer, Command, Machine, Turn};

/// Sends `what`, a command on leases, to the machine. The sender is the actor `by`, and the time is `at`. Returns the
/// machine's answer. The error means out of memory. Even then, all commands that the machine has answered since the
/// call began are commands on leases, with the sender `by` and the time `at`.
pub fn ask<M: Machine>(
    machine: &mut M,
    by: u32,
    at: Moment,
    what: Command,
) -> Result<Answer, Memory>
    requires leases { is_service what ≡ false }
    requires lawful { IsLawfulCommand what }
    ensures ok { Answers (M.stands_for machine.old) (M.stands_for machine.new) (turn_of by at what) result }
    ensures moment { at < 2 ^ 62 }
    ensures kept { KeepsLeased (M.stands_for machine.old) (M.stands_for machine.new) by at }
{
    let _ms = at.ms();
    machine.apply(Turn { by, at, what })
}
