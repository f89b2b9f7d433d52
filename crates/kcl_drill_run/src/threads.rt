//! Runs the threads of a drill, a self-test whose participants send commands to one machine. The root creates the
//! stream, the feeder sends the other generated commands, and the workers read the records.
ghost use Rattle.std.specs.Prelude.{◌≡◌, ◌≤◌, IfErr, OnOk};
ghost use Rattle.kds_turn.specs.declared.pass.TurnErr.TheVariants as failed;
ghost use Rattle.kcl_drill.specs.declared.limits.TheConstants.{MOST_RECORDS};
ghost use Rattle.kcl_drill_run.specs.Ends.{AllEnded, SomeFailed};
ghost use Rattle.kcl_drill_run.specs.Participants.{AreDealt};
ghost use Rattle.kcl_drill_run.specs.Running.{AreFull, HaveFailed, HaveRun, HaveStopped};

use crate::participants::{DrillMember, Participants};
use kcl_drill_threads::crowd;
use kcl_world::World;
use kds_turn::{Hall, TurnErr};
use std::alloc::Global;
use std::sync::Wait;
use std::thread::Threads;

/// Returns the error of the first worker in `members` whose run failed, or `Ok` if no run failed.
fn first_error(members: &[DrillMember]) -> Result<(), TurnErr>
    ensures ok { OnOk result (AllEnded members.now) }
    ensures err { IfErr result (λ e. SomeFailed e members.now) }
{
    for member in members {
        match member.outcome {
            Ok(()) => {}
            Err(error) => return Err(error),
        }
    }
    Ok(())
}

/// Runs the threads of a drill. First the root sends its command. Then the feeder sends its commands, while the workers
/// run concurrently. The error `Memory` means that memory ran out for a command of the generator, for the answer to
/// such a command, or for a worker. The error `Spent` means that the machine has answered 2^64 - 1 commands, the most
/// that can be counted.
pub fn run_threads<R: Threads + Wait + Sync>(
    rt: &R,
    alloc: Global,
    hall: &Hall<World>,
    participants: &mut Participants,
    number: u64,
    records: u64,
) -> Result<(), TurnErr>
    requires dealt { AreDealt hall.now participants.old }
    requires few { records ≤ MOST_RECORDS }
    ensures stopped { HaveStopped hall.now number records participants.new }
    ensures ran { OnOk result (HaveRun hall.now number records participants.new) }
    ensures err { IfErr result (HaveFailed participants.old participants.new) }
    ensures full { IfErr result (λ e. e ≡ failed.Spent → AreFull participants.new) }
{
    kcl_drill_laws::horizon();
    match crowd(
        rt,
        alloc,
        hall,
        &mut participants.root,
        &mut participants.feeder,
        participants.members.as_mut_slice(),
        number,
        records,
    ) {
        Ok(()) => first_error(participants.members.as_slice()),
        Err(error) => Err(error),
    }
}
